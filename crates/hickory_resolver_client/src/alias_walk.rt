//! The walk along the aliases and the servers among the answers of a response (RFC 1034, section 3.6.2; RFC
//! 2782).
ghost use Rattle.std.specs.Prelude.{◌≡◌, ◌||◌, not, IfOk, OnOk};
ghost use Rattle.std.specs.Option.{option_map};
ghost use Rattle.hickory_proto_core.specs.ResponseKind.{is_empty};
ghost use Rattle.hickory_resolver_model.specs.Bounds.{least};
ghost use Rattle.hickory_resolver_model.specs.AliasWalk.{AliasTo, Server, ends_at, has_target, is_moved, standing, walk_of, walk_from, counted, follows_aliases};
ghost use Rattle.hickory_resolver_model.specs.Verdict.{next_name};
ghost use Rattle.hickory_resolver_client.specs.Counts.{counted_value};
ghost use Rattle.hickory_resolver_client.specs.Walks.{ShowsAs, ShowsWith, ShowsNext};

use hickory_proto_core::{Name, Query, RData, Record, RecordType};
use hickory_resolver_lookup::MAX_TTL;
use std::alloc::{AllocError, Global};
use std::collections::BTreeSet;
use std::marker::Model;

/// Where the aliases and the servers among some answers lead.
#[derive(Drop)]
pub struct AliasWalk<'a> {
    last: &'a Name,
    ttl: u32,
    alias_ttl: Option<u32>,
    targets: Option<Targets<'a>>,
}

// The targets of the servers: the first, and the others in order.
#[derive(Drop)]
struct Targets<'a> {
    first: &'a Name,
    others: BTreeSet<&'a Name>,
}

// What a record counts as.
#[derive(Drop)]
enum Counted<'a> {
    // An alias, whose target is reached next.
    AliasTo(&'a Name),
    // A server, whose name is a target.
    Server(&'a Name),
}

impl<'a> Model for AliasWalk<'a> {
    ghost use Rattle.hickory_resolver_model.specs.AliasWalk.{Walk};
    ghost use Rattle.hickory_resolver_client.specs.Walks.{shown_walk};

    ghost Value = { Walk };

    ghost view = { λ w. shown_walk w.last.now w.ttl w.alias_ttl w.targets };
}

impl<'a> AliasWalk<'a> {
    /// The least of a day and the TTLs of all that counted (seconds).
    pub fn ttl(&self) -> u32
        ensures { result ≡ self.now.ttl }
    {
        self.ttl
    }

    /// The least TTL of the aliases that counted, where one did (seconds).
    pub fn alias_ttl(&self) -> Option<u32>
        ensures { result ≡ least self.now.alias_ttls }
    {
        self.alias_ttl
    }

    /// Whether an alias counted, and moved the name reached.
    pub fn is_moved(&self) -> bool
        ensures { result ≡ is_moved self.now }
    {
        self.alias_ttl.is_some()
    }

    /// Whether a record counted.
    pub fn leads_on(&self) -> bool
        ensures places { result ≡ not (is_empty self.now.places) }
        ensures parts { result ≡ is_moved self.now || not (is_empty self.now.targets) }
    {
        self.is_moved() || self.targets.is_some()
    }

    /// The name that it leads to: the last one, where an alias counted, else the first target.
    pub fn next_name(&self) -> &'a Name
        ensures { result.now ≡ next_name self.now }
    {
        if self.is_moved() {
            return self.last;
        }
        match &self.targets {
            Some(targets) => targets.first,
            None => self.last,
        }
    }

    /// Whether it ends at a name.
    pub fn ends_at(&self, name: &Name) -> bool
        ensures { result ≡ ends_at self.now name.now }
    {
        *self.last == *name
    }

    /// Whether a name is a target.
    pub fn has_target(&self, name: &'a Name) -> bool
        ensures { result ≡ has_target self.now name.now }
    {
        match &self.targets {
            Some(targets) => *targets.first == *name || targets.others.contains(&name),
            None => false,
        }
    }

    // A walk on which nothing has counted.
    fn standing(reached: &'a Name) -> AliasWalk<'a>
        ensures { ShowsAs (standing reached.now) result }
    {
        AliasWalk {
            last: reached,
            ttl: MAX_TTL,
            alias_ttl: None,
            targets: None,
        }
    }

    // Takes the next answer, where it counts.
    fn take(&mut self, alloc: Global, asked: &Name, answer: &'a Record) -> Result<(), AllocError>
        ensures { OnOk result (ShowsNext asked.now answer.now self.old self.new) }
    {
        match counts_as(asked, self.last, answer) {
            Some(Counted::AliasTo(target)) => {
                self.follow(target, answer.ttl);
                Ok(())
            }
            Some(Counted::Server(target)) => self.add_target(alloc, target, answer.ttl),
            None => Ok(()),
        }
    }

    // Follows an alias of this TTL.
    fn follow(&mut self, target: &'a Name, ttl: u32)
        ensures { ShowsWith (AliasTo target.now) ttl self.old self.new }
    {
        self.last = target;
        self.ttl = self.ttl.min(ttl);
        self.alias_ttl = Some(self.alias_ttl.map_or(ttl, |least| least.min(ttl)));
    }

    // Adds the target of a server of this TTL. Only the second one and those after it take memory.
    fn add_target(&mut self, alloc: Global, target: &'a Name, ttl: u32) -> Result<(), AllocError>
        ensures { OnOk result (ShowsWith (Server target.now) ttl self.old self.new) }
    {
        self.ttl = self.ttl.min(ttl);
        if let Some(targets) = &mut self.targets {
            targets.others.insert(target)?;
            return Ok(());
        }
        self.targets = Some(Targets {
            first: target,
            others: BTreeSet::new(alloc),
        });
        Ok(())
    }
}

/// The walk of a question over the answers to it, in their order: along each CNAME of the name reached, with the
/// targets of the SRVs of that name and of the asked one.
pub fn walk_of<'a>(
    alloc: Global,
    query: &'a Query,
    answers: &'a [Record],
) -> Result<AliasWalk<'a>, AllocError>
    ensures { IfOk result (ShowsAs (walk_of query.now answers.now)) }
{
    if follows_aliases(query) {
        walk_from(alloc, &query.name, answers)
    } else {
        Ok(AliasWalk::standing(&query.name))
    }
}

fn walk_from<'a>(
    alloc: Global,
    asked: &'a Name,
    answers: &'a [Record],
) -> Result<AliasWalk<'a>, AllocError>
    ensures { IfOk result (ShowsAs (walk_from 0 asked.now asked.now answers.now)) }
{
    let mut walk = AliasWalk::standing(asked);
    for answer in answers {
        walk.take(alloc, asked, answer)?;
    }
    Ok(walk)
}

// Questions for every type and for CNAMEs are not led on.
fn follows_aliases(query: &Query) -> bool
    ensures { result ≡ follows_aliases query.now }
{
    query.query_type != RecordType::ANY && query.query_type != RecordType::CNAME
}

// What a record counts as: a CNAME of the name reached, or an SRV of that name or of the asked one.
fn counts_as<'a>(asked: &Name, reached: &Name, answer: &'a Record) -> Option<Counted<'a>>
    ensures { option_map counted_value result ≡ counted asked.now reached.now answer.now }
{
    match &answer.rdata {
        RData::CNAME(target) => (*reached == answer.name).then_some(Counted::AliasTo(target)),
        RData::SRV { target, .. } => {
            (*reached == answer.name || *asked == answer.name).then_some(Counted::Server(target))
        }
        _ => None,
    }
}
