//! All that is known here, and what it decides.
ghost use Rattle.std.specs.Prelude.{◌≡◌, ℕ, [], IsOk, IfOk, OnErr, OnOk};
ghost use Rattle.local_answers.specs.Decisions.{IsDecided, decided_by, decided_here, is_of_zone_above};
ghost use Rattle.local_answers.specs.Zones.{FirstServed, locally_served_zones, with_served};

use crate::choices::DS;
use crate::from_hosts::hosts_reply;
use crate::rules::{DomainRule, blocked_reply, served_reply};
use crate::special::special_reply;
use crate::zones::{locally_served_zones, serve_all};
use domain_table::{DomainTable, Found};
use hickory_proto_core::Query;
use hickory_resolver_hosts::Hosts;
use std::alloc::{AllocError, Global};
use std::hash::{BuildHasher, BuildHasherDefault, FoldHasher};
use whole_replies::KeptReply;

/// What is done with a question.
#[derive(Debug, Drop)]
pub enum Decision {
    /// This is told.
    Answer(KeptReply),
    /// The servers of the group of this number are asked.
    Ask(u64),
}

/// The hosts that are known here, and what is done below which domain.
#[derive(Drop)]
pub struct LocalData<S: BuildHasher = BuildHasherDefault<FoldHasher>> {
    /// The hosts.
    pub hosts: Hosts<S>,
    /// The rules, of which that of the longest domain counts.
    pub rules: DomainTable<DomainRule, S>,
}

impl LocalData {
    /// No hosts and no rules, with the default hasher, whose seed is fixed: where strangers choose names, fill in
    /// tables with other hashers. Takes no memory.
    pub fn new(alloc: Global) -> LocalData
        ensures hosts { result.hosts ≡ [] }
        ensures rules { result.rules ≡ [] }
    {
        LocalData {
            hosts: Hosts::default(alloc),
            rules: DomainTable::new(alloc),
        }
    }
}

impl<S: BuildHasher> LocalData<S> {
    /// What is done with a question of the class of the Internet at a moment (seconds). Its name is given as octets
    /// too, as they stand in the question. The hosts come first, then the special names, then the rule of the longest
    /// domain that is the name or above it; where there is none, group 0 is asked. The only error is to be out of
    /// memory. Without hosts none is taken where a group is asked.
    pub fn decide(
        &self,
        alloc: Global,
        query: &Query,
        question_name: &[u8],
        now: u64,
    ) -> Result<Decision, AllocError>
        ensures decided { IfOk result (IsDecided self.now.hosts self.now.rules query.now question_name.now now) }
        ensures asked { (group : ℕ) → self.now.hosts ≡ []
            → decided_here self.now.rules query.now question_name.now ≡ Decision.Ask group → IsOk result }
    {
        match hosts_reply(alloc, &self.hosts, query, now) {
            Ok(Some(told)) => Ok(Decision::Answer(told)),
            Ok(None) => self.decide_here(alloc, query, question_name),
            Err(error) => Err(error),
        }
    }

    /// Serves the zones of `locally_served_zones`; one of them is undone by a rule `Ask` for it. A refused call is out
    /// of memory: then some of the first are served.
    pub fn serve_locally(&mut self) -> Result<(), AllocError>
        ensures hosts { self.new.hosts ≡ self.old.hosts }
        ensures ok { OnOk result (self.new.rules ≡ with_served locally_served_zones self.old.rules) }
        ensures err { OnErr result (FirstServed locally_served_zones self.old.rules self.new.rules) }
    {
        serve_all(&mut self.rules, locally_served_zones())
    }

    // What is done with a question that the hosts have nothing for.
    fn decide_here(
        &self,
        alloc: Global,
        query: &Query,
        question_name: &[u8],
    ) -> Result<Decision, AllocError>
        ensures decided { IfOk result (λ decision. decision ≡ decided_here self.now.rules query.now question_name.now) }
        ensures asked { (group : ℕ) → decided_here self.now.rules query.now question_name.now ≡ Decision.Ask group
            → IsOk result }
    {
        match special_reply(alloc, query) {
            Ok(Some(told)) => Ok(Decision::Answer(told)),
            Ok(None) => match self.rules.find(question_name) {
                Some(Found { place, value }) => decide_by(alloc, query, place, *value),
                None => Ok(Decision::Ask(0)),
            },
            Err(error) => Err(error),
        }
    }
}

// Whether a question is for what stands with the zone above the domain that begins at this place of the name.
fn is_of_zone_above(query: &Query, place: usize) -> bool
    ensures { result ≡ is_of_zone_above query.now place }
{
    place == 0 && query.query_type.code() == DS
}

// What a rule does with a question, where its domain begins at a place of the name.
fn decide_by(
    alloc: Global,
    query: &Query,
    place: usize,
    rule: DomainRule,
) -> Result<Decision, AllocError>
    ensures decided { IfOk result (λ decision. decision ≡ decided_by query.now place rule) }
    ensures asked { (group : ℕ) → decided_by query.now place rule ≡ Decision.Ask group → IsOk result }
{
    match rule {
        DomainRule::Serve if is_of_zone_above(query, place) => Ok(Decision::Ask(0)),
        DomainRule::Serve => Ok(Decision::Answer(served_reply(alloc, query, place)?)),
        DomainRule::Block(blocked) => {
            Ok(Decision::Answer(blocked_reply(alloc, query, place, blocked)?))
        }
        DomainRule::Ask(group) => Ok(Decision::Ask(group)),
    }
}
