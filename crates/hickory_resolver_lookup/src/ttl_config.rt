//! Bounds on times to live by the type of records.
ghost use Rattle.std.specs.Prelude.{◌≡◌, ◌≤◌, ◌==◌, ◌||◌, [], ◌++◌, filter, IfOk, OnOk, OnErr, IsOkUnless};
ghost use Rattle.std.specs.Result.{result_map_both};
ghost use Rattle.hickory_proto_core.specs.Codes.{type_code};
ghost use Rattle.hickory_proto_core.specs.ResponseKind.{record_type_code};
ghost use Rattle.hickory_resolver_model.specs.Bounds.{ConfigValue, SetsBounds, all_agree, bounds_for, positive_bounds, negative_bounds, clamped_message, clamped_record, clamped_records, positive_lifetime, negative_lifetime, no_bounds, least_ttl, living_records};
ghost use Rattle.hickory_resolver_model.specs.Hops.{alias_deadline};
ghost use Rattle.hickory_resolver_model.specs.Options.{bounds_of, config_or_fault};

use crate::ttl_bounds::{TtlBounds, clamp, clamp_ttl};
use hickory_proto_core::{BoundsError, Message, NetError, NoRecords, Query, Record, RecordType};
use hickory_resolver_config::ResolverOpts;
use std::alloc::Global;
use std::collections::BTreeMap;
use std::marker::Model;

/// The bounds on times to live that a cache keeps to: those of most types of records, and those of some
/// types, which stand in place of them whole.
#[derive(Debug, Drop)]
pub struct TtlConfig {
    default: TtlBounds,
    by_type: BTreeMap<u16, TtlBounds>,
}

impl Model for TtlConfig {
    ghost use Rattle.hickory_resolver_model.specs.Bounds.{ConfigValue};

    ghost Value = { ConfigValue };

    ghost view = { λ c. record { default = c.default; by_type = c.by_type.entries } };
}

impl TtlConfig {
    ghost use Rattle.std.specs.Borrow.{sem};
    ghost use Rattle.hickory_resolver_lookup.specs.ConfigLends.{LendsConfig, RestsConfig};

    /// No bounds but those that stand where all are left out. Takes no memory.
    pub fn default(alloc: Global) -> TtlConfig
        ensures { result ≡ record { default = no_bounds; by_type = [] } }
    {
        TtlConfig::from(alloc, TtlBounds::default())
    }

    /// The same bounds for every type. Takes no memory.
    pub fn from(alloc: Global, bounds: TtlBounds) -> TtlConfig
        ensures { result ≡ record { default = bounds; by_type = [] } }
    {
        TtlConfig {
            default: bounds,
            by_type: BTreeMap::new(alloc),
        }
    }

    /// The bounds that the options say, for every type. Bounds whose least is above their greatest are
    /// refused, those of positive answers first. Takes no memory.
    pub fn from_opts(alloc: Global, options: &ResolverOpts) -> Result<TtlConfig, BoundsError>
        ensures { result ≡ config_or_fault (bounds_of options.now) }
    {
        let bounds = TtlBounds::new(
            options.positive_min_ttl,
            options.negative_min_ttl,
            options.positive_max_ttl,
            options.negative_max_ttl,
        )?;
        Ok(TtlConfig::from(alloc, bounds))
    }

    /// Puts these bounds in place of all others for one type, and hands itself back, so that calls chain.
    /// A refused call changes nothing; the only error is to be out of memory.
    pub fn with_query_type_ttl_bounds(
        &mut self,
        query_type: RecordType,
        bounds: TtlBounds,
    ) -> Result<&mut TtlConfig, NetError>
        ensures* lends { sem 𝓛 (LendsConfig self.entry result) }
        ensures same_reference { IfOk result (λ config. config.ghost_name ≡ self.entry.ghost_name) }
        ensures ok { IfOk result (λ config. SetsBounds self.old config.now (type_code query_type) bounds) }
        ensures err { IsOkUnless result NetError.OutOfMemory }
    {
        handed_back(self.change(query_type, bounds))
    }

    // The same, with the configuration in a struct.
    fn change(&mut self, query_type: RecordType, bounds: TtlBounds) -> Result<Changed<'_>, NetError>
        ensures* rests { sem 𝓛 (RestsConfig self.entry result) }
        ensures same_reference { IfOk result (λ c. c.config.ghost_name ≡ self.entry.ghost_name) }
        ensures ok { IfOk result (λ c. SetsBounds self.old c.config.now (type_code query_type) bounds) }
        ensures err { IsOkUnless result NetError.OutOfMemory }
    {
        self.by_type.insert(query_type.code(), bounds)?;
        Ok(Changed { config: self })
    }

    /// The least and the greatest time that a positive answer to a question for this type is kept for, in
    /// seconds.
    pub fn positive_response_ttl_bounds(&self, query_type: RecordType) -> (u64, u64)
        ensures bounds { result ≡ positive_bounds (bounds_for self.now (type_code query_type)) }
        ensures ordered { result.0 ≤ result.1 }
    {
        self.bounds(query_type).positive()
    }

    /// The least and the greatest time that a negative answer to a question for this type is kept for, in
    /// seconds.
    pub fn negative_response_ttl_bounds(&self, query_type: RecordType) -> (u64, u64)
        ensures bounds { result ≡ negative_bounds (bounds_for self.now (type_code query_type)) }
        ensures ordered { result.0 ≤ result.1 }
    {
        self.bounds(query_type).negative()
    }

    /// A copy of every field.
    pub fn clone(&self) -> Result<TtlConfig, NetError>
        ensures ok { IfOk result (λ c. c ≡ self.now) }
        ensures err { IsOkUnless result NetError.OutOfMemory }
    {
        Ok(TtlConfig {
            default: self.default,
            by_type: self.by_type.clone()?,
        })
    }

    /// Clamps the TTL of each record of a message, in seconds, by the positive bounds of the record's own type (RFC
    /// 2181, section 8).
    pub fn clamp(&self, message: &mut Message)
        ensures { message.new ≡ clamped_message self.now message.old }
    {
        self.clamp_records(&mut message.answers);
        self.clamp_records(&mut message.authorities);
        self.clamp_records(&mut message.additionals);
    }

    /// For how many seconds an answer whose TTLs are clamped may be kept: the least TTL of the records that it lives
    /// by, within the positive bounds of the asked type (RFC 2181, section 8).
    pub fn positive_lifetime(&self, query: &Query, message: &Message) -> u64
        ensures { result ≡ positive_lifetime self.now query.now message.now }
    {
        let bounds = self.positive_response_ttl_bounds(query.query_type);
        let least = least_living_ttl(query, message);
        clamp(bounds, least.unwrap_or(bounds.0))
    }

    /// For how many seconds a negative answer may be kept: its TTL, or the least bound where it has none, within the
    /// negative bounds of the asked type (RFC 2308, section 5).
    pub fn negative_lifetime(&self, query: &Query, negative: &NoRecords) -> u64
        ensures { result ≡ negative_lifetime self.now query.now negative.now }
    {
        let bounds = self.negative_response_ttl_bounds(query.query_type);
        let ttl = match negative.negative_ttl {
            Some(ttl) => ttl as u64,
            None => bounds.0,
        };
        clamp(bounds, ttl)
    }

    /// Until when (seconds) a CNAME of this TTL lives that came at a moment: its TTL is clamped as that of a record,
    /// by the positive bounds of CNAMEs (RFC 2181, sections 5.2 and 8). The last moment where the sum is past it.
    pub fn alias_deadline(&self, ttl: u32, now: u64) -> u64
        ensures { result ≡ alias_deadline self.now now ttl }
    {
        let bounds = self.positive_response_ttl_bounds(RecordType::CNAME);
        now.saturating_add(u64::from(clamp_ttl(bounds, ttl)))
    }

    fn clamp_records(&self, records: &mut Vec<Record>)
        ensures { records.new.items ≡ clamped_records self.now records.old.items }
    {
        for limited in records.iter_mut() {
            self.clamp_record(limited);
        }
    }

    fn clamp_record(&self, limited: &mut Record)
        ensures { limited.new ≡ clamped_record self.now limited.old }
    {
        let bounds = self.positive_response_ttl_bounds(limited.record_type());
        limited.ttl = clamp_ttl(bounds, limited.ttl);
    }

    fn bounds(&self, query_type: RecordType) -> TtlBounds
        ensures { result ≡ bounds_for self.now (type_code query_type) }
    {
        let own = self.by_type.get(&query_type.code());
        own.copied().unwrap_or(self.default)
    }
}

// A configuration that has just been changed, on its way back to the caller: what a refused call leaves
// can be said of a struct that holds the reference.
#[derive(Drop)]
struct Changed<'a> {
    config: &'a mut TtlConfig,
}

// The configuration out of its struct.
fn handed_back<'a>(changed: Result<Changed<'a>, NetError>) -> Result<&'a mut TtlConfig, NetError>
    ensures { result ≡ result_map_both (λ c. c.config) (λ e. e) changed.entry }
{
    let Changed { config } = changed?;
    Ok(config)
}

// The least TTL of the records that an answer to the question lives by.
fn least_living_ttl(query: &Query, message: &Message) -> Option<u64>
    ensures { result ≡ least_ttl (living_records query.now message.now) }
{
    let asked = query.query_type;
    if asked == RecordType::NS {
        return least_ns_ttl(&message.answers, &message.authorities);
    }
    let living = message.answers.iter().filter(|r| is_of(asked, r));
    living.map(|r| r.ttl as u64).min()
}

// The least TTL of the NS records of two sections.
fn least_ns_ttl(answers: &[Record], authorities: &[Record]) -> Option<u64>
    ensures { result ≡ least_ttl (filter (λ r. record_type_code r == 2) (answers.now ++ authorities.now)) }
{
    let living = answers
        .iter()
        .chain(authorities.iter())
        .filter(|r| is_ns(r));
    living.map(|r| r.ttl as u64).min()
}

fn is_ns(found: &Record) -> bool
    ensures { result ≡ (record_type_code found.now == 2) }
{
    found.record_type() == RecordType::NS
}

// Whether the record is of the type that was asked for, or a CNAME.
fn is_of(asked: RecordType, found: &Record) -> bool
    ensures { result ≡ ((record_type_code found.now == type_code asked)
        || (record_type_code found.now == 5)) }
{
    found.record_type() == asked || found.record_type() == RecordType::CNAME
}

// Whether two maps have the same bounds for each code.
fn have_same_bounds(a: &BTreeMap<u16, TtlBounds>, b: &BTreeMap<u16, TtlBounds>) -> bool
    ensures { result ≡ all_agree a.now.entries b.now.entries }
{
    a.len() == b.len() && a == b
}

impl PartialEq for TtlConfig {
    ghost use Rattle.std.specs.Cmp.{partial_equiv_from_equiv};
    ghost use Rattle.hickory_resolver_model.specs.Bounds.{config_eq, config_equiv};

    ghost eq = { config_eq };

    ghost laws = { partial_equiv_from_equiv config_equiv };

    fn eq(&self, other: &TtlConfig) -> bool {
        self.default == other.default && have_same_bounds(&self.by_type, &other.by_type)
    }
}

impl Eq for TtlConfig {
    ghost use Rattle.hickory_resolver_model.specs.Bounds.{config_equiv};

    ghost laws = { config_equiv };
}
