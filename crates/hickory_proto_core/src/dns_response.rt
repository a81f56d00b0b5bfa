//! What an upstream answers, and its class.
ghost use Rattle.std.specs.Prelude.{◌≡◌, ◌++◌, ◌∷◌, ◌||◌, [], OnOk, filter, option_copied, IfOk, IsOkUnless};
ghost use Rattle.std.specs.List.{list_any, filter_map};
ghost use Rattle.std.specs.Option.{option_to_list, unwrap_or};
ghost use Rattle.hickory_proto_names.specs.Name.{NameValue};
ghost use Rattle.hickory_proto_core.specs.Glue.{forward_from, glue_in};
ghost use Rattle.hickory_proto_core.specs.Errors.{items_or_none};
ghost use Rattle.hickory_proto_core.specs.Messages.{MessageValue};
ghost use Rattle.hickory_proto_core.specs.ResponseKind.{contains_answer, answers_question, is_asked, first_soa, negative_ttl_of, forward_of, or_none, is_address_of, is_of_type, negative_of, kind_of_response, IsClassified};

use crate::glue::Glue;
use crate::message::Message;
use crate::net_error::{DnsError, ForwardNSData, NetError, NoRecords};
use crate::query::Query;
use crate::resource::Record;
use hickory_proto_codes::{RecordType, ResponseCode};
use hickory_proto_names::Name;
use std::alloc::{AllocError, Global};
use std::collections::BTreeMap;
use std::marker::Model;

/// A message that came back from an upstream.
#[derive(Debug, Drop)]
pub struct DnsResponse {
    message: Message,
}

impl Model for DnsResponse {
    ghost use Rattle.hickory_proto_core.specs.Messages.{MessageValue};

    ghost Value = { MessageValue };

    ghost view = { λ r. r.message };
}

impl DnsResponse {
    /// The response that this message is.
    pub fn from_message(message: Message) -> DnsResponse
        ensures { result ≡ message }
    {
        DnsResponse { message }
    }

    /// The message.
    pub fn into_message(self) -> Message
        ensures { result ≡ self }
    {
        self.message
    }

    /// The message.
    pub fn message(&self) -> &Message
        ensures { result.now ≡ self.now }
    {
        &self.message
    }

    /// Whether the response answers one of its own questions.
    pub fn contains_answer(&self) -> bool
        ensures { result ≡ contains_answer self.now }
    {
        let message = &self.message;
        message.queries.iter().any(|query| answers(query, message))
    }

    /// The first SOA record of the authorities.
    pub fn soa(&self) -> Option<&Record>
        ensures { option_copied result ≡ first_soa self.now.authorities }
    {
        let authorities = &self.message.authorities;
        authorities
            .iter()
            .find(|found| found.rdata.soa_minimum().is_some())
    }

    /// For how many seconds the response may be kept as a negative answer: the lesser of the time to live of
    /// its SOA record and of that record's minimum (RFC 2308, section 5).
    pub fn negative_ttl(&self) -> Option<u32>
        ensures { result ≡ negative_ttl_of self.now }
    {
        let soa = self.soa()?;
        let minimum = soa.rdata.soa_minimum()?;
        Some(soa.ttl.min(minimum))
    }

    /// A copy of every field.
    pub fn clone(&self) -> Result<DnsResponse, NetError>
        ensures ok { IfOk result (λ r. r ≡ self.now) }
        ensures err { IsOkUnless result NetError.OutOfMemory }
    {
        Ok(Clone::clone(self)?)
    }
}

/// A copy equals its source.
impl Clone for DnsResponse {
    ghost use Rattle.std.specs.Prelude.{◌≡◌};

    ghost is_clone = { λ response copy. copy ≡ response };

    fn clone(&self) -> Result<DnsResponse, AllocError> {
        Ok(DnsResponse {
            message: Clone::clone(&self.message)?,
        })
    }
}

impl DnsError {
    /// The response itself where it is an answer, else the error that it stands for (RFC 2308, sections 2 and
    /// 3): a response code other than NOERROR and NXDOMAIN, or that there are no records. Only the latter may
    /// find no memory.
    pub fn from_response(response: DnsResponse) -> Result<DnsResponse, NetError>
        ensures { IsClassified (kind_of_response response) result }
    {
        let metadata = response.message.metadata;
        let code = metadata.response_code;
        if code != ResponseCode::NoError && code != ResponseCode::NXDomain {
            return Err(NetError::Dns(DnsError::ResponseCode(code)));
        }
        if metadata.truncation || response.contains_answer() {
            return Ok(response);
        }
        Err(NetError::from(no_records(response)?))
    }
}

// Whether the message answers the question.
fn answers(query: &Query, message: &Message) -> bool
    ensures { result ≡ answers_question query.now message.now }
{
    any_asked(query, &message.answers)
        || any_asked(query, &message.authorities)
        || any_asked(query, &message.additionals)
        || (query.query_type != RecordType::ANY
            && query.query_type != RecordType::SOA
            && !message.answers.is_empty())
}

fn any_asked(query: &Query, records: &[Record]) -> bool
    ensures { result ≡ list_any (is_asked query.now) records.now }
{
    records.iter().any(|found| is_asked_record(query, found))
}

// Whether the record is one that the question asks for.
fn is_asked_record(query: &Query, found: &Record) -> bool
    ensures { result ≡ is_asked query.now found.now }
{
    if query.query_type == RecordType::ANY {
        return query.name == found.name;
    }
    if query.query_type == RecordType::SOA {
        return found.record_type() == RecordType::SOA && found.name.zone_of(&query.name);
    }
    query.query_type == found.record_type() && query.name == found.name
}

// The negative answer that the response is.
fn no_records(response: DnsResponse) -> Result<NoRecords, NetError>
    ensures ok { IfOk result (λ n. n ≡ negative_of response) }
    ensures err { IsOkUnless result NetError.OutOfMemory }
{
    let negative_ttl = response.negative_ttl();
    let soa = match response.soa() {
        Some(soa) => Some(soa.clone()?),
        None => None,
    };
    let Message {
        metadata,
        queries,
        answers: _,
        authorities,
        additionals,
    } = response.into_message();
    let ns = name_servers(&authorities, &additionals)?;
    let alloc = *queries.allocator();
    let query = match queries.into_iter().next() {
        Some(query) => query,
        None => Query::new(alloc),
    };
    Ok(NoRecords {
        query,
        soa,
        ns,
        negative_ttl,
        response_code: metadata.response_code,
        authorities: section_or_none(authorities),
    })
}

// The records, where there are some.
fn section_or_none(records: Vec<Record>) -> Option<Vec<Record>>
    ensures { items_or_none result ≡ or_none records.items }
{
    if records.is_empty() {
        None
    } else {
        Some(records)
    }
}

// The name servers that the authorities name, each with its addresses among the additionals.
fn name_servers(
    authorities: &Vec<Record>,
    additionals: &[Record],
) -> Result<Option<Vec<ForwardNSData>>, NetError>
    ensures ok { IfOk result
        (λ found. items_or_none found
        ≡ or_none (filter_map (forward_of additionals.now) authorities.now.items)) }
    ensures err { IsOkUnless result NetError.OutOfMemory }
{
    let alloc = *authorities.allocator();
    let by_owner = addresses_by_owner(alloc, additionals)?;
    let found = forwards(authorities, &by_owner)?;
    Ok(if found.is_empty() { None } else { Some(found) })
}

// The addresses among the records, by their owners. The map is an ordered one, so that no choice of names makes it
// slow.
fn addresses_by_owner(
    alloc: Global,
    additionals: &[Record],
) -> Result<BTreeMap<Name, Glue>, NetError>
    ensures ok { IfOk result (λ by_owner. (q : NameValue) →
        glue_in q by_owner ≡ filter (is_address_of q) additionals.now) }
    ensures err { IsOkUnless result NetError.OutOfMemory }
{
    let mut by_owner = BTreeMap::new(alloc);
    for additional in additionals {
        add_if_address(alloc, &mut by_owner, additional)?;
    }
    Ok(by_owner)
}

// Puts a copy of the record to those of its owner, if it is an address.
fn add_if_address(
    alloc: Global,
    by_owner: &mut BTreeMap<Name, Glue>,
    found: &Record,
) -> Result<(), NetError>
    ensures ok { OnOk result ((q : NameValue) →
        glue_in q by_owner.new ≡ glue_in q by_owner.old ++ filter (is_address_of q) (found.now ∷ [])) }
    ensures err { IsOkUnless result NetError.OutOfMemory }
{
    if !is_address(found) {
        return Ok(());
    }
    let owner = Clone::clone(&found.name)?;
    let glue = joined(alloc, by_owner.remove(&owner), found.clone()?)?;
    by_owner.insert(owner, glue)?;
    Ok(())
}

fn is_address(found: &Record) -> bool
    ensures { result ≡ is_of_type RecordType.A found.now || is_of_type RecordType.AAAA found.now }
{
    let record_type = found.record_type();
    record_type == RecordType::A || record_type == RecordType::AAAA
}

// The records and one more.
fn joined(alloc: Global, glue: Option<Glue>, added: Record) -> Result<Glue, NetError>
    ensures ok { IfOk result (λ all. all ≡ unwrap_or glue [] ++ added ∷ []) }
    ensures err { IsOkUnless result NetError.OutOfMemory }
{
    match glue {
        Some(glue) => glue.with(added),
        None => Glue::new(Vec::new(alloc))?.with(added),
    }
}

// The name servers that the records name, each with the addresses that the map has for it.
fn forwards(
    authorities: &Vec<Record>,
    by_owner: &BTreeMap<Name, Glue>,
) -> Result<Vec<ForwardNSData>, NetError>
    ensures ok { IfOk result
        (λ found. found.items ≡ filter_map (forward_from by_owner.now) authorities.now.items) }
    ensures err { IsOkUnless result NetError.OutOfMemory }
{
    let alloc = *authorities.allocator();
    let none = Glue::new(Vec::new(alloc))?;
    let mut found = Vec::new(alloc);
    for authority in authorities {
        let named = forward(authority, by_owner, &none)?;
        push_some(&mut found, named)?;
    }
    Ok(found)
}

fn push_some(found: &mut Vec<ForwardNSData>, named: Option<ForwardNSData>) -> Result<(), NetError>
    ensures ok { OnOk result (found.new.items ≡ found.old.items ++ option_to_list named) }
    ensures err { IsOkUnless result NetError.OutOfMemory }
{
    if let Some(server) = named {
        found.push(server)?;
    }
    Ok(())
}

// The server that the record names, with its addresses.
fn forward(
    authority: &Record,
    by_owner: &BTreeMap<Name, Glue>,
    none: &Glue,
) -> Result<Option<ForwardNSData>, NetError>
    requires none { none.now ≡ [] }
    ensures ok { IfOk result (λ named. named ≡ forward_from by_owner.now authority.now) }
    ensures err { IsOkUnless result NetError.OutOfMemory }
{
    let Some(server) = authority.rdata.ns_target() else {
        return Ok(None);
    };
    let glue = glue_of(server, by_owner, none).clone()?;
    let ns = authority.clone()?;
    Ok(Some(ForwardNSData { ns, glue }))
}

// The addresses of a name server.
fn glue_of<'a>(server: &Name, by_owner: &'a BTreeMap<Name, Glue>, none: &'a Glue) -> &'a Glue
    requires none { none.now ≡ [] }
    ensures { result.now ≡ glue_in server.now by_owner.now }
{
    match by_owner.get(server) {
        Some(glue) => glue,
        None => none,
    }
}
