//! The text that tells what happened: requests, questions, look-ups and errors.
ghost use Rattle.std.specs.Prelude.{◌≡◌, ◌++◌, OnOk, codes, map, string_bytes};
ghost use Rattle.std.specs.List.{flat_map};
ghost use Rattle.hickory_proto_core.specs.Records.{data_of};
ghost use Rattle.hickory_proto_core.specs.Texts.{question_text};
ghost use Rattle.hickory_resolver_lookup.specs.Requests.{request_of};
ghost use Rattle.replay_script.specs.Output.{address_text, addresses_text, asked_text, error_text, line_text};
ghost use Rattle.replay_script.specs.Output.{lookup_text, name_error_text, request_text, result_text};
ghost use Rattle.replay_script.specs.Output.{section_text, sent_text};

use hickory_proto_core::{
    DnsError, Exchange, NameError, NetError, NoRecords, Query, RData, Record, RecordType,
};
use hickory_resolver_lookup::{Lookup, Request};
use std::alloc::AllocError;
use std::fmt;

/// Adds a request as a line of a script has it.
pub fn push_request(text: &mut String, request: &Request) -> Result<(), AllocError>
    ensures { OnOk result (string_bytes text.new
        ≡ string_bytes text.old ++ request_text (request_of request.now)) }
{
    match request {
        Request::Lookup {
            name,
            record_type,
            now,
        } => push_asked(text, "lookup", name.as_str(), *record_type, *now),
        Request::LookupIp { host, now } => write!(text, "at {now} lookup_ip {host}\n"),
        Request::ClearLookup {
            name,
            record_type,
            now,
        } => push_asked(text, "clear_lookup", name.as_str(), *record_type, *now),
        Request::Clear { now } => write!(text, "at {now} clear\n"),
    }
}

fn push_asked(
    text: &mut String,
    verb: &str,
    name: &str,
    record_type: RecordType,
    now: u64,
) -> Result<(), AllocError>
    ensures { OnOk result (string_bytes text.new
        ≡ string_bytes text.old ++ asked_text verb.now name.now record_type now) }
{
    write!(text, "at {now} {verb} {name} {record_type}\n")
}

/// Adds the lines of the questions that were sent.
pub fn push_sent(text: &mut String, exchanges: &[Exchange]) -> Result<(), AllocError>
    ensures { OnOk result (string_bytes text.new
        ≡ string_bytes text.old ++ sent_text (map (λ x. x.query) exchanges.now)) }
{
    for exchange in exchanges {
        push_question(text, &exchange.query)?;
    }
    Ok(())
}

/// Adds the line of a question that was sent.
pub fn push_question(text: &mut String, question: &Query) -> Result<(), AllocError>
    ensures { OnOk result (string_bytes text.new
        ≡ string_bytes text.old ++ line_text (codes "sent") (question_text question.now)) }
{
    write!(text, "  sent {question}\n")
}

/// Adds what a look-up that was requested came to.
pub fn push_result(
    text: &mut String,
    request: &Request,
    found: &Result<Lookup, NetError>,
) -> Result<(), AllocError>
    ensures { OnOk result (string_bytes text.new
        ≡ string_bytes text.old ++ result_text (request_of request.now) found.now) }
{
    match found {
        Ok(lookup) => push_lookup(text, request, lookup),
        Err(error) => push_error(text, error),
    }
}

/// Adds that a clear was done.
pub fn push_cleared(text: &mut String) -> Result<(), AllocError>
    ensures { OnOk result (string_bytes text.new ≡ string_bytes text.old ++ codes "  cleared\n") }
{
    text.push_str("  cleared\n")
}

/// Adds what a look-up that was requested found.
pub fn push_lookup(text: &mut String, request: &Request, lookup: &Lookup) -> Result<(), AllocError>
    ensures { OnOk result (string_bytes text.new
        ≡ string_bytes text.old ++ lookup_text (request_of request.now) lookup.now) }
{
    let question = lookup.query();
    let deadline = lookup.valid_until();
    write!(text, "  ok {question} until {deadline}\n")?;
    push_addresses(text, request, lookup.answers())?;
    push_records(text, "answer", lookup.answers())?;
    push_records(text, "authority", lookup.authorities())?;
    push_records(text, "additional", lookup.additionals())
}

// The addresses among the answers, where those were asked for.
fn push_addresses(
    text: &mut String,
    request: &Request,
    answers: &[Record],
) -> Result<(), AllocError>
    ensures { OnOk result (string_bytes text.new
        ≡ string_bytes text.old ++ addresses_text (request_of request.now) answers.now) }
{
    match request {
        Request::LookupIp { .. } => push_each_address(text, answers),
        _ => Ok(()),
    }
}

fn push_each_address(text: &mut String, answers: &[Record]) -> Result<(), AllocError>
    ensures { OnOk result (string_bytes text.new
        ≡ string_bytes text.old ++ flat_map (λ r. address_text r.rdata) answers.now) }
{
    for found in answers {
        push_address(text, &found.rdata)?;
    }
    Ok(())
}

fn push_address(text: &mut String, rdata: &RData) -> Result<(), AllocError>
    ensures { OnOk result (string_bytes text.new
        ≡ string_bytes text.old ++ address_text (data_of rdata.now)) }
{
    match rdata {
        RData::A(address) => write!(text, "  address {address}\n"),
        RData::AAAA(address) => write!(text, "  address {address}\n"),
        _ => Ok(()),
    }
}

fn push_records(text: &mut String, section: &str, records: &[Record]) -> Result<(), AllocError>
    ensures { OnOk result (string_bytes text.new
        ≡ string_bytes text.old ++ section_text section.now records.now) }
{
    for found in records {
        write!(text, "  {section} {found}\n")?;
    }
    Ok(())
}

/// Adds what went wrong.
pub fn push_error(text: &mut String, error: &NetError) -> Result<(), AllocError>
    ensures { OnOk result (string_bytes text.new
        ≡ string_bytes text.old ++ line_text (codes "err") (error_text error.now)) }
{
    let shown = ShownError(error);
    write!(text, "  err {shown}\n")
}

/// What an error is called.
#[derive(Clone, Copy)]
pub struct ShownError<'a>(pub &'a NetError);

impl fmt::Display for ShownError<'_> {
    ghost use Rattle.std.specs.Prelude.{Some};
    ghost use Rattle.replay_script.specs.Output.{error_text};

    ghost output = { λ x. Some (error_text x.0.now) };

    fn fmt<W: fmt::Write>(&self, f: &mut fmt::Formatter<W>) -> fmt::Result {
        match self.0 {
            NetError::Message(text) => write!(f, "message {text}"),
            NetError::Timeout => f.write_str("timeout"),
            NetError::Proto(error) => {
                let code = name_error_code(*error);
                write!(f, "name {code}")
            }
            NetError::Dns(DnsError::ResponseCode(code)) => write!(f, "code {code}"),
            NetError::Dns(DnsError::NoRecordsFound(none)) => {
                let shown = ShownNoRecords(none);
                write!(f, "{shown}")
            }
            NetError::NoOutcome => f.write_str("nooutcome"),
            NetError::Bounds(_) => f.write_str("bounds"),
            NetError::OutOfMemory => f.write_str("memory"),
        }
    }
}

/// norecords CODE TTL NAME CLASS TYPE
#[derive(Clone, Copy)]
pub struct ShownNoRecords<'a>(pub &'a NoRecords);

impl fmt::Display for ShownNoRecords<'_> {
    ghost use Rattle.std.specs.Prelude.{Some};
    ghost use Rattle.replay_script.specs.Output.{no_records_text};

    ghost output = { λ x. Some (no_records_text x.0.now) };

    fn fmt<W: fmt::Write>(&self, f: &mut fmt::Formatter<W>) -> fmt::Result {
        let none = self.0;
        let code = none.response_code;
        let ttl = ShownTtl(none.negative_ttl);
        let question = &none.query;
        write!(f, "norecords {code} {ttl} {question}")
    }
}

/// Seconds, or `-` where they are not known.
#[derive(Clone, Copy)]
pub struct ShownTtl(pub Option<u32>);

impl fmt::Display for ShownTtl {
    ghost use Rattle.std.specs.Prelude.{Some};
    ghost use Rattle.replay_script.specs.Output.{ttl_text};

    ghost output = { λ x. Some (ttl_text x.0) };

    fn fmt<W: fmt::Write>(&self, f: &mut fmt::Formatter<W>) -> fmt::Result {
        match self.0 {
            Some(seconds) => write!(f, "{seconds}"),
            None => f.write_str("-"),
        }
    }
}

// The name of a fault of a name.
fn name_error_code(error: NameError) -> &'static str
    ensures { result.now ≡ name_error_text error }
{
    match error {
        NameError::EmptyLabel => "N1",
        NameError::LabelTooLong => "N2",
        NameError::NameTooLong => "N3",
        NameError::BadCharacter => "N4",
        NameError::BadEscape => "N5",
        NameError::NotArpa => "N6",
        NameError::OutOfMemory => "N7",
    }
}
