//! Scripts: what an upstream answers, and what is asked of the resolver.
ghost use Rattle.std.specs.Prelude.{◌≡◌, ◌⊎◌, ◌≤◌, ◌<◌, ◌++◌, ◌∷◌, List, [], map, None, Some, IfOk, IfErr, OnOk, IsOkUnless, Ok, IsErr};
ghost use Rattle.hickory_resolver_lookup.specs.Requests.{request_of};
ghost use Rattle.hickory_resolver_model.specs.Run.{moment_of};
ghost use Rattle.replay_script.specs.ReplyLine.{opened_response};
ghost use Rattle.replay_script.specs.declared.line.Line.{Line};
ghost use Rattle.replay_script.specs.Configuration.{configured, with_setting};
ghost use Rattle.replay_script.specs.Reader.{IsAnswered, IsFinished, IsTaken, Keeps, failure_outcome, finished, opened};
ghost use Rattle.replay_script.specs.Script.{IsScript};

use crate::configuration::Configuration;
use crate::fail_line::Failure;
use crate::fault::{ScriptError, ScriptFault};
use crate::fields::ScriptLines;
use crate::line::{Line, read_line};
use crate::record_line::Section;
use crate::reply_line::ReplyHead;
use crate::setting::Setting;
use hickory_proto_core::dns_handle::Outcome;
use hickory_proto_core::{DnsResponse, Message, Name, NetError, OpCode, Query, Record};
use hickory_resolver_config::ResolverOpts;
use hickory_resolver_lookup::Request;
use std::alloc::Global;
use std::marker::Model;

/// What a script says: what the upstream answers, each beside the question of its line; the requests, in
/// order; and the options, the domain and the search list of the resolver.
#[derive(Drop)]
pub struct Script {
    /// Whether the upstream looks each question up among the outcomes, of which the last of equal questions
    /// counts; else they come in order, whatever is asked.
    pub table: bool,
    pub outcomes: Vec<(Query, Outcome)>,
    pub requests: Vec<Request>,
    /// The options, with the defaults where no line sets them.
    pub options: ResolverOpts,
    pub domain: Option<Name>,
    pub search: Vec<Name>,
}

impl Model for Script {
    ghost use Rattle.std.specs.Prelude.{map};
    ghost use Rattle.hickory_resolver_lookup.specs.Requests.{request_of};
    ghost use Rattle.replay_script.specs.Script.{ScriptValue};

    ghost Value = { ScriptValue };

    ghost view = { λ s. record {
      table = s.table;
      outcomes = s.outcomes.items;
      requests = map request_of s.requests.items;
      options = s.options;
      domain = s.domain;
      search = s.search.items;
    } };
}

/// Reads a script, or finds the first line with a fault. Where no line has one, bounds on times to live
/// whose least is above their greatest are refused.
pub fn read_script(alloc: Global, script: &[u8]) -> Result<Script, ScriptError>
    ensures { IsScript script.now result }
{
    let mut reader = Reader::new(alloc);
    let mut number = 0;
    for line in ScriptLines::new(script) {
        number += 1;
        match reader.read(line) {
            Ok(()) => {}
            Err(ScriptFault::OutOfMemory) => return Err(ScriptError::out_of_memory()),
            Err(fault) => {
                return Err(ScriptError {
                    line: number,
                    fault,
                });
            }
        }
    }
    match reader.finish() {
        Ok(script) => Ok(script),
        Err(fault) => Err(ScriptError { line: 0, fault }),
    }
}

/// A reply that may still get records.
#[derive(Drop)]
pub struct OpenReply {
    /// The question of its first line.
    pub query: Query,
    pub message: Message,
}

impl OpenReply {
    ghost use Rattle.replay_script.specs.Reader.{answered};
    ghost use Rattle.replay_script.specs.ReplyLine.{opened_response};

    /// The reply that a line opens, with no records.
    pub fn open(alloc: Global, head: ReplyHead) -> Result<OpenReply, ScriptFault>
        ensures ok { IfOk result (λ r. r ≡ record { query = head.query; message = opened_response head }) }
        ensures err { IsOkUnless result ScriptFault.OutOfMemory }
    {
        let message = response_of(alloc, &head)?;
        Ok(OpenReply {
            query: head.query,
            message,
        })
    }

    /// One more record at the end of a section.
    pub fn add(&mut self, section: Section, found: Record) -> Result<(), ScriptFault>
        ensures ok { OnOk result (self.new ≡ answered section found self.old) }
        ensures err { IsOkUnless result ScriptFault.OutOfMemory }
    {
        memory_only(match section {
            Section::Answer => self.message.add_answer(found),
            Section::Authority => self.message.add_authority(found),
            Section::Additional => self.message.add_additional(found),
        })
    }
}

// What the lines so far said.
#[derive(Drop)]
struct Reader {
    alloc: Global,
    closed: Vec<(Query, Outcome)>,
    open_reply: Option<OpenReply>,
    requests: Vec<Request>,
    latest: u64,
    configuration: Configuration,
}

impl Model for Reader {
    ghost use Rattle.std.specs.Prelude.{map};
    ghost use Rattle.hickory_resolver_lookup.specs.Requests.{request_of};
    ghost use Rattle.replay_script.specs.Reader.{ReaderValue};

    ghost Value = { ReaderValue };

    ghost view = { λ r. record {
      closed = r.closed.items;
      open_reply = r.open_reply;
      requests = map request_of r.requests.items;
      latest = r.latest;
      configuration = r.configuration;
    } };
}

impl Reader {
    fn new(alloc: Global) -> Reader
        ensures { result ≡ record {
          closed = [];
          open_reply = None;
          requests = [];
          latest = 0;
          configuration = configured [];
        } }
    {
        Reader {
            alloc,
            closed: Vec::new(alloc),
            open_reply: None,
            requests: Vec::new(alloc),
            latest: 0,
            configuration: Configuration::default(alloc),
        }
    }

    // Reads a line, and keeps what it says.
    fn read(&mut self, line: &[u8]) -> Result<(), ScriptFault>
        ensures { (said : List Line) → Keeps self.old said → IsTaken said line.now result self.new }
    {
        let line = read_line(self.alloc, self.open_reply.is_some(), line)?;
        match line {
            Line::Blank => Ok(()),
            Line::Reply(head) => self.add_reply(head),
            Line::Fail(failure) => self.add_failure(failure),
            Line::Record(section, found) => self.add_record(section, found),
            Line::Request(request) => self.add_request(request),
            Line::Configuration(setting) => self.add_setting(setting),
        }
    }

    fn add_reply(&mut self, head: ReplyHead) -> Result<(), ScriptFault>
        ensures ok { OnOk result (self.new
            ≡ record self.old {
              closed = self.old.closed ++ opened self.old.open_reply;
              open_reply = Some (record { query = head.query; message = opened_response head });
            }) }
        ensures err { IsOkUnless result ScriptFault.OutOfMemory }
    {
        let reply = OpenReply::open(self.alloc, head)?;
        self.close()?;
        self.open_reply = Some(reply);
        Ok(())
    }

    // No record can belong to a failure.
    fn add_failure(&mut self, failure: Failure) -> Result<(), ScriptFault>
        ensures ok { OnOk result (self.new
            ≡ record self.old {
              closed = self.old.closed ++ opened self.old.open_reply ++ failure_outcome failure ∷ [];
              open_reply = None;
            }) }
        ensures err { IsOkUnless result ScriptFault.OutOfMemory }
    {
        self.close()?;
        let outcome = Err(failure.kind.error());
        self.closed.push((failure.query, outcome))?;
        Ok(())
    }

    fn add_record(&mut self, section: Section, found: Record) -> Result<(), ScriptFault>
        ensures { IsAnswered self.old section found result self.new }
    {
        let Some(reply) = &mut self.open_reply else {
            return Err(ScriptFault::NoReply);
        };
        reply.add(section, found)
    }

    fn add_request(&mut self, request: Request) -> Result<(), ScriptFault>
        ensures ok { OnOk result (self.new
            ≡ record self.old {
              requests = self.old.requests ++ request_of request ∷ [];
              latest = moment_of (request_of request);
            }) }
        ensures in_order { OnOk result (self.old.latest ≤ moment_of (request_of request)) }
        ensures err { IfErr result
            (λ fault. (fault ≡ ScriptFault.OutOfMemory)
            ⊎ ((fault ≡ ScriptFault.MomentBack) × (moment_of (request_of request) < self.old.latest))) }
    {
        let now = request.moment();
        if now < self.latest {
            return Err(ScriptFault::MomentBack);
        }
        self.requests.push(request)?;
        self.latest = now;
        Ok(())
    }

    fn add_setting(&mut self, setting: Setting) -> Result<(), ScriptFault>
        ensures ok { OnOk result (self.new
            ≡ record self.old { configuration = with_setting setting self.old.configuration }) }
        ensures err { IsOkUnless result ScriptFault.OutOfMemory }
    {
        self.configuration.set(setting)
    }

    // The open reply is one more outcome.
    fn close(&mut self) -> Result<(), ScriptFault>
        ensures ok { OnOk result (self.new
            ≡ record self.old { closed = self.old.closed ++ opened self.old.open_reply; open_reply = None }) }
        ensures err { IsOkUnless result ScriptFault.OutOfMemory }
    {
        match self.open_reply.take() {
            None => Ok(()),
            Some(OpenReply { query, message }) => {
                let outcome = Ok(DnsResponse::from_message(message));
                self.closed.push((query, outcome))?;
                Ok(())
            }
        }
    }

    fn finish(self) -> Result<Script, ScriptFault>
        ensures { IsFinished self result }
    {
        let mut reader = self;
        reader.configuration.check_bounds(reader.alloc)?;
        reader.close()?;
        Ok(reader.into_script())
    }

    // What is kept, without the open reply.
    fn into_script(self) -> Script
        ensures { result ≡ finished self.closed self }
    {
        let Configuration {
            options,
            domain,
            search,
            table,
        } = self.configuration;
        Script {
            table,
            outcomes: self.closed,
            requests: self.requests,
            options,
            domain,
            search,
        }
    }
}

// The response as it is opened, with no records.
fn response_of(alloc: Global, head: &ReplyHead) -> Result<Message, ScriptFault>
    ensures ok { IfOk result (λ m. m ≡ opened_response head.now) }
    ensures err { IsOkUnless result ScriptFault.OutOfMemory }
{
    let mut message = Message::response(alloc, 0, OpCode::Query);
    message.metadata.response_code = head.code;
    message.metadata.truncation = head.truncated;
    if !head.without_question {
        let question = memory_only(head.query.clone())?;
        memory_only(message.add_query(question))?;
    }
    Ok(message)
}

// What fails only where memory runs out.
fn memory_only<T: Drop>(made: Result<T, NetError>) -> Result<T, ScriptFault>
    ensures ok { IfOk result (λ value. made ≡ Ok value) }
    ensures err { IfErr result (λ fault. (fault ≡ ScriptFault.OutOfMemory) × IsErr made) }
{
    match made {
        Ok(value) => Ok(value),
        Err(_) => Err(ScriptFault::OutOfMemory),
    }
}
