//! What stands between two lines, and what a line does with it.
ghost use Rattle.std.specs.Prelude.{◌≡◌, ◌&&◌, ◌++◌, false, [], Err, IfOk, Ok, OnErr, OnOk, string_bytes};
ghost use Rattle.std.specs.Option.{is_some, option_map};
ghost use Rattle.hickory_resolver.specs.Requests.{request_of};
ghost use Rattle.replay_script.specs.Configuration.{with_setting};
ghost use Rattle.replay_script.specs.FailLine.{error_of};
ghost use Rattle.replay_script.specs.Words.{texts};
ghost use Rattle.conversation.specs.Answers.{BeginsRequest, Fails, FeedsReply, Takes, AnswersLine, adds, cancelled, opens, sets};
ghost use Rattle.conversation.specs.Hearing.{IsBegunOut, IsHeard, IsOutcomeOf, silent};
ghost use Rattle.conversation.specs.Lines.{mark_of};
ghost use Rattle.conversation.specs.Faults.{of_line};
ghost use Rattle.conversation.specs.Said as said;
ghost use Rattle.conversation.specs.Said.{said_by, said_value};
ghost use Rattle.conversation.specs.State.{begun_of, conversation_of, request_at, requests_of};
ghost use Rattle.conversation.specs.Telling.{HasReply, IsActedUpon, IsAnswered, IsFailureOf, IsFed, IsForRequest, IsOpening, IsRefused, IsServing, IsSettingTold, no_outcome, nothing_left, phase_by, set_so};

use crate::fault::{ConversationFault, Refusal};
use crate::files::{FileKind, Files};
use crate::heard::Heard;
use crate::in_flight::{Begun, InFlight, outcome_of};
use crate::opening::{Opened, open};
use crate::reading::{mark_in, mark_of, read_request, read_script_line};
use crate::requests::{add_record, begin, forget, go_on, open_reply, take};
use crate::said::Said;
use crate::writing::{push_fields, told_cancel, told_fault, told_last, told_nothing, told_setting};
use hickory_proto_core::{Outcome, Record, ScriptHandle};
use hickory_resolver::{Request, Resolver, WaitingCall};
use replay_script::{
    Configuration, FailureKind, Line, OpenReply, ReplyHead, ScriptFault, Section, Setting,
    is_skipped, read_text, split,
};
use std::alloc::{AllocError, Global};
use std::collections::HashMap;

/// What is set before the first request; then the resolver, and the requests in flight.
#[derive(Drop)]
pub struct State {
    pub alloc: Global,
    /// How many lines were heard.
    pub lines: u64,
    pub configuration: Configuration,
    pub files: Files,
    pub resolver: Option<Resolver<ScriptHandle>>,
    pub requests: HashMap<String, InFlight>,
}

impl State {
    /// Nothing was said.
    pub fn new(alloc: Global, hosts: Vec<u8>) -> State
        ensures { conversation_of result ≡ silent hosts.items }
    {
        State {
            alloc,
            lines: 0,
            configuration: Configuration::default(alloc),
            files: Files::new(hosts),
            resolver: None,
            requests: HashMap::new(alloc),
        }
    }

    /// Hears a line.
    pub fn hear(&mut self, line: &[u8]) -> Result<Heard, AllocError>
        ensures { IsHeard (conversation_of self.old) line.now result (conversation_of self.new) }
    {
        self.lines = self.lines.saturating_add(1);
        match self.answer(line) {
            Ok(heard) => Ok(heard),
            Err(AllocError) => {
                forget(&mut self.requests, mark_of(line));
                Err(AllocError)
            }
        }
    }

    // Answers a line.
    fn answer(&mut self, line: &[u8]) -> Result<Heard, AllocError>
        ensures { IsActedUpon (conversation_of self.old) (mark_of line.now) (said_by line.now) result
            (conversation_of self.new) }
    {
        if is_skipped(line) {
            return Ok(told_nothing(self.alloc));
        }
        match read_text(line) {
            Ok(text) => {
                let fields = split(self.alloc, text)?;
                self.act(mark_in(&fields), Said::of(&fields))
            }
            Err(error) => self.refuse("-", &Refusal::from(error)),
        }
    }

    // Does what a line of this mark says.
    fn act(&mut self, mark: &str, said: Said<'_>) -> Result<Heard, AllocError>
        ensures { IsActedUpon (conversation_of self.old) mark.now (said_value said.entry) result
            (conversation_of self.new) }
    {
        match said {
            Said::Nothing => Ok(told_nothing(self.alloc)),
            Said::End => Ok(told_last(self.alloc)),
            Said::File { kind, fields } => self.add_file_line(mark, kind, fields),
            Said::Setting(fields) => self.add_setting(mark, fields),
            Said::Request { explains, fields } => self.begin(mark, explains, fields),
            Said::Outcome { begins, fields } => self.add_line(mark, begins, fields),
            Said::Done(behind) => self.end_reply(mark, behind),
            Said::Cancel(behind) => self.cancel(mark, behind),
            Said::Refused(refusal) => self.refuse(mark, &refusal),
        }
    }

    // A fault of a line is told; where that is one of memory, memory ran out.
    fn refuse(&self, mark: &str, refusal: &Refusal<'_>) -> Result<Heard, AllocError>
        ensures { IsRefused (conversation_of self.now) mark.now refusal.now result }
    {
        if refusal.fault.is_memory() {
            return Err(AllocError);
        }
        told_fault(self.alloc, mark, self.lines, refusal)
    }

    // A fault of no single field is told.
    fn refuse_line(&self, mark: &str, fault: ConversationFault) -> Result<Heard, AllocError>
        ensures { IsRefused (conversation_of self.now) mark.now (of_line fault) result }
    {
        self.refuse(mark, &Refusal::of_line(fault))
    }

    // A line of a file.
    fn add_file_line(
        &mut self,
        mark: &str,
        kind: FileKind,
        fields: &[&str],
    ) -> Result<Heard, AllocError>
        ensures { IsActedUpon (conversation_of self.old) mark.now (said.File kind (texts fields.now)) result
            (conversation_of self.new) }
    {
        if self.resolver.is_some() {
            return self.refuse_line(mark, ConversationFault::SettingAfterRequest);
        }
        let mut line = String::from_str(self.alloc, "\n")?;
        push_fields(&mut line, fields)?;
        self.files.add(kind, line.as_bytes())?;
        Ok(told_nothing(self.alloc))
    }

    // A setting.
    fn add_setting(&mut self, mark: &str, fields: &[&str]) -> Result<Heard, AllocError>
        ensures { IsActedUpon (conversation_of self.old) mark.now (said.Setting (texts fields.now)) result
            (conversation_of self.new) }
    {
        if self.resolver.is_some() {
            return self.refuse_line(mark, ConversationFault::SettingAfterRequest);
        }
        match read_script_line(self.alloc, false, fields) {
            Ok(line) => self.take_setting(mark, line, fields),
            Err(refusal) => self.refuse(mark, &refusal),
        }
    }

    // What a line of a setting says is kept.
    fn take_setting(&mut self, mark: &str, line: Line, fields: &[&str]) -> Result<Heard, AllocError>
        requires { is_some self.old.resolver ≡ false }
        ensures { let before = conversation_of self.old in IsAnswered before mark.now
            (λ answer. answer ≡ sets before mark.now self.old.configuration self.old.files (texts fields.now)
            (Ok line))
            nothing_left result (conversation_of self.new) }
    {
        match line {
            Line::Configuration(setting) => self.set(fields, setting),
            _ => self.refuse(mark, &Refusal::unknown(fields)),
        }
    }

    // Keeps a setting that these fields say.
    fn set(&mut self, fields: &[&str], setting: Setting) -> Result<Heard, AllocError>
        requires { is_some self.old.resolver ≡ false }
        ensures told { IfOk result (IsSettingTold (texts fields.now)) }
        ensures set { OnOk result (conversation_of self.new ≡ set_so (conversation_of self.old)
            (with_setting setting self.old.configuration) self.old.files) }
        ensures unchanged { OnErr result (conversation_of self.new ≡ conversation_of self.old) }
    {
        let heard = told_setting(self.alloc, fields)?;
        match self.configuration.set(setting) {
            Ok(()) => Ok(heard),
            Err(_) => Err(AllocError),
        }
    }

    // A request begins, unless its mark is in use.
    fn begin(&mut self, mark: &str, explains: bool, fields: &[&str]) -> Result<Heard, AllocError>
        ensures { IsActedUpon (conversation_of self.old) mark.now (said.Request explains (texts fields.now)) result
            (conversation_of self.new) }
    {
        if self.requests.contains_key(mark) {
            return self.refuse_line(mark, ConversationFault::MarkInUse);
        }
        match read_request(self.alloc, fields) {
            Ok(request) => self.begin_request(mark, explains, request),
            Err(refusal) => self.refuse(mark, &refusal),
        }
    }

    // A request begins. At the first one the resolver is made.
    fn begin_request(
        &mut self,
        mark: &str,
        explains: bool,
        request: Request,
    ) -> Result<Heard, AllocError>
        ensures { let before = conversation_of self.old in IsAnswered before mark.now
            (BeginsRequest before mark.now explains (request_of request))
            (IsBegunOut before.phase (request_of request))
            result (conversation_of self.new) }
    {
        match self.open(request.moment()) {
            Ok(told) => self.serve_telling(mark, explains, request, told),
            Err(fault) => self.refuse_line(mark, fault),
        }
    }

    // At the first request, of this moment (seconds), the resolver is made. Gives what the journal gets of a file.
    fn open(&mut self, now: u64) -> Result<String, ConversationFault>
        ensures { IsOpening (conversation_of self.old) now result (conversation_of self.new) }
    {
        if self.resolver.is_some() {
            return Ok(String::new(self.alloc));
        }
        match open(self.alloc, &self.configuration, &self.files, now) {
            Ok(opened) => Ok(self.serve_by(opened)),
            Err(fault) => Err(fault),
        }
    }

    // This resolver is there from now on.
    fn serve_by(&mut self, opened: Opened) -> String
        ensures told { result ≡ opened.told }
        ensures serves { conversation_of self.new
            ≡ record (conversation_of self.old) { phase = phase_by opened.resolver } }
    {
        let Opened { resolver, told } = opened;
        self.configuration = Configuration::default(self.alloc);
        self.files = Files::new(Vec::new(self.alloc));
        self.resolver = Some(resolver);
        told
    }

    // A request begins over the resolver that is there, and the journal gets this first.
    fn serve_telling(
        &mut self,
        mark: &str,
        explains: bool,
        request: Request,
        told: String,
    ) -> Result<Heard, AllocError>
        ensures { IsServing (conversation_of self.old) mark.now explains (request_of request) (string_bytes told)
            result (conversation_of self.new) }
    {
        match self.serve(mark, explains, request) {
            Ok(heard) => telling(told, heard),
            Err(AllocError) => Err(AllocError),
        }
    }

    // A request begins over the resolver that is there.
    fn serve(&mut self, mark: &str, explains: bool, request: Request) -> Result<Heard, AllocError>
        ensures { IsServing (conversation_of self.old) mark.now explains (request_of request) [] result
            (conversation_of self.new) }
    {
        let Some(resolver) = &mut self.resolver else {
            return Err(AllocError);
        };
        begin(
            self.alloc,
            resolver,
            &mut self.requests,
            mark,
            request,
            explains,
        )
    }

    // The request is forgotten.
    fn cancel(&mut self, mark: &str, behind: &[&str]) -> Result<Heard, AllocError>
        ensures { IsActedUpon (conversation_of self.old) mark.now (said.Cancel (texts behind.now)) result
            (conversation_of self.new) }
    {
        if !self.requests.contains_key(mark) {
            return self.refuse_line(mark, ConversationFault::NoSuchRequest);
        }
        if !behind.is_empty() {
            return self.refuse_line(mark, ConversationFault::Script(ScriptFault::FieldCount));
        }
        self.cancel_request(mark)
    }

    fn cancel_request(&mut self, mark: &str) -> Result<Heard, AllocError>
        ensures { let before = conversation_of self.old in IsAnswered before mark.now
            (λ answer. answer ≡ cancelled before mark.now)
            nothing_left result (conversation_of self.new) }
    {
        let heard = told_cancel(self.alloc, mark)?;
        forget(&mut self.requests, mark);
        Ok(heard)
    }

    // The open reply is whole.
    fn end_reply(&mut self, mark: &str, behind: &[&str]) -> Result<Heard, AllocError>
        ensures { IsActedUpon (conversation_of self.old) mark.now (said.Done (texts behind.now)) result
            (conversation_of self.new) }
    {
        let Some(has_reply) = has_reply(&self.requests, mark) else {
            return self.refuse_line(mark, ConversationFault::NoSuchRequest);
        };
        if !has_reply {
            return self.refuse_line(mark, ConversationFault::Script(ScriptFault::NoReply));
        }
        if !behind.is_empty() {
            return self.refuse_line(mark, ConversationFault::Script(ScriptFault::FieldCount));
        }
        self.feed_reply(mark)
    }

    // The open reply is fed to its request.
    fn feed_reply(&mut self, mark: &str) -> Result<Heard, AllocError>
        ensures { let before = conversation_of self.old in IsForRequest before mark.now
            (λ r. FeedsReply mark.now before.phase r)
            (IsOutcomeOf (said.Done []))
            result (conversation_of self.new) }
    {
        let Some(in_flight) = take(&mut self.requests, mark) else {
            return Err(AllocError);
        };
        let InFlight {
            begun,
            waiting,
            reply,
        } = in_flight;
        match reply {
            Some(reply) => self.feed(mark, begun, waiting, outcome_of(reply)),
            None => {
                drop(begun);
                drop(waiting);
                Err(AllocError)
            }
        }
    }

    // A request that was taken out goes on with what came back to its question.
    fn feed(
        &mut self,
        mark: &str,
        begun: Begun,
        waiting: WaitingCall,
        outcome: Outcome,
    ) -> Result<Heard, AllocError>
        ensures { IsFed (conversation_of self.old) mark.now (begun_of begun) waiting outcome result
            (conversation_of self.new) }
    {
        match &mut self.resolver {
            Some(resolver) => go_on(
                self.alloc,
                resolver,
                &mut self.requests,
                mark,
                begun,
                waiting,
                outcome,
            ),
            None => {
                drop(begun);
                drop(waiting);
                drop(outcome);
                Err(AllocError)
            }
        }
    }

    // A line of an outcome, which is the first one or not.
    fn add_line(&mut self, mark: &str, begins: bool, fields: &[&str]) -> Result<Heard, AllocError>
        ensures { IsActedUpon (conversation_of self.old) mark.now (said.Outcome begins (texts fields.now)) result
            (conversation_of self.new) }
    {
        let Some(has_reply) = has_reply(&self.requests, mark) else {
            return self.refuse_line(mark, ConversationFault::NoSuchRequest);
        };
        if is_early(begins, has_reply) {
            return self.refuse_line(mark, ConversationFault::ReplyNotDone);
        }
        match read_script_line(self.alloc, has_reply, fields) {
            Ok(line) => self.take_line(mark, line, fields),
            Err(refusal) => self.refuse(mark, &refusal),
        }
    }

    // What a line of an outcome says is taken.
    fn take_line(&mut self, mark: &str, line: Line, fields: &[&str]) -> Result<Heard, AllocError>
        ensures { let before = conversation_of self.old in IsForRequest before mark.now
            (λ r. Takes before mark.now r (texts fields.now) (Ok line))
            (IsFailureOf line)
            result (conversation_of self.new) }
    {
        match line {
            Line::Reply(head) => self.open_reply(mark, head, fields),
            Line::Record(section, found) => self.add_record(mark, section, found, fields),
            Line::Fail(failure) => self.fail(mark, failure.kind, fields),
            _ => self.refuse(mark, &Refusal::unknown(fields)),
        }
    }

    fn open_reply(
        &mut self,
        mark: &str,
        head: ReplyHead,
        fields: &[&str],
    ) -> Result<Heard, AllocError>
        ensures { let before = conversation_of self.old in IsForRequest before mark.now
            (λ r answer. answer ≡ opens before mark.now r (texts fields.now) head)
            no_outcome result (conversation_of self.new) }
    {
        let Ok(reply) = OpenReply::open(self.alloc, head) else {
            return Err(AllocError);
        };
        open_reply(&mut self.requests, mark, reply, fields)?;
        Ok(told_nothing(self.alloc))
    }

    fn add_record(
        &mut self,
        mark: &str,
        section: Section,
        found: Record,
        fields: &[&str],
    ) -> Result<Heard, AllocError>
        ensures { let before = conversation_of self.old in IsForRequest before mark.now
            (λ r answer. answer ≡ adds before mark.now r (texts fields.now) section found)
            no_outcome result (conversation_of self.new) }
    {
        add_record(&mut self.requests, mark, section, found, fields)?;
        Ok(told_nothing(self.alloc))
    }

    // The question of a request fails.
    fn fail(&mut self, mark: &str, kind: FailureKind, fields: &[&str]) -> Result<Heard, AllocError>
        ensures { let before = conversation_of self.old in IsForRequest before mark.now
            (λ r. Fails before mark.now r (texts fields.now) kind)
            (λ r outcome. outcome ≡ Err (error_of kind))
            result (conversation_of self.new) }
    {
        let Some(in_flight) = take(&mut self.requests, mark) else {
            return Err(AllocError);
        };
        let InFlight {
            mut begun,
            waiting,
            reply,
        } = in_flight;
        drop(reply);
        match begun.add_line(fields) {
            Ok(()) => self.feed(mark, begun, waiting, Err(kind.error())),
            Err(AllocError) => {
                drop(begun);
                drop(waiting);
                Err(AllocError)
            }
        }
    }
}

// Whether a reply is open for the request of a mark, where there is one.
fn has_reply(requests: &HashMap<String, InFlight>, mark: &str) -> Option<bool>
    ensures { result ≡ option_map (λ r. is_some r.reply) (request_at mark.now (requests_of requests.now.entries)) }
{
    match requests.get(mark) {
        Some(in_flight) => Some(in_flight.reply.is_some()),
        None => None,
    }
}

// Whether the first line of an outcome, if it is one, comes before the open reply is done.
fn is_early(begins: bool, has_reply: bool) -> bool
    ensures { result ≡ (begins && has_reply) }
{
    begins && has_reply
}

// What is told, and before it this in the journal.
fn telling(told: String, heard: Heard) -> Result<Heard, AllocError>
    ensures others { IfOk result (λ h. h ≡ record heard { journal = h.journal }) }
    ensures journal { IfOk result (λ h. string_bytes h.journal ≡ string_bytes told ++ string_bytes heard.journal) }
{
    let mut journal = told;
    let mut heard = heard;
    journal.push_str(heard.journal.as_str())?;
    heard.journal = journal;
    Ok(heard)
}
