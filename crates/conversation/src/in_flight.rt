//! Requests in flight.
ghost use Rattle.std.specs.Prelude.{◌≡◌, ◌++◌, ◌∷◌, [], OnOk, Ok, Some};
ghost use Rattle.std.specs.Option.{option_map};
ghost use Rattle.hickory_resolver.specs.Requests.{request_of};
ghost use Rattle.replay_script.specs.Reader.{answered};
ghost use Rattle.replay_script.specs.Words.{texts};
ghost use Rattle.conversation.specs.Answers.{just_begun, with_line};
ghost use Rattle.conversation.specs.State.{begun_of, in_flight_of};
ghost use Rattle.conversation.specs.Telling.{with_reply};

use crate::writing::push_fields;
use hickory_proto_core::{DnsResponse, Outcome, Query, Record};
use hickory_resolver::{Request, WaitingCall};
use replay_script::{OpenReply, Section};
use std::alloc::{AllocError, Global};

/// A request, whether it asks how it comes about, the questions that were sent for it, and the lines of what came back,
/// as a script has them.
#[derive(Drop)]
pub struct Begun {
    pub request: Request,
    /// Whether it asks how it comes about.
    pub explains: bool,
    pub sent: Vec<Query>,
    pub told: String,
}

/// A request that waits for what comes back to a question, and the reply so far.
#[derive(Drop)]
pub struct InFlight {
    pub begun: Begun,
    pub waiting: WaitingCall,
    pub reply: Option<OpenReply>,
}

impl Begun {
    /// A request for which nothing was sent.
    pub fn new(alloc: Global, request: Request, explains: bool) -> Begun
        ensures { begun_of result ≡ just_begun (request_of request) explains }
    {
        Begun {
            request,
            explains,
            sent: Vec::new(alloc),
            told: String::new(alloc),
        }
    }

    /// One more question was sent.
    pub fn add_question(&mut self, question: &Query) -> Result<(), AllocError>
        ensures { OnOk result (begun_of self.new
            ≡ record (begun_of self.old) { sent = (begun_of self.old).sent ++ question.now ∷ [] }) }
    {
        self.sent.push(Clone::clone(question)?)?;
        Ok(())
    }

    /// One more line of what came back.
    pub fn add_line(&mut self, fields: &[&str]) -> Result<(), AllocError>
        ensures { OnOk result (begun_of self.new ≡ with_line (begun_of self.old) (texts fields.now)) }
    {
        push_fields(&mut self.told, fields)
    }
}

impl InFlight {
    /// A reply is opened by a line of these fields.
    pub fn open_reply(&mut self, reply: OpenReply, fields: &[&str]) -> Result<(), AllocError>
        ensures { OnOk result (in_flight_of self.new
            ≡ with_reply (texts fields.now) (Some reply) (in_flight_of self.old)) }
    {
        let replaced = self.reply.replace(reply);
        drop(replaced);
        self.begun.add_line(fields)
    }

    /// The open reply gets one more record by a line of these fields. No memory is left, too, where none is open.
    pub fn add_record(
        &mut self,
        section: Section,
        found: Record,
        fields: &[&str],
    ) -> Result<(), AllocError>
        ensures { OnOk result (in_flight_of self.new
            ≡ with_reply (texts fields.now) (option_map (answered section found) self.old.reply) (in_flight_of self.old)) }
    {
        let Some(reply) = &mut self.reply else {
            return Err(AllocError);
        };
        if reply.add(section, found).is_err() {
            return Err(AllocError);
        }
        self.begun.add_line(fields)
    }
}

/// The outcome that a reply is.
pub fn outcome_of(reply: OpenReply) -> Outcome
    ensures { result ≡ Ok reply.message }
{
    Ok(DnsResponse::from_message(reply.message))
}
