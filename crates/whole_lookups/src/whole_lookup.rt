//! One look-up of a whole reply.
ghost use Rattle.std.specs.Prelude.{◌≡◌, None, IsOk, IfOk, OnOk, OnErr, if◌then◌else◌};
ghost use Rattle.whole_lookups.specs.Lookups.{begun, whole_with, taken, may_go_on, gone_on, outcome_of, after_of, heard, after};

use crate::choices::MOST_QUESTIONS;
use crate::heard::Heard;
use hickory_proto_core::Query;
use hickory_proto_wire::WireMessage;
use std::alloc::{AllocError, Global};
use std::marker::Model;
use whole_replies::KeptReply;

/// One look-up of a whole reply, as a client asks for it (RFC 1034, section 3.6.2; RFC 6604).
#[derive(Debug, Drop)]
pub struct WholeLookup {
    /// What the client asked.
    pub asked: Query,
    /// The question that is asked now.
    pub next: Query,
    /// Whether DNSSEC records are asked for (RFC 3225, section 3).
    pub dnssec: bool,
    /// What is kept of the replies that came so far, put together.
    pub kept: Option<KeptReply>,
    /// How many questions were asked, with the one that is asked now.
    pub count: u32,
}

impl Model for WholeLookup {
    ghost use Rattle.whole_lookups.specs.Lookups.{LookupValue};

    ghost Value = { LookupValue };

    ghost view = { λ l. record {
      asked = l.asked;
      next = l.next;
      dnssec = l.dnssec;
      kept = l.kept;
      count = l.count;
    } };
}

impl WholeLookup {
    /// A look-up of this question, which is asked first.
    pub fn new(query: Query, dnssec: bool) -> Result<WholeLookup, AllocError>
        ensures { IfOk result (λ l. l ≡ begun query dnssec) }
    {
        Ok(WholeLookup {
            next: Clone::clone(&query)?,
            asked: query,
            dnssec,
            kept: None,
            count: 1,
        })
    }

    /// A believed reply to the question that is asked now came. With a whole reply, what was kept is handed out. A
    /// reply that fails changes nothing, and neither does a refused call.
    pub fn hear(&mut self, alloc: Global, reply: &WireMessage) -> Result<Heard, AllocError>
        ensures heard { IfOk result (λ h. h ≡ heard reply.now self.old) }
        ensures ok { OnOk result (self.new ≡ after reply.now self.old) }
        ensures err { OnErr result (self.new ≡ self.old) }
    {
        let (kept, next) = KeptReply::copy_of(alloc, &self.next, self.dnssec, reply)?;
        self.go_on(kept, next)
    }

    // Once this is kept of a reply that leads to this question.
    fn go_on(&mut self, kept: Option<KeptReply>, next: Option<Query>) -> Result<Heard, AllocError>
        ensures heard { IfOk result (λ h. h ≡ outcome_of kept next self.old) }
        ensures ok { OnOk result (self.new ≡ after_of kept next self.old) }
        ensures err { OnErr result (self.new ≡ self.old) }
    {
        match (kept, next) {
            (None, _) => Ok(Heard::Fails),
            (Some(kept), None) => self.end(kept),
            (Some(kept), Some(next)) => self.ask(kept, next),
        }
    }

    // The reply of which this is kept is the last one.
    fn end(&mut self, kept: KeptReply) -> Result<Heard, AllocError>
        ensures heard { IfOk result (λ h. h ≡ Heard.Whole (whole_with kept self.old)) }
        ensures ok { OnOk result (self.new ≡ taken self.old) }
        ensures err { OnErr result (self.new ≡ self.old) }
    {
        match self.hear_local(kept) {
            Ok(whole) => Ok(Heard::Whole(whole)),
            Err(error) => Err(error),
        }
    }

    // It leads to this question.
    fn ask(&mut self, kept: KeptReply, next: Query) -> Result<Heard, AllocError>
        ensures heard { IfOk result (λ h. h ≡ (if may_go_on self.old then Heard.Asks else Heard.Fails)) }
        ensures ok { OnOk result (self.new ≡ (if may_go_on self.old then gone_on kept next self.old else self.old)) }
        ensures err { OnErr result (self.new ≡ self.old) }
    {
        if MOST_QUESTIONS <= self.count {
            return Ok(Heard::Fails);
        }
        match self.hear_local(kept) {
            Ok(whole) => {
                self.kept = Some(whole);
                self.next = next;
                self.count += 1;
                Ok(Heard::Asks)
            }
            Err(error) => Err(error),
        }
    }

    /// What is asked now is answered with this, without a reply, as of a name that is known here: the whole reply, and
    /// what was kept is handed out with it. A refused call changes nothing, and is out of memory to put both together.
    pub fn hear_local(&mut self, last: KeptReply) -> Result<KeptReply, AllocError>
        ensures whole { IfOk result (λ whole. whole ≡ whole_with last self.old) }
        ensures ok { OnOk result (self.new ≡ taken self.old) }
        ensures err { OnErr result (self.new ≡ self.old) }
        ensures alone { self.old.kept ≡ None → IsOk result }
    {
        match self.kept.take() {
            None => Ok(last),
            Some(mut first) => match first.append(last) {
                Ok(()) => Ok(first),
                Err(error) => {
                    self.kept = Some(first);
                    Err(error)
                }
            },
        }
    }
}
