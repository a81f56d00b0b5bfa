//! A conversation with a resolver, line by line.
ghost use Rattle.std.specs.Prelude.{◌≡◌};
ghost use Rattle.conversation.specs.Hearing.{IsHeard, silent};

use crate::heard::Heard;
use crate::state::State;
use std::alloc::{AllocError, Global};
use std::marker::Model;

/// A conversation with a resolver: how many lines were heard, and what is set before the first request; then the
/// resolver, and the requests in flight, each under its mark. Nothing else is kept.
#[derive(Drop)]
pub struct Conversation {
    state: State,
}

impl Model for Conversation {
    ghost use Rattle.conversation.specs.State.{ConversationValue, conversation_of};

    ghost Value = { ConversationValue };

    ghost view = { λ c. conversation_of c.state };
}

impl Conversation {
    /// A conversation in which nothing was said, over what this file of hosts says. Takes no memory.
    pub fn new(alloc: Global, hosts: Vec<u8>) -> Conversation
        ensures { result ≡ silent hosts.items }
    {
        Conversation {
            state: State::new(alloc, hosts),
        }
    }

    /// Hears a line, without its end. Where memory runs out there is no answer, and the request of the line's mark is
    /// forgotten; the conversation goes on.
    pub fn hear(&mut self, line: &[u8]) -> Result<Heard, AllocError>
        ensures { IsHeard self.old line.now result self.new }
    {
        self.state.hear(line)
    }
}
