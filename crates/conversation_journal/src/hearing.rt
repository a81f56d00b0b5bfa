//! Lines that are heard one after another, and their journal.
ghost use Rattle.std.specs.Prelude.{ℕ, List, IfOk};
ghost use Rattle.replay_script.specs.Words.{texts};
ghost use Rattle.conversation.specs.Answers.{Answer};
ghost use Rattle.conversation.specs.State.{ConversationValue};
ghost use Rattle.conversation_journal.specs.Journal.{IsScriptHeard, IsScriptOfBlocks};

use conversation::{Conversation, Heard};
use std::alloc::{AllocError, Global};

/// Hears lines, without their ends, one after another, up to the last of the conversation: what each is answered.
/// Where memory runs out there is no answer. From silence on, with one request at a time, their blocks are what a replay
/// writes of what the journal got, and of the hosts.
pub fn hear_all(
    conversation: &mut Conversation,
    alloc: Global,
    lines: &[&[u8]],
) -> Result<Vec<Heard>, AllocError>
    ensures { IfOk result (λ heards. IsScriptHeard conversation.old (texts lines.now) heards.items conversation.new) }
{
    let mut heards = Vec::new(alloc);
    for line in lines {
        let heard = conversation.hear(line)?;
        let is_last = heard.is_last;
        heards.push(heard)?;
        if is_last {
            return Ok(heards);
        }
    }
    Ok(heards)
}

/// The journal of a conversation is a script. Lines are heard one after another from silence on, and each is
/// answered; a request begins only while none is in flight, and not earlier than the one before it; none is cancelled,
/// and none is in flight at the end. Then the blocks that went out, without marks and empty lines, are what a replay
/// writes of the journal and of the hosts that stood. Where no request was begun, the settings and the hosts must be
/// such that one could be without the lines `resolv`, of which the journal has nothing then.
pub fn the_journal_is_a_script()
    ensures { (hosts : List ℕ) (texts : List (List ℕ)) (answers : List Answer) (after : ConversationValue)
        → IsScriptOfBlocks hosts texts answers after }
{}
