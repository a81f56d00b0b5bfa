//! What can be wrong with a line.
ghost use Rattle.std.specs.Prelude.{◌≡◌};
ghost use Rattle.conversation.specs.Faults.{fault_words, is_memory, script_words};

use hickory_resolver::HostsError;
use replay_script::{LineFault, ScriptFault};
use std::alloc::AllocError;
use std::marker::Model;

/// What is wrong with a line.
#[derive(Clone, Copy, Debug, PartialEq, Eq)]
pub enum ConversationFault {
    /// What is wrong with a line of a script.
    Script(ScriptFault),
    /// A setting behind the first request.
    SettingAfterRequest,
    /// A request under the mark of one that is in flight.
    MarkInUse,
    /// A line for a request that is not in flight.
    NoSuchRequest,
    /// An outcome for a request whose reply is not done.
    ReplyNotDone,
    /// A request where the file of hosts is not UTF-8.
    HostsNotUtf8,
}

impl ConversationFault {
    /// Whether no memory was left.
    pub fn is_memory(self) -> bool
        ensures { result ≡ is_memory self }
    {
        matches!(self, ConversationFault::Script(ScriptFault::OutOfMemory))
    }

    /// The code of the fault, and its words.
    pub fn words(self) -> &'static str
        ensures { result.now ≡ fault_words self }
    {
        match self {
            ConversationFault::Script(fault) => script_words(fault),
            ConversationFault::SettingAfterRequest => "C1 setting after a request",
            ConversationFault::MarkInUse => "C2 mark in use",
            ConversationFault::NoSuchRequest => "C3 no such request",
            ConversationFault::ReplyNotDone => "C4 reply not done",
            ConversationFault::HostsNotUtf8 => "C5 hosts not UTF-8",
        }
    }
}

// As a script has them.
fn script_words(fault: ScriptFault) -> &'static str
    ensures { result.now ≡ script_words fault }
{
    match fault {
        ScriptFault::BadByte => "S1 bad byte",
        ScriptFault::UnknownDirective => "S2 unknown directive",
        ScriptFault::FieldCount => "S3 wrong number of fields",
        ScriptFault::BadNumber => "S4 bad number",
        ScriptFault::BadName => "S5 bad name",
        ScriptFault::BadAddress => "S6 bad address",
        ScriptFault::UnknownWord => "S7 unknown word",
        ScriptFault::NoReply => "S8 no open reply",
        ScriptFault::MomentBack => "S9 moment goes back",
        ScriptFault::BadHex => "S10 bad hex",
        ScriptFault::ReversedBounds => "S11 reversed bounds",
        ScriptFault::OutOfMemory => "S12 out of memory",
    }
}

impl From<ScriptFault> for ConversationFault {
    ghost use Rattle.std.specs.Prelude.{◌≡◌};
    ghost use Rattle.conversation.specs.declared.fault.ConversationFault.TheVariants.{Script};

    ghost from_gives = { λ fault x. x ≡ Script fault };

    fn from(fault: ScriptFault) -> ConversationFault {
        ConversationFault::Script(fault)
    }
}

impl From<AllocError> for ConversationFault {
    ghost use Rattle.std.specs.Prelude.{◌≡◌};
    ghost use Rattle.conversation.specs.Faults.{out_of_memory};

    ghost from_gives = { λ _ x. x ≡ out_of_memory };

    fn from(_: AllocError) -> ConversationFault {
        ConversationFault::Script(ScriptFault::OutOfMemory)
    }
}

impl From<HostsError> for ConversationFault {
    ghost use Rattle.std.specs.Prelude.{◌≡◌};
    ghost use Rattle.conversation.specs.Faults.{hosts_fault};

    ghost from_gives = { λ error x. x ≡ hosts_fault error };

    fn from(error: HostsError) -> ConversationFault {
        match error {
            HostsError::OutOfMemory => ConversationFault::Script(ScriptFault::OutOfMemory),
            _ => ConversationFault::HostsNotUtf8,
        }
    }
}

/// Why a line is refused, and the field that it is refused for.
#[derive(Drop)]
pub struct Refusal<'a> {
    pub fault: ConversationFault,
    /// The text of that field; none where the fault is about no single field.
    pub field: Option<&'a str>,
}

impl<'a> Model for Refusal<'a> {
    ghost use Rattle.std.specs.Option.{option_map};
    ghost use Rattle.conversation.specs.Faults.{RefusalValue};

    ghost Value = { RefusalValue };

    ghost view = { λ r. record {
      fault = r.fault;
      field = option_map (λ text. text.now) r.field;
    } };
}

impl<'a> Refusal<'a> {
    ghost use Rattle.conversation.specs.Faults.{of_field, of_line, out_of_memory, unknown};
    ghost use Rattle.replay_script.specs.Words.{texts};

    /// A refusal for no single field.
    pub fn of_line(fault: ConversationFault) -> Refusal<'a>
        ensures { result ≡ of_line fault }
    {
        Refusal { fault, field: None }
    }

    /// A refusal for this field.
    pub fn of_field(fault: ConversationFault, field: &'a str) -> Refusal<'a>
        ensures { result ≡ of_field fault field.now }
    {
        Refusal {
            fault,
            field: Some(field),
        }
    }

    /// A refusal where no directive stands at the front of these fields.
    pub fn unknown(fields: &[&'a str]) -> Refusal<'a>
        ensures { result ≡ unknown (texts fields.now) }
    {
        let fault = ConversationFault::Script(ScriptFault::UnknownDirective);
        match fields {
            [word, ..] => Refusal::of_field(fault, word),
            [] => Refusal::of_line(fault),
        }
    }

    /// A refusal where no memory was left.
    pub fn out_of_memory() -> Refusal<'a>
        ensures { result ≡ of_line out_of_memory }
    {
        Refusal::of_line(ConversationFault::Script(ScriptFault::OutOfMemory))
    }
}

impl<'a> From<LineFault<'a>> for Refusal<'a> {
    ghost use Rattle.std.specs.Prelude.{◌≡◌};
    ghost use Rattle.conversation.specs.Faults.{refusal_of};

    ghost from_gives = { λ error x. x ≡ refusal_of error };

    fn from(error: LineFault<'a>) -> Refusal<'a> {
        Refusal {
            fault: ConversationFault::Script(error.fault),
            field: error.field,
        }
    }
}
