//! What a line says by its words, whatever was said before it.
ghost use Rattle.std.specs.Prelude.{◌≡◌};
ghost use Rattle.replay_script.specs.Words.{texts};
ghost use Rattle.conversation.specs.Lines.{word_named};
ghost use Rattle.conversation.specs.Said.{said_at_end, said_behind_mark, said_by_verb, said_by_word, said_explained, said_explained_by, said_in, said_value};

use crate::fault::{ConversationFault, Refusal};
use crate::files::FileKind;
use crate::words::Word;
use replay_script::ScriptFault;

/// What a line says. Whether its fields are in order is found when it is acted upon: what stands against it of what was
/// said before is told first.
#[derive(Drop)]
pub enum Said<'a> {
    /// Nothing.
    Nothing,
    /// The conversation is over.
    End,
    /// One line of a file: the fields behind the word that names it.
    File {
        kind: FileKind,
        fields: &'a [&'a str],
    },
    /// A setting: all its fields.
    Setting(&'a [&'a str]),
    /// A request: the fields from `at` on, and whether it asks how it comes about.
    Request {
        explains: bool,
        fields: &'a [&'a str],
    },
    /// A line of an outcome: the fields from its verb on, and whether it is the first one.
    Outcome {
        begins: bool,
        fields: &'a [&'a str],
    },
    /// The open reply is whole: the fields behind `done`, of which there may be none.
    Done(&'a [&'a str]),
    /// The request is forgotten: the fields behind `cancel`, of which there may be none.
    Cancel(&'a [&'a str]),
    /// Nothing that a line can say.
    Refused(Refusal<'a>),
}

impl<'a> Said<'a> {
    /// What a line of these fields says.
    pub fn of(fields: &'a [&'a str]) -> Said<'a>
        ensures { said_value result ≡ said_in (texts fields.now) }
    {
        match fields {
            [word, behind @ ..] => by_word(word, behind, fields),
            [] => Said::Nothing,
        }
    }
}

// By the first word, with the fields behind it.
fn by_word<'a>(word: &str, behind: &'a [&'a str], fields: &'a [&'a str]) -> Said<'a>
    ensures { said_value result ≡ said_by_word (word_named word.now) (texts behind.now) (texts fields.now) }
{
    match Word::of(word) {
        Word::End => at_end(behind),
        Word::File(kind) => Said::File {
            kind,
            fields: behind,
        },
        Word::Setting => Said::Setting(fields),
        Word::Unused => Said::Refused(Refusal::unknown(fields)),
        Word::Mark => behind_mark(behind),
    }
}

fn at_end<'a>(behind: &'a [&'a str]) -> Said<'a>
    ensures { said_value result ≡ said_at_end (texts behind.now) }
{
    if behind.is_empty() {
        Said::End
    } else {
        Said::Refused(Refusal::of_line(ConversationFault::Script(ScriptFault::FieldCount)))
    }
}

fn behind_mark<'a>(fields: &'a [&'a str]) -> Said<'a>
    ensures { said_value result ≡ said_behind_mark (texts fields.now) }
{
    match fields {
        [verb, behind @ ..] => by_verb(verb, behind, fields),
        [] => Said::Refused(Refusal::unknown(fields)),
    }
}

// By the verb, with the fields behind it.
fn by_verb<'a>(verb: &str, behind: &'a [&'a str], fields: &'a [&'a str]) -> Said<'a>
    ensures { said_value result ≡ said_by_verb verb.now (texts behind.now) (texts fields.now) }
{
    match verb {
        "explain" => explained(behind),
        "at" => Said::Request {
            explains: false,
            fields,
        },
        "reply" | "fail" => Said::Outcome {
            begins: true,
            fields,
        },
        "answer" | "authority" | "additional" => Said::Outcome {
            begins: false,
            fields,
        },
        "done" => Said::Done(behind),
        "cancel" => Said::Cancel(behind),
        _ => Said::Refused(Refusal::unknown(fields)),
    }
}

// The fields behind `explain`.
fn explained<'a>(fields: &'a [&'a str]) -> Said<'a>
    ensures { said_value result ≡ said_explained (texts fields.now) }
{
    match fields {
        [verb, ..] => explained_by(verb, fields),
        [] => Said::Refused(Refusal::unknown(fields)),
    }
}

fn explained_by<'a>(verb: &str, fields: &'a [&'a str]) -> Said<'a>
    ensures { said_value result ≡ said_explained_by verb.now (texts fields.now) }
{
    match verb {
        "at" => Said::Request {
            explains: true,
            fields,
        },
        _ => Said::Refused(Refusal::unknown(fields)),
    }
}
