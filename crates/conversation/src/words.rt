//! The words that a line of a conversation begins with.
ghost use Rattle.std.specs.Prelude.{◌≡◌};
ghost use Rattle.conversation.specs.Lines.{word_named};

use crate::files::FileKind;

/// What the first word of a line says.
#[derive(Clone, Copy)]
pub enum Word {
    /// The conversation ends.
    End,
    /// A line of a file.
    File(FileKind),
    /// A setting.
    Setting,
    /// No request can have this mark.
    Unused,
    /// The mark of a request.
    Mark,
}

impl Word {
    /// What this word says at the front of a line.
    pub fn of(word: &str) -> Word
        ensures { result ≡ word_named word.now }
    {
        match word {
            "end" => Word::End,
            "hosts" => Word::File(FileKind::Hosts),
            "resolv" => Word::File(FileKind::ResolvConf),
            "option" => Word::Setting,
            "domain" => Word::Setting,
            "search" => Word::Setting,
            "-" => Word::Unused,
            _ => Word::Mark,
        }
    }
}
