//! What the lines `options` set.
ghost use Rattle.std.specs.Prelude.{◌≡◌};
ghost use Rattle.resolv_conf.specs.OptionWord.{with_option};

use crate::option_word::OptionWord;

/// What the lines `options` set.
#[derive(Clone, Copy, Debug, PartialEq, Eq)]
pub struct Settings {
    /// A name of at least so many dots is looked up as it is first.
    pub ndots: u8,
    /// For how many seconds a server is waited for.
    pub timeout: u8,
    /// How many rounds there are behind the first.
    pub attempts: u8,
    /// Whether servers are asked in turn.
    pub rotate: bool,
    /// Whether servers are asked over TCP alone.
    pub use_vc: bool,
    /// Whether requests have an EDNS record (RFC 6891).
    pub edns0: bool,
    /// Whether no AAAA records are looked up.
    pub no_aaaa: bool,
    /// Whether the servers and the way to them are trusted with the AD bit.
    pub trust_ad: bool,
}

impl Settings {
    /// Sets what a word says.
    pub fn set(&mut self, option: OptionWord)
        ensures { self.new ≡ with_option self.old option }
    {
        match option {
            OptionWord::Ndots(dots) => self.ndots = dots,
            OptionWord::Timeout(seconds) => self.timeout = seconds.max(1),
            OptionWord::Attempts(rounds) => self.attempts = rounds.saturating_sub(1),
            OptionWord::Rotate => self.rotate = true,
            OptionWord::UseVc => self.use_vc = true,
            OptionWord::Edns0 => self.edns0 = true,
            OptionWord::NoAaaa => self.no_aaaa = true,
            OptionWord::TrustAd => self.trust_ad = true,
            OptionWord::SingleRequest | OptionWord::PassedOver(_) => {}
        }
    }
}

impl Default for Settings {
    ghost use Rattle.std.specs.Prelude.{◌≡◌};
    ghost use Rattle.resolv_conf.specs.OptionWord.{default_settings};

    ghost is_default = { λ s. s ≡ default_settings };

    /// What is set where no line says otherwise.
    fn default() -> Settings {
        Settings {
            ndots: 1,
            timeout: 5,
            attempts: 1,
            rotate: false,
            use_vc: false,
            edns0: false,
            no_aaaa: false,
            trust_ad: false,
        }
    }
}
