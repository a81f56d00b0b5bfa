//! How often each class was found.
ghost use Rattle.std.specs.Prelude.{◌≡◌};
ghost use Rattle.trace_lines.specs.Printing.{no_counts};
ghost use Rattle.trace_lines.specs.Reports.{one_more, with_class, with_found, with_telling};

use std::fmt;
use trace_judge::{Class, Event, Finding, Said};

/// How often each class was found, and how many responses were told.
#[derive(Clone, Copy, Debug)]
pub struct Counts {
    pub told: u64,
    pub stale: u64,
    pub served_stale: u64,
    pub raised: u64,
    pub alias_outlives: u64,
    pub negative_outlives: u64,
    pub synthesized: u64,
    pub never_received: u64,
    pub unseen: u64,
    pub not_asked: u64,
}

impl Counts {
    /// Nothing was found yet.
    pub fn new() -> Counts
        ensures { result ≡ no_counts }
    {
        Counts {
            told: 0,
            stale: 0,
            served_stale: 0,
            raised: 0,
            alias_outlives: 0,
            negative_outlives: 0,
            synthesized: 0,
            never_received: 0,
            unseen: 0,
            not_asked: 0,
        }
    }

    /// One more event, in which these classes hold.
    pub fn count(&mut self, event: &Event, found: &[Finding])
        ensures { self.new ≡ with_found self.old event.now.said found.now }
    {
        self.count_telling(event);
        for finding in found {
            self.add(finding.class);
        }
    }

    // One more response, where the event tells one.
    fn count_telling(&mut self, event: &Event)
        ensures { self.new ≡ with_telling self.old event.now.said }
    {
        if let Said::Told(_) = &event.said {
            one_more(&mut self.told);
        }
    }

    // One more of a class.
    fn add(&mut self, class: Class)
        ensures { self.new ≡ with_class self.old class }
    {
        match class {
            Class::Stale(_) => one_more(&mut self.stale),
            Class::ServedStale(_) => one_more(&mut self.served_stale),
            Class::Raised => one_more(&mut self.raised),
            Class::AliasOutlives => one_more(&mut self.alias_outlives),
            Class::NegativeOutlives(_) => one_more(&mut self.negative_outlives),
            Class::Synthesized => one_more(&mut self.synthesized),
            Class::NeverReceived => one_more(&mut self.never_received),
            Class::Unseen => one_more(&mut self.unseen),
            Class::Unasked => one_more(&mut self.not_asked),
        }
    }
}

// One more, up to what 64 bits hold.
fn one_more(count: &mut u64)
    ensures { count.new ≡ one_more count.old }
{
    *count = count.saturating_add(1);
}

impl fmt::Display for Counts {
    ghost use Rattle.std.specs.Prelude.{Some};
    ghost use Rattle.trace_lines.specs.Printing.{counts_text};

    ghost output = { λ c. Some (counts_text c) };

    fn fmt<W: fmt::Write>(&self, f: &mut fmt::Formatter<W>) -> fmt::Result {
        let told = ToldText(self);
        let received = ReceivedText(self);
        let denied = DeniedText(self);
        let unknown = UnknownText(self);
        write!(f, "{told}{received}{denied}{unknown}")
    }
}

// The count of what was told, and of what was stale in it.
#[derive(Clone, Copy)]
struct ToldText<'a>(&'a Counts);

impl fmt::Display for ToldText<'_> {
    ghost use Rattle.std.specs.Prelude.{Some};
    ghost use Rattle.trace_lines.specs.Printing.{told_text};

    ghost output = { λ x. Some (told_text x.0.now) };

    fn fmt<W: fmt::Write>(&self, f: &mut fmt::Formatter<W>) -> fmt::Result {
        let told = self.0.told;
        let stale = self.0.stale;
        let served_stale = self.0.served_stale;
        write!(
            f,
            "told {told}\nstale {stale}\nserved stale {served_stale}\n"
        )
    }
}

// The counts of the other classes of what was received.
#[derive(Clone, Copy)]
struct ReceivedText<'a>(&'a Counts);

impl fmt::Display for ReceivedText<'_> {
    ghost use Rattle.std.specs.Prelude.{Some};
    ghost use Rattle.trace_lines.specs.Printing.{received_text};

    ghost output = { λ x. Some (received_text x.0.now) };

    fn fmt<W: fmt::Write>(&self, f: &mut fmt::Formatter<W>) -> fmt::Result {
        let raised = self.0.raised;
        let alias_outlives = self.0.alias_outlives;
        write!(f, "raised {raised}\nalias outlives {alias_outlives}\n")
    }
}

// The counts of denials that outlive, and of what the resolver makes by itself.
#[derive(Clone, Copy)]
struct DeniedText<'a>(&'a Counts);

impl fmt::Display for DeniedText<'_> {
    ghost use Rattle.std.specs.Prelude.{Some};
    ghost use Rattle.trace_lines.specs.Printing.{denied_text};

    ghost output = { λ x. Some (denied_text x.0.now) };

    fn fmt<W: fmt::Write>(&self, f: &mut fmt::Formatter<W>) -> fmt::Result {
        let negative_outlives = self.0.negative_outlives;
        let synthesized = self.0.synthesized;
        write!(
            f,
            "negative outlives {negative_outlives}\nsynthesized {synthesized}\n"
        )
    }
}

// The counts of what was not received, and of what was not asked.
#[derive(Clone, Copy)]
struct UnknownText<'a>(&'a Counts);

impl fmt::Display for UnknownText<'_> {
    ghost use Rattle.std.specs.Prelude.{Some};
    ghost use Rattle.trace_lines.specs.Printing.{unknown_text};

    ghost output = { λ x. Some (unknown_text x.0.now) };

    fn fmt<W: fmt::Write>(&self, f: &mut fmt::Formatter<W>) -> fmt::Result {
        let unseen = UnseenText(self.0);
        let not_asked = self.0.not_asked;
        write!(f, "{unseen}not asked {not_asked}\n")
    }
}

// The counts of what was not received.
#[derive(Clone, Copy)]
struct UnseenText<'a>(&'a Counts);

impl fmt::Display for UnseenText<'_> {
    ghost use Rattle.std.specs.Prelude.{Some};
    ghost use Rattle.trace_lines.specs.Printing.{unseen_text};

    ghost output = { λ x. Some (unseen_text x.0.now) };

    fn fmt<W: fmt::Write>(&self, f: &mut fmt::Formatter<W>) -> fmt::Result {
        let never_received = self.0.never_received;
        let unseen = self.0.unseen;
        write!(f, "never received {never_received}\nunseen {unseen}\n")
    }
}
