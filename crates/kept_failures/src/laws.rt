//! What holds after every list of events.
ghost use Rattle.kept_failures.specs.Laws.{TellsWhatWasNoted};

/// A failure that is told was noted under its key, at most `MOST_SECONDS` before, and nothing came under that key
/// since.
pub fn tells_what_was_noted<R>()
    ensures { TellsWhatWasNoted R }
{}
