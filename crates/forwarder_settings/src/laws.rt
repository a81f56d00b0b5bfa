//! What holds of all settings.
ghost use Rattle.forwarder_settings.specs.Laws.{TheLastLineCounts};

/// Of all that lines say is done with a domain, the last counts, and it counts before the file of blocked names and the
/// zones that are served.
pub fn the_last_line_counts()
    ensures { TheLastLineCounts }
{}
