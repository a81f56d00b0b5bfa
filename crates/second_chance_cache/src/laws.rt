//! What holds after every list of events.
ghost use Rattle.second_chance_cache.specs.Laws.{KeepsToItsBounds, OutlastsWhatIsNotAskedFor};

/// A cache keeps to its bounds, whatever comes.
pub fn keeps_to_its_bounds<V>()
    ensures { KeepsToItsBounds V }
{}

/// What was asked for again outlasts all that was there then and is not asked for since.
pub fn outlasts_what_is_not_asked_for<V>()
    ensures { OutlastsWhatIsNotAskedFor V }
{}
