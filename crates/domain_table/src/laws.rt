//! What holds of every table.
ghost use Rattle.domain_table.specs.Laws.{FindsTheLongest, KeepsOneValue};

/// The domain that is found for a name is one of its suffixes and has the value that is told, and each longer suffix
/// has none; and where nothing is found, no suffix has one.
pub fn finds_the_longest<V>()
    ensures { FindsTheLongest V }
{}

/// A domain that is given a value has it, whatever letters are asked in, and every other domain keeps its own.
pub fn keeps_one_value<V>()
    ensures { KeepsOneValue V }
{}
