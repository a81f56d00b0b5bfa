//! What holds of every question.
ghost use Rattle.local_answers.specs.Laws.{TellsSpecialNames};

/// Special names are told as a resolver answers them, in the class of the Internet.
pub fn tells_special_names()
    ensures { TellsSpecialNames }
{}
