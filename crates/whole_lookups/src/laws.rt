//! What holds of every list of replies to a look-up.
ghost use Rattle.whole_lookups.specs.Laws.{AsksFewQuestions, WholeRepliesAreAllInOrder};

/// A whole reply has the answers that are kept of each reply to its look-up, in their order; its code and authority are
/// the last one's; it may be told no longer than each; and there are at most `MOST_QUESTIONS` of them.
pub fn whole_replies_are_all_in_order()
    ensures { WholeRepliesAreAllInOrder }
{}

/// No look-up asks more than `MOST_QUESTIONS` questions, whatever comes.
pub fn asks_few_questions()
    ensures { AsksFewQuestions }
{}
