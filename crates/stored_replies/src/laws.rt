//! That what a client is told is what `to_wire` writes of a message, and that equal questions hash the same.
ghost use Rattle.stored_replies.specs.Laws.{ToWireWritesAll, SpelledAlikeIsWhole, SameQuestionsHashTheSame};

/// What `to_wire` writes within a limit that is enough is `whole_octets`. Where the client spelled the question as it
/// is stored, it is told just these octets of the aged message; else they differ in the letters of its question alone.
pub fn replies_are_written_messages()
    ensures whole { ToWireWritesAll }
    ensures alike { SpelledAlikeIsWhole }
{}

/// Questions that are one to a cache feed a hasher the same.
pub fn same_questions_hash_the_same()
    ensures { SameQuestionsHashTheSame }
{}
