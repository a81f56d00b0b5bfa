//! What holds of a forwarder after every list of queries, events and steps.
ghost use Rattle.yimarotu_forwarder_theorems.specs.Believed.{RepliesWereBelieved};
ghost use Rattle.yimarotu_forwarder_theorems.specs.Bounds.{BoundsAreKept, WhoWaitsIsCounted};
ghost use Rattle.yimarotu_forwarder_theorems.specs.Lookups.{AnswersAreOfReplies, StaleAnswersAreOfReplies};
ghost use Rattle.yimarotu_forwarder_theorems.specs.Questions.{EachReplyIsToItsQuestion};
ghost use Rattle.yimarotu_forwarder_theorems.specs.Replies.{EachIsRepliedToOnce, EachReplyIsToItsRequest, QuestionsHaveQueues};
ghost use Rattle.yimarotu_forwarder_theorems.specs.ReplyOctets.{RepliesAtOnceAreOwn};
ghost use Rattle.yimarotu_forwarder_theorems.specs.ToldAtOnce.{AnswersAtOnceAreOfReplies};

/// Those who wait for a question stand in a queue: who is told to wait comes in at its end, who is replied to was its
/// first, and who is gone leaves it. So none is lost, and none is replied to before another that came earlier.
pub fn questions_have_queues()
    ensures { QuestionsHaveQueues }
{}

/// Each request that was told to wait is replied to once at the most. Of the requests of a client that was never gone,
/// those for each question that were told to wait are those that were replied to since, in their order, and then those
/// that wait.
pub fn each_is_replied_to_once()
    ensures { EachIsRepliedToOnce }
{}

/// A step that replies does so to the first request that waits for its question: it names the client of that request,
/// and the octets tell that request what the look-up of its question came to. They are no more than the client takes.
pub fn each_reply_is_to_its_request()
    ensures { EachReplyIsToItsRequest }
{}

/// What is replied to a query at once begins with its number, has its question, and is no longer than its client takes.
pub fn replies_at_once_are_own()
    ensures { RepliesAtOnceAreOwn }
{}

/// No more count as waiting than the limits say, in all, of each network and for each question, the greatest limits
/// that there were; and what is kept, replies and failures, keeps to its bounds.
pub fn bounds_are_kept()
    ensures { BoundsAreKept }
{}

/// A look-up asks at most eight questions. What those who wait are told of it is what as few replies that the pool told
/// make, one after another, some of them for a look-up before whose answer was kept; and so is all that is kept. Each
/// was told to a look-up that had to ask what those before it led to. They are all read with DO, or all without, as the
/// key says under which it was asked and is kept. It is without the addresses that the options deny for the name that
/// was asked, and no TTL is above their greatest: the options at the second at which the last of what makes it came. As
/// it ages it is told for no longer than the least of its TTLs.
pub fn answers_are_of_replies()
    ensures { AnswersAreOfReplies }
{}

/// Each reply that a look-up is told was told of a transaction for the question that the look-up had to ask: the first
/// for the question of its client, each later one for that to which the one before led.
pub fn each_reply_is_to_its_question()
    ensures { EachReplyIsToItsQuestion }
{}

/// The pool of a forwarder is one as the pool's own laws have it, whatever happens; and the servers of its groups, the
/// octets that came to it, and the channels that failed, are those that the forwarder was told of. Each reply that it told
/// was believed: octets that came to it before on the channel on which its question was sent, and that spell it.
pub fn replies_were_believed()
    ensures { RepliesWereBelieved }
{}

/// What is told past its end, where a look-up failed or is late, is kept under the key of its question, and was such an
/// answer up to a second that is over: by no more seconds than the options say, and a day at the most. It is told with
/// TTLs of 30 seconds.
pub fn stale_answers_are_of_replies()
    ensures { StaleAnswersAreOfReplies }
{}

/// What a query is told at once is such an answer that lasts up to that second or longer, as it has aged; one that is
/// past its end, so; what local data say then; that all types of a name are not told; the counts; or that it is refused,
/// or failed. What is kept is told only to a query with RD of a client that may ask, and with DO as it asks.
pub fn answers_at_once_are_of_replies()
    ensures { AnswersAtOnceAreOfReplies }
{}

/// Where no client is gone, the counts are those of who waits: with those who were replied to they are all who were
/// told to wait, in all and of each network.
pub fn who_waits_is_counted()
    ensures { WhoWaitsIsCounted }
{}
