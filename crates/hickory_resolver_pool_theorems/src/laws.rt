//! What holds of a pool after every list of events and steps.
ghost use Rattle.hickory_resolver_pool_theorems.specs.Agreement.{EachTransactionStandsOnce, DeadlinesAgree, TriesAgree, ServersAreKept};
ghost use Rattle.hickory_resolver_pool_theorems.specs.AllTold.{NoAskerIsLost, EachAskerIsTold};
ghost use Rattle.hickory_resolver_pool_theorems.specs.Runs.{ReachedIsWhatHappens};
ghost use Rattle.hickory_resolver_pool_theorems.specs.MadeUp.{NothingIsMadeUp};
ghost use Rattle.hickory_resolver_pool_theorems.specs.Handles.{CoreIsToldWhatCame, FromOctetsToOctets};
ghost use Rattle.hickory_resolver_pool_theorems.specs.Causes.{TimeoutsRanOut, UnreachableOnesFailed, TransactionsStayBounded};
ghost use Rattle.hickory_resolver_pool_theorems.specs.Ends.{RestsUntilDue};
ghost use Rattle.hickory_resolver_pool_theorems.specs.Rest.{AllIsReadAtRest, AlwaysSteps, EachIsPutAway, EachComesToRest, EachComesToEnd};
ghost use Rattle.hickory_resolver_pool_theorems.specs.Ticks.{EachTickLowers};
ghost use Rattle.hickory_resolver_pool_theorems.specs.Failures.{OverloadedOnlyWithoutPlace, FailuresAreToldLast};
ghost use Rattle.hickory_resolver_pool_theorems.specs.Tellings.{WhoAsksIsTold, OverOnce};
ghost use Rattle.hickory_resolver_pool_theorems.specs.Answers.{AskedIsAnswered};
ghost use Rattle.hickory_resolver_pool_theorems.specs.Open.{ChannelsAreUsedOpen};
ghost use Rattle.hickory_resolver_pool_theorems.specs.Opens.{OpensToOwnServers};
ghost use Rattle.hickory_resolver_pool_theorems.specs.Timeouts.{TimeoutsAreAlone};

/// What is reached from a pool by events and steps is what happens to it, and the other way round.
pub fn reached_is_what_happens()
    ensures { ReachedIsWhatHappens }
{}

/// What is told as a response, as a cut reply or as a code is of octets that came on a channel on which a message of
/// its transaction had been sent, and that were believed as a reply to it, whatever comes.
pub fn nothing_is_made_up()
    ensures { NothingIsMadeUp }
{}

/// A response that the core is told is the whole message that such octets spell, with the letters that were asked.
pub fn core_is_told_what_came()
    ensures { CoreIsToldWhatCame }
{}

/// A run of a resolver over a pool keeps all that is promised of runs, and each response of its exchanges is what
/// octets spell that came and were believed: from octets to octets nothing outlives what was received.
pub fn from_octets_to_octets()
    ensures { FromOctetsToOctets }
{}

/// Where nothing is left to be done, what a pool waits for lies behind the latest moment that it was told: a tick at
/// its next deadline, or later, leaves something to be done.
pub fn rests_until_due()
    ensures { RestsUntilDue }
{}

/// What is told as overloaded waited for a place, up to a moment that had passed, whatever comes.
pub fn overloaded_only_without_place()
    ensures { OverloadedOnlyWithoutPlace }
{}

/// A timeout, that no server was reached, a code, and that a reply was cut, are told only where no try and no channel
/// is waited for, and no further round may begin; and what is told is the best that was noted.
pub fn failures_are_told_last()
    ensures { FailuresAreToldLast }
{}

/// A timeout is told only of a transaction that began with the settings of the options, for which time passed up to a
/// moment at which a try of it was to have been answered, or a channel to have come free for it, and of which nothing
/// else was ever noted, whatever comes.
pub fn timeouts_ran_out()
    ensures { TimeoutsRanOut }
{}

/// That no server was reached is told only where a channel failed on which a try of the transaction waited, or where
/// none of its servers has a port, whatever comes.
pub fn unreachable_ones_failed()
    ensures { UnreachableOnesFailed }
{}

/// Each transaction of a pool stays within its bounds, whatever comes: rounds, messages to a server in a round by one
/// transport, tries that wait at once, late tries.
pub fn transactions_stay_bounded()
    ensures { TransactionsStayBounded }
{}

/// A tick at the moment up to which a transaction waits, or past it, has it wait for less: of fewer servers a try or a wait
/// for a channel is left, or of fewer tries a channel that failed is still to be noted.
pub fn each_tick_lowers()
    ensures { EachTickLowers }
{}

/// Those are told that a transaction is over who were given an asker of it and did not forget it, all of them and no
/// others, each once; and each of them asked what is told, of the same servers.
pub fn who_asks_is_told()
    ensures { WhoAsksIsTold }
{}

/// A transaction that was told to be over is never told so again, no asker of it is told anything again, and nobody is
/// given an asker of it any more.
pub fn over_once()
    ensures { OverOnce }
{}

/// Who asks is told that there is no server where the group was given none, and that there is no place where there is
/// none; else an asker is given.
pub fn asked_is_answered()
    ensures { AskedIsAnswered }
{}

/// Each channel is opened to a server that the group of its transaction had when it was asked, by the address and the
/// local address that it was given with, to the port that it was given for what goes over the channel, and under a number
/// under which none was opened before.
pub fn opens_to_own_servers()
    ensures { OpensToOwnServers }
{}

/// Each message is sent on a channel that was opened and was not closed since, and each channel that is closed is such a
/// one.
pub fn channels_are_used_open()
    ensures { ChannelsAreUsedOpen }
{}

/// Where no more than a timeout was noted of a transaction, at no moment was more noted; and where nothing was to come
/// of a server any more in a round, its time had passed, or its channel had failed.
pub fn timeouts_are_alone()
    ensures { TimeoutsAreAlone }
{}

/// Each transaction stands in the table, or is worked on: no number stands twice.
pub fn each_transaction_stands_once()
    ensures { EachTransactionStandsOnce }
{}

/// Each transaction, in the table or in hand, stands among the deadlines under its own moment, and under no other.
pub fn deadlines_agree()
    ensures { DeadlinesAgree }
{}

/// What a transaction keeps in mind of its tries are tries of it on channels; and of each channel that is open it keeps
/// all of its tries there in mind.
pub fn tries_agree()
    ensures { TriesAgree }
{}

/// Where nothing is left to be done all that came was read, but for less than a message of each stream: no message, no
/// failure and no whole message of a stream is held.
pub fn all_is_read_at_rest()
    ensures { AllIsReadAtRest }
{}

/// The servers that a transaction asks are kept as long as it asks them, also where its group has others since.
pub fn servers_are_kept()
    ensures { ServersAreKept }
{}

/// There is always a next step, so that what is said of whatever it does is said of something.
pub fn always_steps()
    ensures { AlwaysSteps }
{}

/// Where steps are all that happens, the transaction that is worked on is put away, or over, after finitely many of them.
pub fn each_is_put_away()
    ensures { EachIsPutAway }
{}

/// Where steps are all that happens, nothing is left to be done after finitely many of them: a pool comes to rest, whatever
/// came before.
pub fn each_comes_to_rest()
    ensures { EachComesToRest }
{}

/// It ends: where steps are all that happens, and a tick at the next deadline, or later, wherever nothing is left to be
/// done, no transaction is left after finitely many steps and ticks.
pub fn each_comes_to_end()
    ensures { EachComesToEnd }
{}

/// Nobody who asks is lost: who was given an asker, and did not forget it, was told that its transaction is over; or
/// the transaction is there still, also where it waits for a place.
pub fn no_asker_is_lost()
    ensures { NoAskerIsLost }
{}

/// Each who asks is told: where steps are all that happens, and a tick at the next deadline, or later, wherever nothing
/// is left to be done, all who were given an asker, and did not forget it, were told after finitely many of them.
pub fn each_asker_is_told()
    ensures { EachAskerIsTold }
{}
