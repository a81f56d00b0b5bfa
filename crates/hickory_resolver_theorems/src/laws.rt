//! Laws of the definitions.
ghost use Rattle.std.specs.Prelude.{◌≡◌, ℕ, Bool, List, [], length, ◌≤◌, Result};
ghost use Rattle.hickory_proto_core.specs.Name.{NameValue};
ghost use Rattle.hickory_proto_core.specs.Records.{RecordValue};
ghost use Rattle.hickory_proto_core.specs.Recorded.{RecordedAs};
ghost use Rattle.hickory_proto_core.specs.Table.{TableValue};
ghost use Rattle.hickory_proto_core.specs.declared.query.Query.{Query};
ghost use Rattle.hickory_proto_core.specs.declared.recorded.Exchange.{Exchange};
ghost use Rattle.hickory_proto_core.specs.codes.record_type.RecordType.{RecordType};
ghost use Rattle.hickory_proto_core.specs.names.name_error.NameError.{NameError};
ghost use Rattle.hickory_resolver_model.specs.Attempts.{Search, attempts};
ghost use Rattle.hickory_resolver_theorems.specs.AttemptLaws.{AreAttemptsApart};
ghost use Rattle.hickory_resolver_model.specs.Cache.{CacheValue, IsCache, without_query};
ghost use Rattle.hickory_resolver_model.specs.Hops.{LookupContext, IsReply, IsReplyOver};
ghost use Rattle.hickory_resolver_model.specs.Lookup.{LookupResult};
ghost use Rattle.hickory_resolver_model.specs.Hosts.{Host};
ghost use Rattle.hickory_resolver_model.specs.Calls.{CallContext, SubLookup, IsAnsweredFor, asks_of_sub_lookups};
ghost use Rattle.hickory_resolver_model.specs.Resolver.{ResolverValue, AnswersCall};
ghost use Rattle.hickory_resolver_model.specs.Run.{Settings, Call, after_clear, call_context_at, RequestValue, StepReply, StepValue, IsServed, Run};
ghost use Rattle.hickory_resolver_theorems.specs.Keeping.{IsServedOver};
ghost use Rattle.hickory_resolver_theorems.specs.Statements.{IsFresh, IsTransparent, IsOneCacheless, Headline};
ghost use Rattle.hickory_resolver_theorems.specs.Provenance.{HasProvenance};
ghost use Rattle.hickory_resolver_theorems.specs.Aliases.{NoAliasOutlives};
ghost use Rattle.hickory_resolver_theorems.specs.Interleaved.{IsPromisedInterleaving};
ghost use Rattle.hickory_resolver_theorems.specs.InterleavedCalls.{IsPromisedCallInterleaving};
ghost use Rattle.hickory_resolver_theorems.specs.CallReplies.{ArePromisedCallReplies, IsOneCachelessCall};
ghost use Rattle.hickory_resolver_theorems.specs.OneAtATime.{IsOneAtATime};
ghost use Rattle.hickory_resolver_theorems.specs.OneCallAtATime.{IsOneCallAtATime};
ghost use Rattle.hickory_resolver_theorems.specs.Resumed.{IsDrivenAlike, IsPromisedOver};
ghost use Rattle.hickory_resolver_theorems.specs.ResumingCalls.{IsCallDrivenAlike};
ghost use Rattle.hickory_resolver_theorems.specs.CallFacts.{IsPromisedCall, KeepsWhatIsKnown};
ghost use Rattle.hickory_resolver_theorems.specs.WalkLaws.{IsOneWalk};

use hickory_proto_core::DnsHandle;

/// A question has exactly one walk over the answers to it, that of the definition: one list of places, at each of
/// which the record counts, and none that would count is left out; its TTL is the least of a day and theirs. For
/// every type and for CNAMEs nothing is walked.
pub fn one_walk()
    ensures { (q : Query) (answers : List RecordValue) → IsOneWalk q answers }
{}

/// No two attempts at a name are equal, but for a raw name that stands first; a fully qualified name is
/// attempted alone.
pub fn attempts_apart()
    ensures { (s : Search) (n : NameValue) → AreAttemptsApart s n }
{}

/// There is an attempt at every name.
pub fn some_attempt()
    ensures { (s : Search) (n : NameValue) → attempts s n ≡ [] → ⊥ }
{}

/// A look-up that is what the hops say makes eight exchanges at most, whatever the caches were that its hops read.
pub fn eight_questions()
    ensures { (s : LookupContext) (caches : List CacheValue) (question : Query) (asks : List Exchange)
        (result : LookupResult) (after : CacheValue) → IsReplyOver s caches question asks result after
        → length asks ≤ 8 }
{}

/// A look-up that is what the hops say is fresh: where the least TTL of the asked type is zero, and some dated
/// exchanges cover the entries before it, no answer of that type that it gives or stores outlives what those or its
/// own exchanges brought.
pub fn nothing_outlives()
    ensures { (s : LookupContext) (caches : List CacheValue) (question : Query) (asks : List Exchange)
        (result : LookupResult) (after : CacheValue) → IsReplyOver s caches question asks result after
        → IsFresh s question asks result after }
{}

/// A look-up that is what the hops say, over what a cache may hold, has provenance: where the least TTL of the
/// asked type is zero, no answer of that type that it gives or stores outlives what its own exchanges brought
/// or what the answers of the current entries of that type held.
pub fn every_answer_has_a_source()
    ensures { (s : LookupContext) (caches : List CacheValue) (question : Query) (asks : List Exchange)
        (result : LookupResult) (after : CacheValue) → IsCache s.cache.config s.cache.capacity s.cache.entries
        → (reply : IsReplyOver s caches question asks result after)
        → HasProvenance s caches question asks result after reply }
{}

/// A look-up that is what the hops say lets no alias outlive its CNAMEs: where the least TTL of CNAMEs is zero, what it
/// stores under the question of a hop, and what it answers where its first question was asked, is usable no longer than
/// each CNAME that counted from that hop on, and than the entry that was hit at its end.
pub fn no_alias_outlives()
    ensures { (s : LookupContext) (caches : List CacheValue) (question : Query) (asks : List Exchange)
        (result : LookupResult) (after : CacheValue) → (reply : IsReplyOver s caches question asks result after)
        → NoAliasOutlives s caches question asks result after reply }
{}

/// A look-up that is what the hops say, and preserves no intermediate records, is transparent: under every table
/// that tells its exchanges and means the entries before it, where its question means something that takes eight
/// questions at most, it comes to that meaning without a cache, or out of memory, and the entries after it are meant.
pub fn a_cache_changes_no_answer()
    ensures { (s : LookupContext) (caches : List CacheValue) (question : Query) (asks : List Exchange)
        (result : LookupResult) (after : CacheValue) → IsReplyOver s caches question asks result after
        → IsTransparent s question asks result after }
{}

/// A look-up that is started, and fed at once with what comes back to each of its questions, comes to what one that
/// blocks does; and each that blocks can be driven so, where memory does not run out.
pub fn a_driven_look_up_blocks()
    ensures { (s : LookupContext) (question : Query) (asks : List Exchange) (result : LookupResult)
        (after : CacheValue) → IsDrivenAlike s question asks result after }
{}

/// A call that is started, and fed at once with what comes back to each of its questions, comes to what one that blocks
/// does; and each that blocks can be driven so, where memory does not run out.
pub fn a_driven_call_blocks()
    ensures { (s : CallContext) (settings : Settings) (call : Call) (before : CacheValue) (asks : List Exchange)
        (result : LookupResult) (after : CacheValue)
        → IsCallDrivenAlike s settings call before asks result after }
{}

/// A look-up whose hops each read the cache that stood when the hop was taken, whatever changed it in between, keeps
/// the promises of one over one cache.
pub fn changing_caches_keep_the_promises()
    ensures { (s : LookupContext) (caches : List CacheValue) (question : Query) (asks : List Exchange)
        (result : LookupResult) (after : CacheValue) → (reply : IsReplyOver s caches question asks result after)
        → IsPromisedOver s caches question asks result after reply }
{}

/// Over every list of events, from a cache without entries: each look-up keeps its promises, whatever others start, go
/// on, end, store, evict and clear between its steps.
pub fn every_interleaving_keeps_the_promises()
    ensures { (preserve : Bool) (empty : CacheValue) → IsPromisedInterleaving preserve empty }
{}

/// Every run is a list of such events in which no look-up waits: one look-up at a time.
pub fn a_run_is_one_look_up_at_a_time()
    ensures { (s : Settings) (before : CacheValue) (requests : List RequestValue) (steps : List StepValue)
        (exchanges : List Exchange) (after : CacheValue) (run : Run s before requests steps exchanges after)
        → IsOneAtATime s before requests steps exchanges after run }
{}

/// Calls of a resolver in flight over one cache, in any order, are look-ups in flight: each call that is done is made
/// of sub-look-ups, as one that blocks, and each of these was answered by a table of hosts that stood, or keeps the
/// promises of a look-up.
pub fn interleaved_calls_keep_the_promises()
    ensures { (s : Settings) (empty : CacheValue) (first : List Host) → IsPromisedCallInterleaving s empty first }
{}

/// What each of these calls answers, both families as one, after all its attempts: each sub-look-up sends eight questions
/// at most; where the asked type's least TTL is zero, no answer of that type that the client gave outlives what was
/// received, for this call or another; and where equal questions got equal outcomes, no chain needed a ninth question and
/// intermediate records are not preserved,
/// it is what the call comes to without a cache, or out of memory.
pub fn interleaved_replies_keep_the_promises()
    ensures { (s : Settings) (empty : CacheValue) (first : List Host) → ArePromisedCallReplies s empty first }
{}

/// Every run, as long as memory does not run out, is a list of events of such calls, with one call in flight at a time.
pub fn a_run_is_one_call_at_a_time()
    ensures { (s : Settings) (before : CacheValue) (requests : List RequestValue) (steps : List StepValue)
        (exchanges : List Exchange) (after : CacheValue) (run : Run s before requests steps exchanges after)
        → IsOneCallAtATime s before requests steps exchanges after run }
{}

/// A look-up that is what the hops say over the exchanges that were answered is so over those that a
/// recording handle kept: an exchange that was answered out of memory, where another outcome or none was
/// kept, can only be the last.
pub fn a_record_keeps_the_reply()
    ensures { (s : LookupContext) (question : Query) (asks kept : List Exchange) (result : LookupResult)
        (after : CacheValue) → IsReply s question asks result after → RecordedAs asks kept
        → IsReply s question kept result after }
{}

/// A request that is served over the exchanges that were answered is served over those that a recording handle
/// kept, each sub-look-up with its own of them.
pub fn a_record_keeps_the_request()
    ensures { (s : Settings) (before : CacheValue) (request : RequestValue) (parts : List SubLookup)
        (reply : StepReply) (after : CacheValue) (kept : List Exchange)
        → IsServed (λ now. IsAnsweredFor (call_context_at s now)) s before request parts reply after
        → RecordedAs (asks_of_sub_lookups parts) kept → IsServedOver s before request kept reply after }
{}

/// A request has one cacheless reply, times and out of memory aside.
pub fn one_cacheless_reply()
    ensures { (table : TableValue) (s : Settings) (cache : CacheValue) (request : RequestValue)
        → IsOneCacheless table s cache request }
{}

/// A call over one table of hosts, which is never replaced, has one cacheless reply, times and out of memory aside.
pub fn one_cacheless_call()
    ensures { (table : TableValue) (s : Settings) (empty : CacheValue) (hosts : List Host) (now : ℕ) (call : Call)
        → IsOneCachelessCall table s empty hosts now call }
{}

/// The headline holds of every run from an empty cache on, whatever the requests and whatever came back.
pub fn headline()
    ensures { (s : Settings) (empty : CacheValue) (requests : List RequestValue) (steps : List StepValue)
        (exchanges : List Exchange) (after : CacheValue) (run : Run s empty requests steps exchanges after)
        → empty.entries ≡ [] → Headline s empty requests steps exchanges after run }
{}

/// A call of a resolver that is what the definition says, over what a cache may hold, keeps its promises: what holds of
/// a look-up of the client is carried over its attempts.
pub fn a_call_keeps_its_promises<H: DnsHandle>()
    ensures { (now : ℕ) (call : Call) (before : ResolverValue H) (result : LookupResult) (after : ResolverValue H)
        → IsCache before.client.cache.config before.client.cache.capacity before.client.cache.entries
        → AnswersCall H.step now call before result after → IsPromisedCall H.step now call before result after }
{}

/// What is known of the entries of a cache is known after a clear, of all, of a question, or of a name's attempts.
pub fn a_clear_keeps_what_is_known()
    ensures all { (cache : CacheValue) → KeepsWhatIsKnown cache (record cache { entries = [] }) }
    ensures question { (cache : CacheValue) (q : Query) → KeepsWhatIsKnown cache (without_query cache q) }
    ensures attempts { (s : Settings) (t : RecordType) (name : Result NameValue NameError) (cache : CacheValue)
        → KeepsWhatIsKnown cache (after_clear s t name cache) }
{}
