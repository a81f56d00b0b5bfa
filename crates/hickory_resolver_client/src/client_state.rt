//! The part of a client that does no I/O: it says which question is to be sent, and goes on with what came back.
ghost use Rattle.std.specs.Prelude.{◌≡◌, ◌≤◌, ◌∷◌, [], length, Ok, Err};
ghost use Rattle.hickory_proto_core.specs.ResponseKind.{ResponseKind, Answer, IsClassified};
ghost use Rattle.hickory_proto_core.specs.declared.net_error.NetError.TheVariants.{Dns};
ghost use Rattle.hickory_proto_core.specs.declared.net_error.DnsError.TheVariants.{NoRecordsFound};
ghost use Rattle.hickory_resolver_model.specs.Cache.{IsCache, last_moment, without_query};
ghost use Rattle.hickory_resolver_model.specs.Lookup.{found_lookup};
ghost use Rattle.hickory_resolver_model.specs.Hops.{store_of};
ghost use Rattle.hickory_resolver_model.specs.Resuming.{Starts, Resumes, ComesTo};
ghost use Rattle.hickory_resolver_theorems.specs.CallFacts.{KeepsWhatIsKnown};
ghost use Rattle.hickory_resolver_client.specs.Contexts.{state_context, progress_of};
ghost use Rattle.hickory_resolver_client.specs.Steps.{NeverFailsNegative, SettledAs, IsSettled, IsFinished};

use crate::results::{
    alias_limit, classify, found_lookup, insert_negative, is_kept, lookup_of_hit, no_match,
    result_until, store_under_passed,
};
use crate::special_use::special_use_result;
use crate::verdict::{Hop, Judged, Verdict, verdict_of};
use crate::waiting::{Passed, Progress, Waiting};
use hickory_proto_core::{DnsResponse, Message, NetError, NoRecords, Outcome, Query};
use hickory_resolver_cache::ResponseCache;
use hickory_resolver_lookup::Lookup;
use std::hash::{BuildHasher, BuildHasherDefault, FoldHasher};
use std::marker::Model;

/// The part of a client that has no handle. What came back to the questions of its look-ups is kept in a cache,
/// and those are not asked again while it is current.
///
/// Several look-ups may wait at a time. Each of their hops reads the cache as it stands when the hop is taken,
/// with what the others kept in between.
#[derive(Drop)]
pub struct ClientState<S: BuildHasher = BuildHasherDefault<FoldHasher>> {
    cache: ResponseCache<S>,
    preserve_intermediates: bool,
}

// What came of a hop that was asked.
#[derive(Drop)]
enum HopStep {
    // Its alias leads to another hop.
    Next {
        asked: Query,
        limit: u64,
        next: Hop,
    },
    // The look-up ends here. What is made of the result is current up to the limit at the most.
    Done {
        result: Result<Lookup, NetError>,
        limit: u64,
    },
}

impl<S: BuildHasher> Model for ClientState<S> {
    ghost use Rattle.hickory_resolver_client.specs.Contexts.{ClientStateValue};

    ghost Value = { ClientStateValue };

    ghost view = { λ c. record { cache = c.cache; preserve_intermediates = c.preserve_intermediates } };
}

impl<S: BuildHasher> ClientState<S> {
    /// Over this cache. The flag says whether the aliases on the way are given beside the records.
    pub fn with_cache(cache: ResponseCache<S>, preserve_intermediates: bool) -> ClientState<S>
        ensures { result ≡ record { cache = cache; preserve_intermediates = preserve_intermediates } }
    {
        ClientState {
            cache,
            preserve_intermediates,
        }
    }

    /// The cache.
    pub fn cache(&self) -> &ResponseCache<S>
        ensures { result.now ≡ self.now.cache }
    {
        &self.cache
    }

    /// Empties the cache. Takes no memory.
    pub fn clear_cache(&mut self)
        ensures cleared { self.new ≡ record self.old { cache = record self.old.cache { entries = [] } } }
        ensures keeps { KeepsWhatIsKnown self.old.cache self.new.cache }
    {
        self.cache.clear();
    }

    /// Drops what the cache has for a question. Takes no memory.
    pub fn clear_cache_query(&mut self, query: &Query)
        ensures cleared { self.new ≡ record self.old { cache = without_query self.old.cache query.now } }
        ensures keeps { KeepsWhatIsKnown self.old.cache self.new.cache }
    {
        self.cache.clear_query(query);
    }

    /// Starts a look-up of a question at a moment (seconds). It is done where the name is special, or the cache
    /// has a current entry for the question; else it waits for what comes back to the question.
    pub fn start(&mut self, query: Query, now: u64) -> Progress<Waiting>
        ensures starts { Starts (state_context self.old now) query (progress_of result) self.new.cache }
        ensures stays { self.new.preserve_intermediates ≡ self.old.preserve_intermediates }
        ensures cache { IsCache self.old.cache.config self.old.cache.capacity self.old.cache.entries }
    {
        let alloc = self.cache.allocator();
        let hop = Hop {
            query,
            preserved: Vec::new(alloc),
        };
        self.come_to(Vec::new(alloc), hop, now)
    }

    /// Goes on with a look-up by what came back to its question. An alias leads to the next hop, which is done at
    /// a special name or a current entry, or waits in its turn; eight questions are asked at most, and an alias
    /// too many comes to no records. Where the look-up is done, what the last question got is kept where it is an
    /// answer or a negative answer, and then the result under each question before it, from the last to the first
    /// (RFC 1034, section 3.6.2; RFC 2308, section 5), all as of the moment of its start. Where memory runs out,
    /// a beginning of this was done.
    pub fn resume(&mut self, waiting: Waiting, outcome: Outcome) -> Progress<Waiting>
        ensures resumes { Resumes (state_context self.old waiting.now) waiting outcome
            (progress_of result) self.new.cache }
        ensures stays { self.new.preserve_intermediates ≡ self.old.preserve_intermediates }
    {
        let Waiting {
            moment: now,
            mut passed,
            hop,
        } = waiting;
        let depth = passed.len();
        match self.settle(hop, classify(outcome), now, depth) {
            Ok(HopStep::Next { asked, limit, next }) => {
                let asked = Passed {
                    query: asked,
                    limit,
                };
                match passed.push(asked) {
                    Ok(()) => self.come_to(passed, next, now),
                    Err(_) => Progress::Done(Err(NetError::OutOfMemory)),
                }
            }
            Ok(HopStep::Done { result, limit }) => {
                Progress::Done(self.finish(passed, result, limit, true, now))
            }
            Err(error) => Progress::Done(Err(error)),
        }
    }

    // Comes to a hop: the reply of a special name, or a hit, or else its question is to be sent.
    fn come_to(&mut self, passed: Vec<Passed>, hop: Hop, now: u64) -> Progress<Waiting>
        requires { length passed.items ≤ 7 }
        ensures comes { ComesTo (state_context self.old now) passed.items hop (progress_of result) self.new.cache }
        ensures stays { self.new.preserve_intermediates ≡ self.old.preserve_intermediates }
    {
        let Hop { query, preserved } = hop;
        if let Some(result) = special_use_result(self.cache.allocator(), &query, now) {
            return Progress::Done(self.finish(passed, result, u64::MAX, false, now));
        }
        if let Some((hit, deadline)) = self.cache.get_with_deadline(&query, now) {
            let result = lookup_of_hit(query, hit, now);
            return Progress::Done(self.finish(passed, result, deadline, false, now));
        }
        let hop = Hop { query, preserved };
        Progress::Waiting(Waiting {
            moment: now,
            passed,
            hop,
        })
    }

    // Keeps the result under each question that was passed, and gives it: where the first question was asked, up
    // to the limit of its hop at the most. A failure is not kept, and given as it is.
    fn finish(
        &mut self,
        passed: Vec<Passed>,
        reply: Result<Lookup, NetError>,
        limit: u64,
        last_asked: bool,
        now: u64,
    ) -> Result<Lookup, NetError>
        ensures finished { IsFinished passed.items reply limit last_asked now self.old.cache result self.new.cache }
        ensures stays { self.new.preserve_intermediates ≡ self.old.preserve_intermediates }
    {
        if !is_kept(&reply) {
            return reply;
        }
        let first_asked = last_asked || !passed.is_empty();
        match store_under_passed(&mut self.cache, passed, &reply, limit, now) {
            Ok(limit) if first_asked => result_until(reply, limit),
            Ok(_) => reply,
            Err(error) => {
                drop(reply);
                Err(error)
            }
        }
    }

    // What a hop that was asked comes to. Its own result is kept where it may be.
    fn settle(
        &mut self,
        hop: Hop,
        response: Result<DnsResponse, NetError>,
        now: u64,
        depth: usize,
    ) -> Result<HopStep, NetError>
        requires { depth ≤ 7 }
        ensures settled { (kind : ResponseKind) → NeverFailsNegative kind → IsClassified kind response
            → IsSettled (state_context self.old now) hop depth kind result self.new.cache }
        ensures stays { self.new.preserve_intermediates ≡ self.old.preserve_intermediates }
    {
        match response {
            Ok(response) => self.settle_answer(hop, response, now, depth),
            Err(error) => match error.into_no_records() {
                Ok(none) => Ok(HopStep::Done {
                    result: self.cache_negative(hop.query, none, now),
                    limit: u64::MAX,
                }),
                Err(error) => Ok(HopStep::Done {
                    result: Err(error),
                    limit: u64::MAX,
                }),
            },
        }
    }

    // An answer: it is accepted, or leads on, or has nothing that was asked for. An alias at the eighth
    // question comes to no records.
    fn settle_answer(
        &mut self,
        hop: Hop,
        response: DnsResponse,
        now: u64,
        depth: usize,
    ) -> Result<HopStep, NetError>
        requires { depth ≤ 7 }
        ensures settled { IsSettled (state_context self.old now) hop depth
            (Answer response) result self.new.cache }
        ensures stays { self.new.preserve_intermediates ≡ self.old.preserve_intermediates }
    {
        let Hop { query, preserved } = hop;
        let Judged { verdict, alias_ttl } = verdict_of(
            self.preserve_intermediates,
            &query,
            preserved,
            response,
        )?;
        let limit = alias_limit(self.cache.ttl_config(), alias_ttl, now);
        match verdict {
            Verdict::Accepted(message) => Ok(HopStep::Done {
                result: self.cache_answer(query, message, limit, now),
                limit,
            }),
            Verdict::LeadsTo { next, response } => {
                if depth < 7 {
                    return Ok(HopStep::Next {
                        asked: query,
                        limit,
                        next,
                    });
                }
                let exhausted = no_match(query, &response);
                Ok(HopStep::Done {
                    result: exhausted,
                    limit,
                })
            }
            Verdict::NoMatch(response) => Ok(HopStep::Done {
                result: no_match(query, &response),
                limit,
            }),
        }
    }

    // An accepted response, kept up to a limit at the most.
    fn cache_answer(
        &mut self,
        query: Query,
        message: Message,
        limit: u64,
        now: u64,
    ) -> Result<Lookup, NetError>
        ensures settled { SettledAs (state_context self.old now)
            (Ok (found_lookup self.old.cache.config query message now))
            (store_of query (Ok message) now limit ∷ []) result self.new.cache }
        ensures stays { self.new.preserve_intermediates ≡ self.old.preserve_intermediates }
    {
        let lookup = found_lookup(self.cache.ttl_config(), &query, &message, now)?;
        self.cache.insert_until(query, Ok(message), now, limit)?;
        Ok(lookup)
    }

    // A negative answer, kept.
    fn cache_negative(
        &mut self,
        query: Query,
        none: NoRecords,
        now: u64,
    ) -> Result<Lookup, NetError>
        ensures settled { SettledAs (state_context self.old now) (Err (Dns (NoRecordsFound none)))
            (store_of query (Err (Dns (NoRecordsFound none))) now last_moment ∷ []) result self.new.cache }
        ensures stays { self.new.preserve_intermediates ≡ self.old.preserve_intermediates }
    {
        match insert_negative(&mut self.cache, query, &none, now) {
            Ok(()) => Err(NetError::from(none)),
            Err(error) => {
                drop(none);
                Err(error)
            }
        }
    }
}
