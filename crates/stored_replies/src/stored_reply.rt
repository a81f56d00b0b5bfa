//! A reply that is stored, and what clients are told of it.
ghost use Rattle.std.specs.Prelude.{◌≡◌, ◌≤◌, ◌+◌, ◌++◌, true, false, nat_lt, length, drop, IfOk, ℕ, List, Bool};
ghost use Rattle.std.specs.Option.{option_map};
ghost use Rattle.hickory_proto_codes.specs.Codes.{response_code};
ghost use Rattle.client_queries.specs.Refusals.{count_of};
ghost use Rattle.stored_replies.specs.Key.{is_same_question};
ghost use Rattle.stored_replies.specs.Stored.{stored_at, store_fault, Refuses, stored_octets, whole_octets, is_current, read_at, until, record_number, weight_of};
ghost use Rattle.stored_replies.specs.Stale.{stale_of};
ghost use Rattle.stored_replies.specs.Told.{is_told_authentic, told_flags, header_with, told_message, own_question, asks_for, with_question, told_octets, reply_within, put_in, bare_octets, cut_octets, cut_within, opt_length};

use crate::ageing::age;
use crate::choices::{PLACE, REPLY, STALE_TTL};
use crate::key::is_same_question;
use crate::places::{behind, octet_at};
use crate::reading::kept_in;
use crate::room::{lower_ttls, put_at, set_ttls};
use crate::store_error::StoreError;
use crate::storing::{behind_question, places_of, written};
use crate::told::{first, header, is_told_authentic, opt_length, put_opt, question_in, told_flags};
use client_queries::ClientQuery;
use hickory_proto_core::Query;
use std::alloc::{AllocError, Global};
use std::marker::Model;
use whole_replies::KeptReply;

/// The octets of a reply as `to_wire` writes it, and the places of its TTLs in them.
#[derive(Debug, Drop)]
pub struct StoredReply {
    octets: Vec<u8>,
    places: Vec<u16>,
    // The position behind the question.
    question_end: usize,
    code: u16,
    authentic_data: bool,
    seconds: u32,
    moment: u64,
}

impl Model for StoredReply {
    ghost use Rattle.hickory_proto_wire.specs.Messages.{spelled_message};
    ghost use Rattle.stored_replies.specs.Stored.{StoredValue, stored_in};
    ghost use Rattle.stored_replies.specs.Walk.{IsStored};

    ghost Value = { StoredValue };

    ghost view = { λ s. stored_in (spelled_message s.octets.items) s.seconds s.moment };

    ghost invariant = { λ s. IsStored s.octets.items s.places.items s.question_end s.code s.authentic_data
        (stored_in (spelled_message s.octets.items) s.seconds s.moment) };
}

impl StoredReply {
    /// What is stored of a reply to a question that is kept from this second on. Each code that has a name is seen by
    /// its name; a reply that was read from octets stays as it is.
    ///
    /// # Errors
    /// `Unwritable` where `to_wire` refuses to write it, in at most `LONGEST` octets; then `TooLong`, where it has
    /// more.
    pub fn of(
        alloc: Global,
        query: &Query,
        kept: KeptReply,
        now: u64,
    ) -> Result<StoredReply, StoreError>
        ensures stored { IfOk result (λ s. s ≡ stored_at query.now kept now) }
        ensures fault { Refuses result (store_fault query.now kept) }
    {
        let (seconds, authentic_data, code) = (kept.seconds, kept.authentic_data, kept.code.code());
        let (message, octets) = written(alloc, query, kept)?;
        let records = behind_question(query, &octets);
        let question_end = octets.as_slice().len().saturating_sub(records.len());
        let places = places_of(alloc, &message.message, &octets, records)?;
        Ok(StoredReply {
            octets,
            places,
            question_end,
            code,
            authentic_data,
            seconds,
            moment: now,
        })
    }

    /// Whether it may be told at this second.
    pub fn is_current(&self, now: u64) -> bool
        ensures { result ≡ is_current self.now now }
    {
        now.saturating_sub(self.moment) <= u64::from(self.seconds)
    }

    /// The last second at which it may be told.
    pub fn until(&self) -> u64
        ensures { result ≡ until self.now }
    {
        self.moment.saturating_add(u64::from(self.seconds))
    }

    /// Its response code.
    pub fn code(&self) -> u16
        ensures { result ≡ response_code self.now.kept.code }
    {
        self.code
    }

    /// What is kept of the reply, read again from its octets, as it has aged at this second. None where its names take
    /// more labels than `from_wire` reads of one message.
    pub fn kept_at(&self, alloc: Global, now: u64) -> Result<Option<KeptReply>, AllocError>
        ensures { IfOk result (λ kept. kept ≡ read_at now self.now) }
    {
        match kept_in(alloc, &self.octets, self.seconds)? {
            Some(mut kept) => {
                age(&mut kept, now.saturating_sub(self.moment));
                Ok(Some(kept))
            }
            None => Ok(None),
        }
    }

    /// How many octets of memory it takes.
    pub fn weight(&self) -> u64
        ensures { result ≡ weight_of self.now }
    {
        let octets = self.octets.as_slice().len() as u64;
        let places = self.places.as_slice().len() as u64;
        REPLY
            .saturating_add(octets)
            .saturating_add(places.saturating_mul(PLACE))
    }

    /// The question that it answers, as the octets that were stored of it.
    pub fn question(&self) -> &[u8]
        ensures { result.now ≡ own_question self.now }
    {
        first(self.question_end - 12, behind(12, &self.octets))
    }

    /// Whether this question, as octets, is the one that it answers.
    pub fn is_for(&self, question: &[u8]) -> bool
        ensures { result ≡ is_same_question question.now (own_question self.now) }
    {
        is_same_question(question, self.question())
    }

    /// How many octets the reply to a query has that asks for it. With OPT they may be more than a message over a
    /// stream has (RFC 1035, section 4.2.2).
    pub fn length(&self, query: &ClientQuery) -> usize
        ensures value { result ≡ length (stored_octets self.now) + opt_length query.now.edns }
        ensures told { (octets : List ℕ) (trust : Bool) (now : ℕ) → asks_for octets query.now self.now ≡ true
            → length (told_octets octets query.now self.now trust now) ≡ result }
    {
        self.octets.as_slice().len() + opt_length(query.edns)
    }

    /// Writes the reply to a query, whose octets these are, to the front of a room, and answers how many octets it has.
    /// It has the number and the question of the query, and the records as they have aged at this second. With `trust`
    /// it says AD where the stored reply does and the query wants to know. None, and the room as it was, where the
    /// query does not ask for it, or the room is too small. Takes no memory.
    pub fn write(
        &self,
        octets: &[u8],
        query: &ClientQuery,
        trust: bool,
        now: u64,
        room: &mut [u8],
    ) -> Option<usize>
        ensures length { result ≡ option_map length
            (reply_within (length room.old) octets.now query.now self.now trust now) }
        ensures room { room.new ≡ put_in room.old
            (reply_within (length room.old) octets.now query.now self.now trust now) }
    {
        let end = query.question_end?;
        let question = question_in(octets, end);
        if !self.is_for(question) {
            return None;
        }
        let length = self.length(query);
        if room.len() < length {
            return None;
        }
        self.fill(question, query, trust, now, room);
        Some(length)
    }

    /// Writes what a query is told of the reply past its end (RFC 8767, section 4), as `write` does: each TTL is
    /// `STALE_TTL`, and AD is not set.
    pub fn write_stale(&self, octets: &[u8], query: &ClientQuery, room: &mut [u8]) -> Option<usize>
        ensures length { result ≡ option_map length
            (reply_within (length room.old) octets.now query.now (stale_of self.now) false 0) }
        ensures room { room.new ≡ put_in room.old
            (reply_within (length room.old) octets.now query.now (stale_of self.now) false 0) }
    {
        match self.write(octets, query, false, self.moment, room) {
            Some(length) => {
                set_ttls(room, &self.places, STALE_TTL);
                Some(length)
            }
            None => None,
        }
    }

    /// Writes a reply without records, where the whole of it is too long for a datagram, or with OPT for a stream, to
    /// the front of a room, and answers how many octets it has. It says TC where there are records, so that the client
    /// asks again by TCP (RFC 2181, section 9). None, and the room as it was, where the query does not ask for it, or
    /// the room is too small. Takes no memory.
    pub fn write_cut(
        &self,
        octets: &[u8],
        query: &ClientQuery,
        trust: bool,
        room: &mut [u8],
    ) -> Option<usize>
        ensures length { (now : ℕ) → result ≡ option_map length
            (cut_within (length room.old) octets.now query.now self.now trust now) }
        ensures room { (now : ℕ) → room.new ≡ put_in room.old
            (cut_within (length room.old) octets.now query.now self.now trust now) }
    {
        let end = query.question_end?;
        let question = question_in(octets, end);
        if !self.is_for(question) {
            return None;
        }
        let length = self.cut_length(query);
        if room.len() < length {
            return None;
        }
        self.fill_cut(question, query, trust, room);
        Some(length)
    }

    // How many octets a reply without records has.
    fn cut_length(&self, query: &ClientQuery) -> usize
        ensures value { result ≡ 12 + length (own_question self.now) + opt_length query.now.edns }
        ensures told { (octets : List ℕ) (trust : Bool) (now : ℕ) → asks_for octets query.now self.now ≡ true
            → length (cut_octets octets query.now self.now trust now) ≡ result }
    {
        self.question_end + opt_length(query.edns)
    }

    // Writes the reply without records, with this question, which is as long as the stored one.
    fn fill_cut(&self, question: &[u8], query: &ClientQuery, trust: bool, room: &mut [u8])
        requires asked { is_same_question question.now (own_question self.now) ≡ true }
        requires fits { 12 + length (own_question self.now) + opt_length query.now.edns ≤ length room.old }
        ensures { (now : ℕ) →
            let reply = with_question question.now (bare_octets (told_message self.now query.now trust now)) in
            room.new ≡ reply ++ drop (length reply) room.old }
    {
        put_at(room, 0, &self.cut_head(query, trust));
        put_at(room, 12, question);
        put_opt(room, self.question_end, query.edns);
    }

    // The header of the reply without records.
    fn cut_head(&self, query: &ClientQuery, trust: bool) -> [u8; 12]
        ensures { result ≡ header_with query.now.id
            (told_flags query.now.flags (nat_lt 0 (record_number self.now.kept))
            (is_told_authentic trust self.now.kept query.now) (response_code self.now.kept.code))
            1 0 0 (count_of query.now.edns) }
    {
        let authentic = is_told_authentic(trust, self.authentic_data, query);
        let truncated = 0 < self.places.as_slice().len();
        let flags = told_flags(query.flags, truncated, authentic, self.code);
        header(query, flags, [0, 0, 0, 0])
    }

    // Writes the reply with this question, which is as long as the stored one.
    fn fill(&self, question: &[u8], query: &ClientQuery, trust: bool, now: u64, room: &mut [u8])
        requires asked { is_same_question question.now (own_question self.now) ≡ true }
        requires fits { length (stored_octets self.now) + opt_length query.now.edns ≤ length room.old }
        ensures { let reply = with_question question.now (whole_octets (told_message self.now query.now trust now)) in
            room.new ≡ reply ++ drop (length reply) room.old }
    {
        let end = self.octets.as_slice().len();
        put_at(room, 0, &self.head(query, trust));
        put_at(room, 12, question);
        put_at(
            room,
            self.question_end,
            behind(self.question_end, &self.octets),
        );
        lower_ttls(room, &self.places, now.saturating_sub(self.moment));
        put_opt(room, end, query.edns);
    }

    // The header of the reply.
    fn head(&self, query: &ClientQuery, trust: bool) -> [u8; 12]
        ensures { result ≡ header_with query.now.id
            (told_flags query.now.flags false (is_told_authentic trust self.now.kept query.now)
            (response_code self.now.kept.code))
            1 (length self.now.kept.answers) (length self.now.kept.authorities) (count_of query.now.edns) }
    {
        let authentic = is_told_authentic(trust, self.authentic_data, query);
        let flags = told_flags(query.flags, false, authentic, self.code);
        let octets = &self.octets;
        let counts = [
            octet_at(octets, 6),
            octet_at(octets, 7),
            octet_at(octets, 8),
            octet_at(octets, 9),
        ];
        header(query, flags, counts)
    }
}
