//! What came and was not read yet.
ghost use Rattle.std.specs.Prelude.{◌≡◌, ◌++◌, ◌∷◌, ◌+◌, ◌≤◌, [], length, take, drop, option_copied, slice_get, MatchOption, IfOk, OnOk, OnErr, None, Some};
ghost use Rattle.std.specs.Ordering.{nat_cmp};
ghost use Rattle.std.specs.Map.{remove_entry, set_value};
ghost use Rattle.std.specs.BTreeMap.{is_at};
ghost use Rattle.std.specs.Option.{option_map};
ghost use Rattle.hickory_resolver_tries.specs.Stream.{first_of};
ghost use Rattle.hickory_resolver_traffic.specs.Inbox.{empty_inbox, message_on, with_message, first_message, without_message, with_failure, first_failure, without_failure, octets_in, with_octets, with_piece, first_unread, without_unread, is_read, without_stream, first_on, cut_off, cut_on};

use std::alloc::{AllocError, Global};
use std::collections::{BTreeMap, VecDeque};
use std::marker::Model;

/// A message that came on a channel.
#[derive(Drop)]
pub struct CameMessage {
    /// The channel.
    pub channel: u64,
    /// Its octets.
    pub octets: Vec<u8>,
}

impl Model for CameMessage {
    ghost use Rattle.hickory_resolver_traffic.specs.Inbox.{MessageValue};

    ghost Value = { MessageValue };

    ghost view = { λ m. record { channel = m.channel; octets = m.octets.items } };
}

/// Why a channel failed.
#[derive(Clone, Copy, Debug, PartialEq, Eq)]
pub enum Failure {
    /// Nobody listens there.
    Refused,
    /// The server cannot be reached.
    Unreachable,
    /// The stream was closed.
    Closed,
    /// It could not be opened here: no descriptor or no port was left.
    Local,
}

/// A channel failed.
#[derive(Clone, Copy, Debug, PartialEq, Eq)]
pub struct ChannelFailure {
    /// The channel.
    pub channel: u64,
    /// Why.
    pub why: Failure,
}

/// The octets of a stream that are not read yet. Those that are read are let go once more come, so that a piece with
/// many messages is moved once.
#[derive(Drop)]
pub struct StreamOctets {
    octets: Vec<u8>,
    // How many of them are read.
    read: usize,
}

impl Model for StreamOctets {
    ghost use Rattle.std.specs.Prelude.{◌≤◌, ℕ, List, length, drop};

    ghost Value = { List ℕ };

    ghost view = { λ s. drop s.read s.octets.items };

    ghost invariant = { λ s. s.read ≤ length s.octets.items };
}

/// Streams by channel.
pub type Streams = BTreeMap<u64, StreamOctets>;

/// What came and was not read yet.
#[derive(Drop)]
pub struct Inbox {
    alloc: Global,
    messages: VecDeque<CameMessage>,
    failures: VecDeque<ChannelFailure>,
    streams: Streams,
    unread: VecDeque<u64>,
}

impl Model for Inbox {
    ghost use Rattle.hickory_resolver_traffic.specs.Inbox.{InboxState};

    ghost Value = { InboxState };

    ghost view = { λ i. record {
      messages = i.messages.items;
      failures = i.failures.items;
      streams = i.streams.entries;
      unread = i.unread.items;
    } };
}

impl Inbox {
    /// Nothing came.
    pub fn new(alloc: Global) -> Inbox
        ensures { result ≡ empty_inbox }
    {
        Inbox {
            alloc,
            messages: VecDeque::new(alloc),
            failures: VecDeque::new(alloc),
            streams: BTreeMap::new(alloc),
            unread: VecDeque::new(alloc),
        }
    }

    // ---- messages

    /// A message came. A refused call changes nothing.
    pub fn push_message(&mut self, channel: u64, octets: &[u8]) -> Result<(), AllocError>
        ensures ok { OnOk result (self.new ≡ with_message channel octets.now self.old) }
        ensures err { OnErr result (self.new ≡ self.old) }
    {
        let octets = Vec::from_slice(self.alloc, octets)?;
        self.messages.push_back(CameMessage { channel, octets })?;
        Ok(())
    }

    /// The first message.
    pub fn first_message(&self) -> Option<&CameMessage>
        ensures { option_copied result ≡ first_message self.now }
    {
        self.messages.front()
    }

    /// The first message is read.
    pub fn pop_message(&mut self)
        ensures { self.new ≡ without_message self.old }
    {
        drop(self.messages.pop_front());
    }

    // ---- channels that failed

    /// A channel failed. A refused call changes nothing.
    pub fn push_failure(&mut self, failure: ChannelFailure) -> Result<(), AllocError>
        ensures ok { OnOk result (self.new ≡ with_failure failure self.old) }
        ensures err { OnErr result (self.new ≡ self.old) }
    {
        self.failures.push_back(failure)?;
        Ok(())
    }

    /// The first channel that failed.
    pub fn first_failure(&self) -> Option<ChannelFailure>
        ensures { result ≡ first_failure self.now }
    {
        self.failures.front().copied()
    }

    /// The first failure is done with.
    pub fn pop_failure(&mut self)
        ensures { self.new ≡ without_failure self.old }
    {
        self.failures.pop_front();
    }

    // ---- streams

    /// A piece of a stream came. A refused call changes nothing.
    pub fn push_piece(&mut self, channel: u64, octets: &[u8]) -> Result<(), AllocError>
        ensures ok { OnOk result (self.new ≡ with_piece channel octets.now self.old) }
        ensures err { OnErr result (self.new ≡ self.old) }
    {
        self.unread.reserve(1)?;
        add_octets(&mut self.streams, self.alloc, channel, octets)?;
        self.unread.push_back_reserved(channel);
        Ok(())
    }

    /// The first stream of which more came.
    pub fn first_unread(&self) -> Option<u64>
        ensures { result ≡ first_unread self.now }
    {
        self.unread.front().copied()
    }

    /// Whether nothing that came is still to be read.
    pub fn is_read(&self) -> bool
        ensures { result ≡ is_read self.now }
    {
        self.first_failure().is_none()
            && self.first_message().is_none()
            && self.first_unread().is_none()
    }

    /// A stream is closed.
    pub fn forget_stream(&mut self, channel: u64)
        ensures { self.new ≡ without_stream channel self.old }
    {
        drop(self.streams.remove(&channel));
    }

    /// Cuts the first message off a stream. Where no whole one is left, the first stream of which more came is one
    /// of which nothing is to be read. A refused call changes nothing.
    pub fn cut(&mut self, channel: u64) -> Result<(), AllocError>
        ensures ok { OnOk result (self.new ≡ cut_on channel self.old) }
        ensures err { OnErr result (self.new ≡ self.old) }
    {
        match first_octets(&self.streams, self.alloc, channel)? {
            Some(octets) => self.cut_off(channel, octets),
            None => {
                self.unread.pop_front();
                Ok(())
            }
        }
    }

    // The message of these octets is cut off.
    fn cut_off(&mut self, channel: u64, octets: Vec<u8>) -> Result<(), AllocError>
        ensures ok { OnOk result ((first : _) → first_on channel self.old.streams ≡ Some first
            → octets.items ≡ first.0 → self.new ≡ cut_off channel self.old first) }
        ensures err { OnErr result (self.new ≡ self.old) }
    {
        self.messages.push_back(CameMessage { channel, octets })?;
        drop_first(&mut self.streams, channel);
        Ok(())
    }
}

// More of a stream came. A refused call changes nothing.
fn add_octets(
    streams: &mut Streams,
    alloc: Global,
    channel: u64,
    octets: &[u8],
) -> Result<(), AllocError>
    ensures ok { OnOk result (streams.new.entries ≡ with_octets channel octets.now streams.old.entries) }
    ensures err { OnErr result (streams.new.entries ≡ streams.old.entries) }
{
    if streams.contains_key(&channel) {
        return extend(streams, channel, octets);
    }
    let octets = Vec::from_slice(alloc, octets)?;
    streams.insert(channel, StreamOctets::new(octets))?;
    Ok(())
}

// More of a stream came of which something is there.
fn extend(streams: &mut Streams, channel: u64, octets: &[u8]) -> Result<(), AllocError>
    ensures ok { OnOk result ((held : _) → octets_in channel streams.old.entries ≡ Some held
        → streams.new.entries ≡ set_value (is_at (nat_cmp channel)) streams.old.entries (held ++ octets.now)) }
    ensures err { OnErr result (streams.new.entries ≡ streams.old.entries) }
{
    match streams.get_mut(&channel) {
        Some(held) => held.push(octets),
        None => Ok(()),
    }
}

// The first message of a stream, where a whole one came.
fn first_octets(
    streams: &Streams,
    alloc: Global,
    channel: u64,
) -> Result<Option<Vec<u8>>, AllocError>
    ensures { IfOk result (λ octets. option_map (λ v. v.items) octets
        ≡ option_map (λ first. first.0) (first_on channel streams.now.entries)) }
{
    match streams.get(&channel) {
        Some(held) => first_message_of(alloc, held.unread()),
        None => Ok(None),
    }
}

fn first_message_of(alloc: Global, octets: &[u8]) -> Result<Option<Vec<u8>>, AllocError>
    ensures { IfOk result (λ v. option_map (λ v. v.items) v ≡ option_map (λ first. first.0) (first_of octets.now)) }
{
    match first_len(octets) {
        None => Ok(None),
        Some(len) => {
            let message = Vec::from_slice(alloc, &octets[2..2 + len])?;
            Ok(Some(message))
        }
    }
}

// Without its first message, where a whole one came.
fn drop_first(streams: &mut Streams, channel: u64)
    ensures { (first : _) → first_on channel streams.old.entries ≡ Some first
        → streams.new.entries ≡ set_value (is_at (nat_cmp channel)) streams.old.entries first.1 }
{
    if let Some(held) = streams.get_mut(&channel) {
        held.drop_first();
    }
}

impl StreamOctets {
    fn new(octets: Vec<u8>) -> StreamOctets
        ensures { result ≡ octets.items }
    {
        StreamOctets { octets, read: 0 }
    }

    fn unread(&self) -> &[u8]
        ensures { result.now ≡ self.now }
    {
        &self.octets[self.read..]
    }

    // Lets those go that are read.
    fn let_go(&mut self)
        ensures { self.new ≡ self.old }
    {
        self.octets.drain(..self.read);
        self.read = 0;
    }

    fn push(&mut self, octets: &[u8]) -> Result<(), AllocError>
        ensures ok { OnOk result (self.new ≡ self.old ++ octets.now) }
        ensures err { OnErr result (self.new ≡ self.old) }
    {
        self.let_go();
        self.extend(octets)
    }

    // The same where none is read.
    fn extend(&mut self, octets: &[u8]) -> Result<(), AllocError>
        ensures ok { OnOk result (self.new ≡ self.old ++ octets.now) }
        ensures err { OnErr result (self.new ≡ self.old) }
    {
        self.octets.extend_from_slice(octets)
    }

    fn drop_first(&mut self)
        ensures { (first : _) → first_of self.old ≡ Some first → self.new ≡ first.1 }
    {
        if let Some(len) = first_len(self.unread()) {
            self.read += 2 + len;
        }
    }
}

// How many octets the first message of a stream has, where a whole one came.
fn first_len(octets: &[u8]) -> Option<usize>
    ensures { MatchOption result (first_of octets.now ≡ None)
        (λ n. (2 + n ≤ length octets.now)
        × (first_of octets.now ≡ Some (take n (drop 2 octets.now), drop n (drop 2 octets.now)))) }
{
    match octets {
        [high, low, rest @ ..] => {
            let len = usize::from(*high) * 256 + usize::from(*low);
            if rest.len() < len { None } else { Some(len) }
        }
        _ => None,
    }
}
