//! Doing what is to be done where no transaction is worked on.
ghost use Rattle.std.specs.Prelude.{◌≡◌, ◌++◌, None, Some, IfErr, IfOk, OnOk, OnErr};
ghost use Rattle.std.specs.Option.{option_map, option_map_or, option_and_then, is_some};
ghost use Rattle.hickory_resolver_askers.specs.Askers.{to_admit};
ghost use Rattle.hickory_resolver_traffic.specs.Inbox.{first_failure};
ghost use Rattle.hickory_resolver_traffic.specs.Tasks.{taken_up, without_taken, closed, freed_by, freed_by_first, without_first_failure, after_task, port_for, source_for, source_at, opening_to, opening_in, opening_of, written, did_open, did_write, took_up, did, task_of, put_back, put_back_ready, ended};

use crate::entry::{Current, Entry, ToDo};
use crate::groups::{GroupList, Sources};
use crate::inbox::Failure;
use crate::tasks::Task;
use crate::traffic::{Outgoing, Traffic};
use hickory_resolver_channels::ChannelKind;
use hickory_resolver_servers::Server;
use hickory_resolver_steps::Sending;
use std::alloc::{AllocError, Global};
use std::marker::Model;
use std::net::{IpAddr, SocketAddr};

/// A channel that is to be opened.
#[derive(Drop)]
pub struct Opening {
    /// Its number.
    pub channel: u64,
    /// What goes over it.
    pub kind: ChannelKind,
    /// The address of its server.
    pub address: IpAddr,
    /// The octets of the scope of a link-local address (RFC 4007, section 6), none where it has none.
    pub scope: Vec<u8>,
    /// The port of its server.
    pub port: u16,
    /// The local address from which it is opened, where one is given.
    pub bind_addr: Option<SocketAddr>,
}

impl Model for Opening {
    ghost use Rattle.hickory_resolver_traffic.specs.Openings.{OpeningValue};

    ghost Value = { OpeningValue };

    ghost view = { λ o. record {
      channel = o.channel;
      kind = o.kind;
      address = o.address;
      scope = o.scope.items;
      port = o.port;
      bind_addr = o.bind_addr;
    } };
}

/// Octets as they are written on a channel: one datagram, or a message of a stream behind its length.
#[derive(Drop)]
pub struct Sent {
    /// The channel.
    pub channel: u64,
    /// The octets.
    pub octets: Vec<u8>,
}

impl Model for Sent {
    ghost use Rattle.hickory_resolver_traffic.specs.Openings.{SentValue};

    ghost Value = { SentValue };

    ghost view = { λ s. record { channel = s.channel; octets = s.octets.items } };
}

/// What a task came to.
#[derive(Drop)]
pub enum Did {
    /// There was nothing to be done.
    Idle,
    /// Something of which the program has no part.
    More,
    /// This channel is to be opened.
    Opened(Opening),
    /// This is to be written.
    Written(Sent),
    /// This channel is to be closed.
    Closed(u64),
    /// This transaction is worked on from now on.
    TookUp(Current),
}

fn port_for(kind: ChannelKind, server: &Server) -> u16
    ensures { result ≡ port_for kind server.now }
{
    match kind {
        ChannelKind::Datagram => server.udp_port.unwrap_or(0),
        ChannelKind::Stream => server.tcp_port.unwrap_or(0),
    }
}

fn source_for(kind: ChannelKind, sources: &Sources) -> Option<SocketAddr>
    ensures { result ≡ source_for kind sources.now }
{
    match kind {
        ChannelKind::Datagram => sources.udp,
        ChannelKind::Stream => sources.tcp,
    }
}

fn source_at(kind: ChannelKind, place: usize, list: &GroupList) -> Option<SocketAddr>
    ensures { result ≡ source_at kind place list.now }
{
    match list.sources.get(place) {
        Some(sources) => source_for(kind, sources),
        None => None,
    }
}

fn opening_to(
    alloc: Global,
    sending: &Sending,
    list: &GroupList,
    server: &Server,
) -> Result<Opening, AllocError>
    ensures { IfOk result (λ o. o ≡ opening_to sending.now list.now server.now) }
{
    let scope = Vec::from_slice(alloc, &server.scope)?;
    Ok(Opening {
        channel: sending.channel,
        kind: sending.kind,
        address: server.address,
        scope,
        port: port_for(sending.kind, server),
        bind_addr: source_at(sending.kind, sending.place, list),
    })
}

fn opening_in(
    alloc: Global,
    sending: &Sending,
    list: &GroupList,
) -> Result<Option<Opening>, AllocError>
    ensures { IfOk result (λ o. o ≡ opening_in sending.now list.now) }
{
    match list.servers.servers().get(sending.place) {
        Some(server) => {
            let opening = opening_to(alloc, sending, list, server)?;
            Ok(Some(opening))
        }
        None => Ok(None),
    }
}

// Octets as they are written.
fn written(alloc: Global, kind: ChannelKind, octets: &[u8]) -> Result<Vec<u8>, AllocError>
    ensures { IfOk result (λ v. v.items ≡ written kind octets.now) }
{
    let mut out = Vec::new(alloc);
    if kind == ChannelKind::Stream {
        out.push((octets.len() / 256 % 256) as u8)?;
        out.push((octets.len() % 256) as u8)?;
    }
    out.extend_from_slice(octets)?;
    Ok(out)
}

fn did_open(opening: Option<Opening>) -> Did
    ensures { result ≡ did_open opening }
{
    match opening {
        Some(opening) => Did::Opened(opening),
        None => Did::More,
    }
}

fn took_up(current: Option<Current>) -> Did
    ensures { result ≡ took_up current }
{
    match current {
        Some(current) => Did::TookUp(current),
        None => Did::More,
    }
}

impl Traffic {
    /// Whether something goes out next.
    pub fn is_writing(&self) -> bool
        ensures { result ≡ is_some self.now.outgoing }
    {
        self.outgoing.is_some()
    }

    // The channel that is opened for what goes out.
    fn opening(&self, outgoing: &Outgoing) -> Result<Option<Opening>, AllocError>
        ensures { IfOk result (λ o. o ≡ opening_of self.now outgoing.now) }
    {
        match self.groups.list(outgoing.list) {
            Some(list) => opening_in(self.alloc, &outgoing.sending, list),
            None => Ok(None),
        }
    }

    fn open(&mut self) -> Result<Option<Opening>, AllocError>
        ensures opening { IfOk result (λ o. o ≡ option_and_then (opening_of self.old) self.old.outgoing) }
        ensures ok { OnOk result (self.new ≡ after_task Task.Opens self.old) }
        ensures err { OnErr result (self.new ≡ self.old) }
    {
        let opening = match &self.outgoing {
            Some(outgoing) => self.opening(outgoing)?,
            None => None,
        };
        if let Some(outgoing) = &mut self.outgoing {
            outgoing.sending.is_new = false;
        }
        Ok(opening)
    }

    fn write(&mut self) -> Result<Did, AllocError>
        ensures did { IfOk result (λ d. d ≡ did Task.Writes self.old) }
        ensures ok { OnOk result (self.new ≡ after_task Task.Writes self.old) }
        ensures err { OnErr result (self.new ≡ self.old) }
    {
        let sent = match &self.outgoing {
            Some(outgoing) => {
                let sending = &outgoing.sending;
                let octets = written(self.alloc, sending.kind, &sending.octets)?;
                Did::Written(Sent {
                    channel: sending.channel,
                    octets,
                })
            }
            None => Did::More,
        };
        self.outgoing = None;
        Ok(sent)
    }

    // Takes a transaction up, where there is one of this number.
    fn take_up(&mut self, number: u64, to_do: ToDo) -> Option<Current>
        ensures taken { result ≡ taken_up number to_do self.old.table }
        ensures after { self.new ≡ without_taken number self.old }
    {
        match self.table.take(number) {
            Some(entry) => Some(Current {
                number,
                to_do,
                entry,
            }),
            None => None,
        }
    }

    fn close(&mut self, channel: u64)
        ensures { self.new ≡ closed channel self.old }
    {
        self.shared.channels.close(channel);
        self.inbox.forget_stream(channel);
    }

    // A channel that could not be opened was no channel that is free now.
    fn count_freed_by_first(&mut self)
        ensures { self.new ≡ freed_by_first self.old }
    {
        if let Some(failure) = self.inbox.first_failure() {
            self.count_freed_by(failure.why);
        }
    }

    fn count_freed_by(&mut self, why: Failure)
        ensures { self.new ≡ freed_by why self.old }
    {
        match why {
            Failure::Local => {}
            _ => self.count_freed(),
        }
    }

    fn close_failed(&mut self, channel: u64)
        ensures { self.new ≡ after_task (Task.ClosesFailed channel) self.old }
    {
        self.close(channel);
        self.count_freed_by_first();
        self.inbox.pop_failure();
    }

    fn close_idle(&mut self, channel: u64)
        ensures { self.new ≡ after_task (Task.ClosesIdle channel) self.old }
    {
        self.close(channel);
        self.count_freed();
    }

    fn take_ready(&mut self, number: u64) -> Option<Current>
        ensures taken { result ≡ taken_up number ToDo.GoOn self.old.table }
        ensures after { self.new ≡ after_task (Task.TakesReady number) self.old }
    {
        self.ready.pop_front();
        self.take_up(number, ToDo::GoOn)
    }

    // The first that waits for a place gets one, where there is one.
    fn admit(&mut self) -> Result<Did, AllocError>
        ensures did { IfOk result (λ d. d ≡ did Task.Admits self.old) }
        ensures ok { OnOk result (self.new ≡ after_task Task.Admits self.old) }
        ensures err { OnErr result (self.new ≡ self.old) }
    {
        match self.askers.admit(self.alloc)? {
            Some(number) => Ok(took_up(self.take_up(number, ToDo::GoOn))),
            None => Ok(Did::Idle),
        }
    }

    /// Does the first that is to be done where no transaction is worked on. A refused call changes nothing.
    pub fn start(&mut self) -> Result<Did, AllocError>
        ensures did { IfOk result (λ d. d ≡ did (task_of self.old) self.old) }
        ensures ok { OnOk result (self.new ≡ after_task (task_of self.old) self.old) }
        ensures err { OnErr result (self.new ≡ self.old) }
    {
        let task = self.task();
        self.carry_out_task(task)
    }

    fn carry_out_task(&mut self, task: Task) -> Result<Did, AllocError>
        ensures did { IfOk result (λ d. d ≡ did task self.old) }
        ensures ok { OnOk result (self.new ≡ after_task task self.old) }
        ensures err { OnErr result (self.new ≡ self.old) }
    {
        match task {
            Task::Opens => {
                let opening = self.open()?;
                return Ok(did_open(opening));
            }
            Task::Writes => return self.write(),
            Task::Doubts => self.doubt()?,
            Task::PassesBy => self.inbox.pop_message(),
            Task::Cuts(channel) => self.inbox.cut(channel)?,
            Task::ClosesFailed(channel) => {
                self.close_failed(channel);
                return Ok(Did::Closed(channel));
            }
            Task::DropsFailure => self.inbox.pop_failure(),
            Task::TakesReady(number) => return Ok(took_up(self.take_ready(number))),
            Task::TakesUp(number, to_do) => return Ok(took_up(self.take_up(number, to_do))),
            Task::Undates(due, number) => self.table.undate(number, Some(due)),
            Task::Strays(number) => self.askers.over(number),
            Task::Unblocks(number) => self.table.unblock(number),
            Task::ClosesIdle(channel) => {
                self.close_idle(channel);
                return Ok(Did::Closed(channel));
            }
            Task::Admits => return self.admit(),
        }
        Ok(Did::More)
    }

    // ---- the end of the work on a transaction

    /// A transaction waits. Where memory is refused it comes back, and nothing changes.
    pub fn put_back(&mut self, number: u64, entry: Entry) -> Result<(), Entry>
        ensures ok { OnOk result (self.new ≡ put_back number entry self.old) }
        ensures err { OnErr result (self.new ≡ self.old) }
        ensures back { IfErr result (λ e. e ≡ entry) }
    {
        self.table.insert(number, entry)
    }

    /// A transaction goes on later. Where memory is refused it comes back, and nothing changes.
    pub fn put_back_ready(&mut self, number: u64, entry: Entry) -> Result<(), Entry>
        ensures ok { OnOk result (self.new ≡ put_back_ready number entry self.old) }
        ensures err { OnErr result (self.new ≡ self.old) }
        ensures back { IfErr result (λ e. e ≡ entry) }
    {
        match self.ready.reserve(1) {
            Ok(()) => {}
            Err(AllocError) => return Err(entry),
        }
        match self.table.insert(number, entry) {
            Ok(()) => {
                self.ready.push_back_reserved(number);
                Ok(())
            }
            Err(entry) => Err(entry),
        }
    }

    /// A transaction is over: nothing of it is left here.
    pub fn end(&mut self, number: u64, entry: &Entry)
        ensures { self.new ≡ ended number entry.now self.old }
    {
        self.askers.over(number);
        self.groups.end(entry.parts.asked.0, number);
        self.table.undate(number, entry.parts.due);
        self.table.unblock(number);
    }
}
