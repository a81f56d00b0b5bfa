//! A server in a transaction, and the tries at it.
ghost use Rattle.std.specs.Prelude.{◌≡◌, ◌+◌, is_some, Option, None, Some, unwrap_or};
ghost use Rattle.hickory_resolver_transactions.specs.Candidates.{candidate_of, is_udp, is_again, is_queued, is_waiting, is_blocked, is_tried, is_busy, is_try, waits_as, waits_on, due_of, is_due, first_way, way_of, way_of_try, counted, uncounted, channel_due_of, try_made, sent_with, without_channel, blocked_as, requeued, freed_one, late_due, has_failed_by};

use crate::settings::Settings;
use hickory_resolver_servers::Server;
use hickory_resolver_tries::TryForm;

/// How a message goes.
#[derive(Clone, Copy, Debug, PartialEq, Eq)]
pub enum Transport {
    /// In a datagram.
    Udp,
    /// On a stream.
    Tcp,
}

/// How a try is made.
#[derive(Clone, Copy, Debug, PartialEq, Eq)]
pub struct Way {
    /// How it goes.
    pub transport: Transport,
    /// Whether OPT is sent, where the question has it.
    pub with_opt: bool,
}

/// One message to a server.
#[derive(Clone, Copy, Debug)]
pub struct Try {
    /// The channel that it was sent on.
    pub channel: u64,
    /// How it went.
    pub transport: Transport,
    /// What it differs in from other tries.
    pub form: TryForm,
    /// The moment when it was sent, in milliseconds.
    pub sent_at: u64,
    /// The moment up to which its reply is waited for.
    pub due: u64,
    /// Up to when a channel was waited for, where none was there for it before: where this one cannot be opened,
    /// another one is waited for no longer.
    pub channel_due: Option<u64>,
}

/// What the caller makes of a try that is wanted: a channel, and what is drawn by chance.
#[derive(Clone, Copy, Debug)]
pub struct Made {
    /// The channel. A datagram has one of its own.
    pub channel: u64,
    /// The number of the message, drawn.
    pub id: u16,
    /// Which letters are varied, drawn; they count where letters are varied at all.
    pub letters: [u8; 32],
    /// The moment, in milliseconds.
    pub moment: u64,
}

/// How far it has come with a server.
#[derive(Clone, Copy, Debug)]
pub enum Progress {
    /// It is left in this round.
    Queued,
    /// It is to be asked again in this round, this way. With it stands up to when it waited for a channel, where it
    /// did.
    Again(Way, Option<u64>),
    /// There was no channel for it: it waits for one, up to a moment.
    Blocked(Way, u64),
    /// A try waits for its reply.
    Waiting(Try),
    /// Its tries of this round failed. It is left for a further round.
    Tried,
    /// It has answered, or cannot be asked. It is not asked any more.
    Gone,
}

/// A server in a transaction.
#[derive(Clone, Copy, Debug)]
pub struct Candidate {
    /// Its place among the servers of its group.
    pub place: usize,
    /// Whether it is asked over UDP.
    pub has_udp: bool,
    /// Whether it is asked over TCP.
    pub has_tcp: bool,
    /// Whether no other server is asked once it has said that there is nothing.
    pub is_trusted: bool,
    /// How many datagrams it was sent in this round.
    pub udp_sends: u8,
    /// How many messages on streams.
    pub tcp_sends: u8,
    /// How far it has come with it.
    pub progress: Progress,
}

/// A try whose server is not waited for any more. It is believed if its reply comes late.
#[derive(Clone, Copy, Debug)]
pub struct LateTry {
    /// The place of its server.
    pub place: usize,
    /// The try.
    pub tried: Try,
    /// Whether its channel failed before its time: an ICMP message is easily forged, so that it is waited for up to
    /// then.
    pub has_failed: bool,
}

impl Transport {
    /// Whether it is UDP.
    pub fn is_udp(self) -> bool
        ensures { result ≡ is_udp self }
    {
        match self {
            Transport::Udp => true,
            Transport::Tcp => false,
        }
    }
}

impl Try {
    // Whether it was sent on a channel with a number.
    pub(crate) fn is(&self, channel: u64, id: u16) -> bool
        ensures { result ≡ is_try channel id self.now }
    {
        self.channel == channel && self.form.id == id
    }

    // The way that it went.
    pub(crate) fn way(&self) -> Way
        ensures { result ≡ way_of_try self.now }
    {
        Way {
            transport: self.transport,
            with_opt: self.form.with_opt,
        }
    }
}

impl Made {
    // The try at a server as it is sent next.
    pub(crate) fn make(&self, candidate: &Candidate, settings: &Settings) -> Try
        ensures { result ≡ try_made self.now candidate.now settings.now }
    {
        let way = candidate.way();
        let varies = settings.varies_letters && way.transport.is_udp();
        Try {
            channel: self.channel,
            transport: way.transport,
            form: TryForm {
                id: self.id,
                letters: if varies { Some(self.letters) } else { None },
                with_opt: way.with_opt,
            },
            sent_at: self.moment,
            due: self.moment.saturating_add(settings.timeout),
            channel_due: candidate.progress.channel_due(),
        }
    }
}

impl LateTry {
    // Up to when it is waited for, where its channel failed.
    pub(crate) fn due(&self) -> Option<u64>
        ensures { result ≡ late_due self.now }
    {
        if self.has_failed {
            Some(self.tried.due)
        } else {
            None
        }
    }

    // Whether its channel failed and its time has passed.
    pub(crate) fn has_failed_by(&self, now: u64) -> bool
        ensures { result ≡ has_failed_by now self.now }
    {
        self.has_failed && self.tried.due <= now
    }
}

impl Progress {
    pub(crate) fn is_again(&self) -> bool
        ensures { result ≡ is_again self.now }
    {
        match self {
            Progress::Again(_, _) => true,
            _ => false,
        }
    }

    pub(crate) fn is_queued(&self) -> bool
        ensures { result ≡ is_queued self.now }
    {
        match self {
            Progress::Queued => true,
            _ => false,
        }
    }

    pub(crate) fn is_waiting(&self) -> bool
        ensures { result ≡ is_waiting self.now }
    {
        match self {
            Progress::Waiting(_) => true,
            _ => false,
        }
    }

    pub(crate) fn is_blocked(&self) -> bool
        ensures { result ≡ is_blocked self.now }
    {
        match self {
            Progress::Blocked(_, _) => true,
            _ => false,
        }
    }

    pub(crate) fn is_tried(&self) -> bool
        ensures { result ≡ is_tried self.now }
    {
        match self {
            Progress::Tried => true,
            _ => false,
        }
    }

    // Whether something is still to come of it in this round.
    pub(crate) fn is_busy(&self) -> bool
        ensures { result ≡ is_busy self.now }
    {
        match self {
            Progress::Tried | Progress::Gone => false,
            _ => true,
        }
    }

    // Whether a try waits on a channel with a number.
    pub(crate) fn waits_as(&self, channel: u64, id: u16) -> bool
        ensures { result ≡ waits_as channel id self.now }
    {
        match self {
            Progress::Waiting(tried) => tried.is(channel, id),
            _ => false,
        }
    }

    // Whether a try waits on a channel.
    pub(crate) fn waits_on(&self, channel: u64) -> bool
        ensures { result ≡ waits_on channel self.now }
    {
        match self {
            Progress::Waiting(tried) => tried.channel == channel,
            _ => false,
        }
    }

    // Up to when something is waited for.
    pub(crate) fn due(&self) -> Option<u64>
        ensures { result ≡ due_of self.now }
    {
        match self {
            Progress::Waiting(tried) => Some(tried.due),
            Progress::Blocked(_, due) => Some(*due),
            _ => None,
        }
    }

    // Up to when a channel was waited for, where it is to be asked again.
    pub(crate) fn channel_due(&self) -> Option<u64>
        ensures { result ≡ channel_due_of self.now }
    {
        match self {
            Progress::Again(_, due) => *due,
            _ => None,
        }
    }

    // Whether that moment has come.
    pub(crate) fn is_due(&self, now: u64) -> bool
        ensures { result ≡ is_due now self.now }
    {
        match self.due() {
            Some(due) => due <= now,
            None => false,
        }
    }
}

impl Candidate {
    // The server of a place, before the first round.
    pub(crate) fn new(place: usize, server: &Server) -> Candidate
        ensures { result ≡ candidate_of place server.now }
    {
        let has_udp = server.udp_port.is_some();
        let has_tcp = server.tcp_port.is_some();
        Candidate {
            place,
            has_udp,
            has_tcp,
            is_trusted: server.trust_negative_responses,
            udp_sends: 0,
            tcp_sends: 0,
            progress: if has_udp || has_tcp {
                Progress::Tried
            } else {
                Progress::Gone
            },
        }
    }

    // By UDP where it is asked over UDP.
    fn first_way(&self) -> Way
        ensures { result ≡ first_way self.now }
    {
        Way {
            transport: if self.has_udp {
                Transport::Udp
            } else {
                Transport::Tcp
            },
            with_opt: true,
        }
    }

    // How it is asked next.
    pub(crate) fn way(&self) -> Way
        ensures { result ≡ way_of self.now }
    {
        match self.progress {
            Progress::Again(way, _) => way,
            _ => self.first_way(),
        }
    }

    // The same with one message sent more.
    fn counted(&self, transport: Transport) -> Candidate
        ensures { result ≡ counted transport self.now }
    {
        let mut counted = *self;
        match transport {
            Transport::Udp => counted.udp_sends = self.udp_sends.saturating_add(1),
            Transport::Tcp => counted.tcp_sends = self.tcp_sends.saturating_add(1),
        }
        counted
    }

    // The same with one message sent less.
    fn uncounted(&self, transport: Transport) -> Candidate
        ensures { result ≡ uncounted transport self.now }
    {
        let mut counted = *self;
        match transport {
            Transport::Udp => counted.udp_sends = self.udp_sends.saturating_sub(1),
            Transport::Tcp => counted.tcp_sends = self.tcp_sends.saturating_sub(1),
        }
        counted
    }

    // The same where it has come so far with it.
    pub(crate) fn with(&self, progress: Progress) -> Candidate
        ensures { result ≡ record self.now { progress = progress } }
    {
        let mut changed = *self;
        changed.progress = progress;
        changed
    }

    // The same once its try is sent.
    pub(crate) fn sent(&self, made: &Made, settings: &Settings) -> Candidate
        ensures { result ≡ sent_with made.now settings.now self.now }
    {
        let tried = made.make(self, settings);
        self.counted(tried.transport).with(Progress::Waiting(tried))
    }

    // The same where there is no channel to send it on: it waits for one up to this moment, or as long as it did
    // before.
    pub(crate) fn without_channel(&self, due: u64) -> Candidate
        ensures { result ≡ without_channel due self.now }
    {
        let due = self.progress.channel_due().unwrap_or(due);
        self.with(Progress::Blocked(self.way(), due))
    }

    // The same where its try could not be sent.
    pub(crate) fn blocked(&self, tried: &Try) -> Candidate
        ensures { result ≡ blocked_as tried.now self.now }
    {
        let due = tried.channel_due.unwrap_or(tried.due);
        self.with(Progress::Blocked(tried.way(), due))
            .uncounted(tried.transport)
    }

    // The same at the beginning of a round.
    pub(crate) fn requeued(&self) -> Candidate
        ensures { result ≡ requeued self.now }
    {
        if !self.progress.is_tried() {
            return *self;
        }
        let mut queued = self.with(Progress::Queued);
        queued.udp_sends = 0;
        queued.tcp_sends = 0;
        queued
    }

    // The same once a channel is free.
    pub(crate) fn freed(&self) -> Candidate
        ensures { result ≡ freed_one self.now }
    {
        match self.progress {
            Progress::Blocked(way, due) => self.with(Progress::Again(way, Some(due))),
            _ => *self,
        }
    }
}
