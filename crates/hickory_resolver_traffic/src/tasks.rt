//! What is done where no transaction is worked on.
ghost use Rattle.std.specs.Prelude.{◌≡◌, slice_get};
ghost use Rattle.std.specs.Option.{option_map, option_or, option_and_then};
ghost use Rattle.hickory_resolver_channels.specs.Channels.{first_idle};
ghost use Rattle.hickory_resolver_traffic.specs.Inbox.{first_unread};
ghost use Rattle.hickory_resolver_traffic.specs.Table.{first_due};
ghost use Rattle.hickory_resolver_traffic.specs.Tasks.{outgoing_task, hears_or_doubts, is_response, passes_or_doubts, message_task, fails_or_drops, failed_task, failure_task, if_by, kept_until, if_kept_enough, expires_or_undates, refused_one, refuses_or_strays, frees_or_unblocks, free_one, message_in, failure_in, due_in, late_in, free_in, idle_in, came_in, ran_out, task_of, earlier, next_deadline};

use crate::carrying::id_of;
use crate::entry::ToDo;
use crate::inbox::ChannelFailure;
use crate::table::Table;
use crate::traffic::Traffic;
use hickory_resolver_tries::head::{Head, head_at};

/// What is to be done where no transaction is worked on.
#[derive(Clone, Copy, Debug, PartialEq, Eq)]
pub enum Task {
    /// The channel of what goes out is opened.
    Opens,
    /// What goes out is written.
    Writes,
    /// The first message is for nobody.
    Doubts,
    /// The first message is a response to a try that is over.
    PassesBy,
    /// A message is cut off this stream.
    Cuts(u64),
    /// This stream failed, and no try is on it any more: it is closed.
    ClosesFailed(u64),
    /// The first failure is of no channel.
    DropsFailure,
    /// The first that is ready is taken up.
    TakesReady(u64),
    /// This transaction is taken up.
    TakesUp(u64, ToDo),
    /// There is no transaction of this deadline.
    Undates(u64, u64),
    /// There is no transaction of those who wait for this one.
    Strays(u64),
    /// There is no transaction of those that wait for a channel.
    Unblocks(u64),
    /// This stream was kept for long enough, or something waits for a channel: it is closed.
    ClosesIdle(u64),
    /// The first that waits for a place gets one, where there is one.
    Admits,
}

fn hears_or_doubts(table: &Table, number: u64) -> Task
    ensures { result ≡ hears_or_doubts table.now number }
{
    if table.has_entry(number) {
        Task::TakesUp(number, ToDo::Hear)
    } else {
        Task::Doubts
    }
}

// Whether it is a response to a query.
fn is_response(head: &Head) -> bool
    ensures { result ≡ is_response head.now }
{
    head.flags / 32768 % 2 == 1 && head.flags / 2048 % 16 == 0
}

fn passes_or_doubts(octets: &[u8]) -> Task
    ensures { result ≡ passes_or_doubts octets.now }
{
    match head_at(octets) {
        Some(head) if is_response(&head) => Task::PassesBy,
        _ => Task::Doubts,
    }
}

fn fails_or_drops(table: &Table, one: (u16, u64)) -> Task
    ensures { result ≡ fails_or_drops table.now one }
{
    if table.has_entry(one.1) {
        Task::TakesUp(one.1, ToDo::Fail)
    } else {
        Task::DropsFailure
    }
}

fn if_by(now: u64, one: (u64, u64)) -> Option<(u64, u64)>
    ensures { result ≡ if_by now one }
{
    if one.0 <= now { Some(one) } else { None }
}

fn expires_or_undates(table: &Table, due: (u64, u64)) -> Task
    ensures { result ≡ expires_or_undates table.now due }
{
    if table.has_entry(due.1) {
        Task::TakesUp(due.1, ToDo::Expire)
    } else {
        Task::Undates(due.0, due.1)
    }
}

fn refuses_or_strays(table: &Table, number: u64) -> Task
    ensures { result ≡ refuses_or_strays table.now number }
{
    if table.has_entry(number) {
        Task::TakesUp(number, ToDo::Refuse)
    } else {
        Task::Strays(number)
    }
}

fn frees_or_unblocks(table: &Table, number: u64) -> Task
    ensures { result ≡ frees_or_unblocks table.now number }
{
    if table.has_entry(number) {
        Task::TakesUp(number, ToDo::Free)
    } else {
        Task::Unblocks(number)
    }
}

impl Traffic {
    fn message_task(&self, channel: u64, octets: &[u8]) -> Task
        ensures { result ≡ message_task self.now channel octets.now }
    {
        match self.shared.channels.transaction(channel, id_of(octets)) {
            Some(number) => hears_or_doubts(&self.table, number),
            None => passes_or_doubts(octets),
        }
    }

    fn failed_task(&self, channel: u64) -> Task
        ensures { result ≡ failed_task channel self.now }
    {
        match self.shared.channels.first_try(channel) {
            Some(one) => fails_or_drops(&self.table, one),
            None => Task::ClosesFailed(channel),
        }
    }

    fn failure_task(&self, failure: &ChannelFailure) -> Task
        ensures { result ≡ failure_task self.now failure.now }
    {
        if self.shared.channels.channel(failure.channel).is_some() {
            self.failed_task(failure.channel)
        } else {
            Task::DropsFailure
        }
    }

    fn free_one(&self) -> Option<u64>
        ensures { result ≡ free_one self.now }
    {
        if self.freed > 0 && self.has_place() {
            self.table.first_blocked()
        } else {
            None
        }
    }

    // ---- of each kind

    fn message_in(&self) -> Option<Task>
        ensures { result ≡ message_in self.now }
    {
        match self.inbox.first_message() {
            Some(message) => Some(self.message_task(message.channel, &message.octets)),
            None => None,
        }
    }

    fn unread_in(&self) -> Option<Task>
        ensures { result ≡ option_map Task.Cuts (first_unread self.now.inbox) }
    {
        match self.inbox.first_unread() {
            Some(channel) => Some(Task::Cuts(channel)),
            None => None,
        }
    }

    fn failure_in(&self) -> Option<Task>
        ensures { result ≡ failure_in self.now }
    {
        match self.inbox.first_failure() {
            Some(failure) => Some(self.failure_task(&failure)),
            None => None,
        }
    }

    fn ready_in(&self) -> Option<Task>
        ensures { result ≡ option_map Task.TakesReady (slice_get self.now.ready 0) }
    {
        match self.ready.front() {
            Some(number) => Some(Task::TakesReady(*number)),
            None => None,
        }
    }

    fn due_in(&self) -> Option<Task>
        ensures { result ≡ due_in self.now }
    {
        match self.due_by_now() {
            Some(due) => Some(expires_or_undates(&self.table, due)),
            None => None,
        }
    }

    fn due_by_now(&self) -> Option<(u64, u64)>
        ensures { result ≡ option_and_then (if_by self.now.clock) (first_due self.now.table) }
    {
        match self.table.first_due() {
            Some(due) => if_by(self.clock, due),
            None => None,
        }
    }

    // One that waits for a place for too long, where there is none.
    fn refused_one(&self) -> Option<u64>
        ensures { result ≡ refused_one self.now }
    {
        if self.askers.has_place() {
            None
        } else {
            self.askers.late_one(self.clock)
        }
    }

    fn late_in(&self) -> Option<Task>
        ensures { result ≡ late_in self.now }
    {
        match self.refused_one() {
            Some(number) => Some(refuses_or_strays(&self.table, number)),
            None => None,
        }
    }

    fn free_in(&self) -> Option<Task>
        ensures { result ≡ free_in self.now }
    {
        match self.free_one() {
            Some(number) => Some(frees_or_unblocks(&self.table, number)),
            None => None,
        }
    }

    // Up to when a stream without a try is kept: where something waits for a channel, no longer.
    fn kept_until(&self, until: u64) -> u64
        ensures { result ≡ kept_until self.now until }
    {
        if self.table.first_blocked().is_some() {
            0
        } else {
            until
        }
    }

    fn if_kept_enough(&self, idle: (u64, u64)) -> Option<(u64, u64)>
        ensures { result ≡ if_kept_enough self.now idle }
    {
        if self.kept_until(idle.0) <= self.clock {
            Some(idle)
        } else {
            None
        }
    }

    // The stream that was kept for long enough.
    fn idle_to_close(&self) -> Option<(u64, u64)>
        ensures { result ≡ option_and_then (if_kept_enough self.now) (first_idle self.now.shared.channels) }
    {
        match self.shared.channels.first_idle() {
            Some(idle) => self.if_kept_enough(idle),
            None => None,
        }
    }

    fn idle_in(&self) -> Option<Task>
        ensures { result ≡ idle_in self.now }
    {
        match self.idle_to_close() {
            Some(idle) => Some(Task::ClosesIdle(idle.1)),
            None => None,
        }
    }

    fn outgoing_in(&self) -> Option<Task>
        ensures { result ≡ option_map outgoing_task self.now.outgoing }
    {
        match &self.outgoing {
            Some(outgoing) if outgoing.sending.is_new => Some(Task::Opens),
            Some(_) => Some(Task::Writes),
            None => None,
        }
    }

    // ---- the first of them

    fn came_in(&self) -> Option<Task>
        ensures { result ≡ came_in self.now }
    {
        let next = first_of_three(self.unread_in(), self.free_in(), self.ready_in());
        first_of_three(self.failure_in(), self.message_in(), next)
    }

    fn ran_out(&self) -> Option<Task>
        ensures { result ≡ ran_out self.now }
    {
        first_of_three(self.due_in(), self.late_in(), self.idle_in())
    }

    /// What is to be done where no transaction is worked on.
    pub fn task(&self) -> Task
        ensures { result ≡ task_of self.now }
    {
        if let Some(task) = self.outgoing_in() {
            return task;
        }
        if let Some(task) = self.came_in() {
            return task;
        }
        self.ran_out().unwrap_or(Task::Admits)
    }

    /// The earliest moment at which time ends something.
    pub fn next_deadline(&self) -> Option<u64>
        ensures { result ≡ next_deadline self.now }
    {
        let due = moment_of(self.table.first_due());
        let idle = moment_of(self.shared.channels.first_idle());
        earlier(due, earlier(self.askers.next_deadline(), idle))
    }
}

fn moment_of(one: Option<(u64, u64)>) -> Option<u64>
    ensures { result ≡ option_map (λ p. p.0) one }
{
    match one {
        Some((moment, _)) => Some(moment),
        None => None,
    }
}

fn earlier(one: Option<u64>, other: Option<u64>) -> Option<u64>
    ensures { result ≡ earlier one other }
{
    match (one, other) {
        (None, other) => other,
        (Some(one), None) => Some(one),
        (Some(one), Some(other)) => Some(one.min(other)),
    }
}

fn first_of_three(first: Option<Task>, second: Option<Task>, third: Option<Task>) -> Option<Task>
    ensures { result ≡ option_or first (option_or second third) }
{
    first.or(second).or(third)
}
