//! What is done with a server once something came of its try.
ghost use Rattle.std.specs.Prelude.{◌≡◌, ◌&&◌, ◌==◌, if◌then◌else◌};
ghost use Rattle.hickory_resolver_transactions.specs.Table.{sends_by, has_room, may_change_to_tcp, may_begin_tcp, again_if, after_reply, after_refused_opt, after_other_letters, after_deadline, after_closed_stream, stays_believed, then_of_reply, then_of_refused_opt, then_of_other_letters, failed_try_in};

use crate::candidate::{Candidate, Progress, Transport, Try, Way};
use crate::choices::SENDS_BY_TRANSPORT;
use crate::outcome::Outcome;
use hickory_resolver_tries::ReplyOutcome;

/// What is done with a server.
#[derive(Clone, Copy, Debug, PartialEq, Eq)]
pub enum Then {
    /// The transaction is over, with this reply.
    Ends(u64),
    /// The server leaves the transaction, and this is noted.
    Leaves(Outcome),
    /// It has had its tries in this round, and this is noted.
    Rests(Outcome),
    /// It is asked again, this way.
    Again(Way),
    /// Nothing.
    Nothing,
}

fn has_room(transport: Transport, candidate: &Candidate) -> bool
    ensures { result ≡ has_room transport candidate.now }
{
    match transport {
        Transport::Udp => candidate.udp_sends < SENDS_BY_TRANSPORT,
        Transport::Tcp => candidate.tcp_sends < SENDS_BY_TRANSPORT,
    }
}

// Whether TCP is asked for what UDP cut.
fn may_change_to_tcp(candidate: &Candidate, tried: &Try) -> bool
    ensures { result ≡ may_change_to_tcp candidate.now tried.now }
{
    tried.transport.is_udp() && candidate.has_tcp && has_room(Transport::Tcp, candidate)
}

// Whether TCP is asked where UDP failed.
fn may_begin_tcp(candidate: &Candidate, tried: &Try) -> bool
    ensures { result ≡ may_begin_tcp candidate.now tried.now }
{
    tried.transport.is_udp() && candidate.has_tcp && candidate.tcp_sends == 0
}

// Again this way, where it may, and the other thing else.
fn again_if(may: bool, transport: Transport, with_opt: bool, otherwise: Then) -> Then
    ensures { result ≡ again_if may transport with_opt otherwise }
{
    if may {
        Then::Again(Way {
            transport,
            with_opt,
        })
    } else {
        otherwise
    }
}

/// What is done after a believed reply that comes to this.
pub fn after_reply(candidate: &Candidate, tried: &Try, outcome: ReplyOutcome, reply: u64) -> Then
    ensures { result ≡ after_reply candidate.now tried.now outcome reply }
{
    let code = Then::Leaves(Outcome::Code(reply));
    match outcome {
        ReplyOutcome::Answer => Then::Ends(reply),
        ReplyOutcome::Negative => after_negative(candidate, reply),
        ReplyOutcome::Truncated => again_if(
            may_change_to_tcp(candidate, tried),
            Transport::Tcp,
            tried.form.with_opt,
            Then::Leaves(Outcome::Cut(reply)),
        ),
        ReplyOutcome::WithoutOpt => again_if(
            has_room(tried.transport, candidate),
            tried.transport,
            false,
            code,
        ),
        ReplyOutcome::BadRest | ReplyOutcome::Code(_) | ReplyOutcome::Lame => code,
    }
}

fn after_negative(candidate: &Candidate, reply: u64) -> Then
    ensures { result ≡ (if candidate.now.is_trusted then Then.Ends reply else Then.Leaves (Outcome.Reply reply)) }
{
    if candidate.is_trusted {
        Then::Ends(reply)
    } else {
        Then::Leaves(Outcome::Reply(reply))
    }
}

// Whether the try is believed on after such a reply: garbage behind a right question may be a forger's.
pub(crate) fn stays_believed(outcome: ReplyOutcome) -> bool
    ensures { result ≡ stays_believed outcome }
{
    match outcome {
        ReplyOutcome::BadRest => true,
        _ => false,
    }
}

/// What is done after a header alone that says that OPT is not known.
pub fn after_refused_opt(candidate: &Candidate, tried: &Try) -> Then
    ensures { result ≡ after_refused_opt candidate.now tried.now }
{
    again_if(
        has_room(tried.transport, candidate),
        tried.transport,
        false,
        Then::Nothing,
    )
}

/// What is done after a reply that is right but for letters that were varied.
pub fn after_other_letters(candidate: &Candidate, tried: &Try) -> Then
    ensures { result ≡ after_other_letters candidate.now tried.now }
{
    again_if(
        may_begin_tcp(candidate, tried),
        Transport::Tcp,
        tried.form.with_opt,
        Then::Nothing,
    )
}

/// What is done where nothing came in time.
pub fn after_deadline(tcp_on_error: bool, candidate: &Candidate, tried: &Try) -> Then
    ensures { result ≡ after_deadline tcp_on_error candidate.now tried.now }
{
    again_if(
        tcp_on_error && may_begin_tcp(candidate, tried),
        Transport::Tcp,
        tried.form.with_opt,
        Then::Rests(Outcome::Timeout),
    )
}

/// What is done where a stream failed or was closed under what waited on it.
pub fn after_closed_stream(candidate: &Candidate, tried: &Try) -> Then
    ensures { result ≡ after_closed_stream candidate.now tried.now }
{
    again_if(
        has_room(Transport::Tcp, candidate),
        Transport::Tcp,
        tried.form.with_opt,
        Then::Rests(Outcome::Unreachable),
    )
}

// ---- the same of the try that waits

pub(crate) fn then_of_reply(candidate: &Candidate, outcome: ReplyOutcome, reply: u64) -> Then
    ensures { result ≡ then_of_reply candidate.now outcome reply }
{
    match candidate.progress {
        Progress::Waiting(tried) => after_reply(candidate, &tried, outcome, reply),
        _ => Then::Nothing,
    }
}

pub(crate) fn then_of_refused_opt(candidate: &Candidate) -> Then
    ensures { result ≡ then_of_refused_opt candidate.now }
{
    match candidate.progress {
        Progress::Waiting(tried) => after_refused_opt(candidate, &tried),
        _ => Then::Nothing,
    }
}

pub(crate) fn then_of_other_letters(candidate: &Candidate) -> Then
    ensures { result ≡ then_of_other_letters candidate.now }
{
    match candidate.progress {
        Progress::Waiting(tried) => after_other_letters(candidate, &tried),
        _ => Then::Nothing,
    }
}

// Its try, where it tells something of the server that the channel of that fails: what waits on a stream is first sent
// anew.
pub(crate) fn failed_try(candidate: &Candidate) -> Option<Try>
    ensures { result ≡ failed_try_in candidate.now candidate.now.progress }
{
    match candidate.progress {
        Progress::Waiting(tried) => failed_try_of(candidate, &tried),
        _ => None,
    }
}

fn failed_try_of(candidate: &Candidate, tried: &Try) -> Option<Try>
    ensures { result ≡ failed_try_in candidate.now (Progress.Waiting tried.now) }
{
    if tried.transport.is_udp() || !has_room(Transport::Tcp, candidate) {
        Some(*tried)
    } else {
        None
    }
}
