//! A client that waits no more.
ghost use Rattle.std.specs.Prelude.{◌≡◌};
ghost use Rattle.std.specs.Option.{option_map};
ghost use Rattle.yimarotu_forwarder.specs.FetchTables.{fetches_of};
ghost use Rattle.yimarotu_forwarder.specs.Fetches.{is_of_client, without_client};
ghost use Rattle.yimarotu_forwarder.specs.Leaving.{counts_without, counts_without_fetches, counts_without_replying, fetch_without, fetches_without, gone, replying_without};

use crate::fetch::Fetch;
use crate::fetches::Fetches;
use crate::forwarder::Forwarder;
use crate::replying::Replying;
use client_limits::ClientCounts;
use client_requests::WaitingRequest;
use std::collections::VecDeque;

impl Forwarder {
    /// The client of this number is gone: none of its requests is replied to any more, and the places that they had are
    /// free. Look-ups go on, and what they come to is kept. Takes no memory, and time for each request that waits.
    pub fn gone(&mut self, client: u64)
        ensures { self.new ≡ gone client self.old }
    {
        leave_fetches(&mut self.fetches, client, &mut self.counts);
        leave_replying(&mut self.replying, client, &mut self.counts);
    }
}

// No request of a client waits for a fetch.
fn leave_fetches(fetches: &mut Fetches, client: u64, counts: &mut ClientCounts)
    ensures fetches { fetches_of fetches.new ≡ fetches_without client (fetches_of fetches.old) }
    ensures counts { counts.new ≡ counts_without_fetches client counts.old (fetches_of fetches.old).fetches }
{
    for index in 0..fetches.fetches.len() {
        if let Some(fetch) = fetches.fetches.get_index_mut(index) {
            leave_fetch(fetch, client, counts);
        }
    }
}

fn leave_fetch(fetch: &mut Fetch, client: u64, counts: &mut ClientCounts)
    ensures fetch { fetch.new ≡ fetch_without client fetch.old }
    ensures counts { counts.new ≡ counts_without client counts.old fetch.old.waiting }
{
    count_out(&fetch.waiting, client, counts);
    leave(&mut fetch.waiting, client);
}

// No request of a client is told what a look-up came to.
fn leave_replying(replying: &mut Option<Replying>, client: u64, counts: &mut ClientCounts)
    ensures replying { replying.new ≡ option_map (replying_without client) replying.old }
    ensures counts { counts.new ≡ counts_without_replying client counts.old replying.old }
{
    match replying {
        Some(replying) => leave_reply(replying, client, counts),
        None => {}
    }
}

fn leave_reply(replying: &mut Replying, client: u64, counts: &mut ClientCounts)
    ensures replying { replying.new ≡ replying_without client replying.old }
    ensures counts { counts.new ≡ counts_without client counts.old replying.old.waiting }
{
    count_out(&replying.waiting, client, counts);
    leave(&mut replying.waiting, client);
}

// The places of a client's requests are free.
fn count_out(waiting: &VecDeque<WaitingRequest>, client: u64, counts: &mut ClientCounts)
    ensures { counts.new ≡ counts_without client counts.old waiting.now.items }
{
    let (first, second) = waiting.as_slices();
    count_out_of(first, client, counts);
    count_out_of(second, client, counts);
}

fn count_out_of(requests: &[WaitingRequest], client: u64, counts: &mut ClientCounts)
    ensures { counts.new ≡ counts_without client counts.old requests.now }
{
    for request in requests {
        if is_of_client(client, request) {
            counts.remove(request.client().address);
        }
    }
}

// The requests of a client wait no more.
fn leave(waiting: &mut VecDeque<WaitingRequest>, client: u64)
    ensures { waiting.new.items ≡ without_client client waiting.old.items }
{
    waiting.retain(|request| !is_of_client(client, request));
}

fn is_of_client(client: u64, request: &WaitingRequest) -> bool
    ensures { result ≡ is_of_client client request.now }
{
    request.client().number == client
}
