//! The resolver: names and types are turned into records.
ghost use Rattle.std.specs.Prelude.{◌≡◌, ◌≢◌, ℕ, [], IfOk, OnOk, OnErr, IsOkUnless, Err, Ok, Result};
ghost use Rattle.std.specs.Option.{option_map};
ghost use Rattle.hickory_proto_core.specs.Name.{NameValue};
ghost use Rattle.hickory_proto_core.specs.Records.{data_of, data_of_address};
ghost use Rattle.hickory_proto_core.specs.codes.record_type.RecordType.TheVariants as type;
ghost use Rattle.hickory_proto_core.specs.names.name_error.NameError.{NameError};
ghost use Rattle.hickory_resolver_client.specs.Contexts.{progress_of};
ghost use Rattle.hickory_resolver_config.specs.ResolverConfig.{default_options};
ghost use Rattle.hickory_resolver_model.specs.Attempts.{attempts};
ghost use Rattle.hickory_resolver_model.specs.Cache.{IsCache};
ghost use Rattle.hickory_resolver_model.specs.Calls.{last_resort};
ghost use Rattle.hickory_resolver_model.specs.Options.{request_options_of};
ghost use Rattle.hickory_resolver_model.specs.Resolver.{after_clear_lookup, settings};
ghost use Rattle.hickory_resolver_model.specs.Resuming.{IsDone};
ghost use Rattle.hickory_resolver_model.specs.Run.{Attempt, address_call, address_plan, drop_each};
ghost use Rattle.hickory_resolver_theorems.specs.CallFacts.{KeepsWhatIsKnown, PromisesHost, PromisesName};
ghost use Rattle.hickory_resolver_attempts.specs.Sought.{asks_for_all, order_of};
ghost use Rattle.hickory_resolver.specs.CallSteps.{plan_value};
ghost use Rattle.hickory_resolver.specs.Driving.{EndsCall, IsGiven};
ghost use Rattle.hickory_resolver.specs.Explaining.{Explains, ExplainsHost, ExplainsNamed};
ghost use Rattle.hickory_resolver_lookup.specs.Requests.{request_of};
ghost use Rattle.hickory_resolver.specs.Starting.{ResumesAt, StartsAt, StartsHost, StartsName};

use crate::calling::{resume_call, start_names};
use crate::driving::drive;
use crate::explaining::{Attempted, find_answerers, plan_questions};
use crate::literals::{as_addresses, literal_at_once};
use crate::resolver_builder::ResolverBuilder;
use crate::waiting_call::{CallProgress, WaitingCall};
use hickory_proto_core::{
    DnsHandle, DnsRequestOptions, IntoName, Name, NameError, NetError, Outcome, Query, RData,
    RecordType,
};
use hickory_resolver_attempts::{Sought, attempts};
use hickory_resolver_cache::ResponseCache;
use hickory_resolver_client::{CachingClient, Progress};
use hickory_resolver_config::{LookupIpStrategy, ResolverConfig, ResolverOpts};
use hickory_resolver_hosts::Hosts;
use hickory_resolver_lookup::{Lookup, LookupIp, Request};
use std::alloc::{AllocError, Global};
use std::fmt;
use std::hash::{BuildHasher, BuildHasherDefault, FoldHasher};
use std::marker::Model;
use std::net::IpAddr;

/// A resolver: it answers what a table of hosts has, what its cache has, and else what the upstream answers.
#[derive(Drop)]
pub struct Resolver<H: DnsHandle, S: BuildHasher = BuildHasherDefault<FoldHasher>> {
    config: ResolverConfig,
    options: ResolverOpts,
    client: CachingClient<H, S>,
    hosts: Hosts<S>,
}

impl<H: DnsHandle, S: BuildHasher> Model for Resolver<H, S> {
    ghost use Rattle.hickory_resolver_model.specs.Resolver.{ResolverValue};

    ghost Value = { ResolverValue H };

    ghost view = { λ r. record {
      client = r.client;
      hosts = r.hosts;
      config = r.config;
      options = r.options;
    } };
}

impl<H: DnsHandle> Resolver<H> {
    /// A builder with this configuration and the default options, over this upstream. Takes no memory.
    pub fn builder_with_config(config: ResolverConfig, handle: H) -> ResolverBuilder<H>
        ensures { result ≡ record { config = config; options = default_options; handle = handle } }
    {
        ResolverBuilder::new(config, handle)
    }
}

impl<H: DnsHandle, S: BuildHasher> Resolver<H, S> {
    // A resolver over this handle and these hosts, whose cache is this one.
    pub(crate) fn new(
        config: ResolverConfig,
        options: ResolverOpts,
        cache: ResponseCache<S>,
        handle: H,
        hosts: Hosts<S>,
    ) -> Resolver<H, S>
        ensures { result ≡ record {
          client = record { cache = cache; handle = handle; preserve_intermediates = options.preserve_intermediates };
          hosts = hosts;
          config = config;
          options = options;
        } }
    {
        let client = CachingClient::with_cache(cache, handle, options.preserve_intermediates);
        Resolver {
            config,
            options,
            client,
            hosts,
        }
    }

    /// The options that it was built with.
    pub fn options(&self) -> &ResolverOpts
        ensures { result.now ≡ self.now.options }
    {
        &self.options
    }

    /// The client that asks the upstream, with its cache.
    pub fn client(&self) -> &CachingClient<H, S>
        ensures { result.now ≡ self.now.client }
    {
        &self.client
    }

    /// Looks up records of a type for a name, at a moment (seconds). The names that are attempted for it are
    /// those of the domain and the search list (RFC 1535, section 6), each as the one before has no answers.
    /// The first result with answers is the reply; where none has any, it is the result of the last attempt. The
    /// table of hosts is asked for the first name alone, before the cache and the upstream. A text that is no
    /// name gets its fault as the answer, and nothing is asked. Out of memory ends the call.
    pub fn lookup<N: IntoName>(
        &mut self,
        name: N,
        record_type: RecordType,
        now: u64,
    ) -> Result<Lookup, NetError>
        ensures { PromisesName H.step (N.into_name_gives name) record_type now self.old result self.new }
    {
        let progress = self.start_lookup(name, record_type, now);
        self.drive(progress)
    }

    /// Looks up the addresses of a host, at a moment (seconds). The names that are attempted for it are those of
    /// `lookup`, in the same way; the strategy of the options says which families are asked for at each. The
    /// table of hosts is asked for every name and family, before the cache and the upstream. A text that spells
    /// an address is answered by it at once, for a day, where `ndots` is 4 at the most or the text is no name;
    /// else the address is the reply where no name has answers. Any other text that is no name gets its fault as
    /// the answer, and nothing is asked. The other errors are those of `lookup`: what the last attempt came to, or
    /// out of memory, which ends the call.
    pub fn lookup_ip<N: IntoName>(&mut self, host: N, now: u64) -> Result<LookupIp, NetError>
        ensures { PromisesHost H.step (N.to_ip_gives host) (N.into_name_gives host) now self.old result self.new }
    {
        let progress = self.start_lookup_ip(host, now);
        as_addresses(self.drive(progress))
    }

    /// Starts a look-up of records of a type for a name, at a moment (seconds), and leaves it to the caller to send
    /// its questions. What is looked up, and in which order, is as `lookup` says. It is done where no question
    /// needs to be sent, else it waits for what comes back to one.
    pub fn start_lookup<N: IntoName>(
        &mut self,
        name: N,
        record_type: RecordType,
        now: u64,
    ) -> CallProgress
        ensures starts { StartsName (N.into_name_gives name) record_type now self.old (progress_of result) self.new }
        ensures cache { IsCache self.old.client.cache.config self.old.client.cache.capacity
            self.old.client.cache.entries }
    {
        match name.into_name(self.alloc()) {
            Ok(name) => self.start_call(name, Sought::Records(record_type), None, now),
            Err(fault) => Progress::Done(Err(NetError::from(fault))),
        }
    }

    /// Starts a look-up of the addresses of a host, at a moment (seconds), and leaves it to the caller to send its
    /// questions. What is looked up, and in which order, is as `lookup_ip` says. It is done where no question needs
    /// to be sent, else it waits for what comes back to one. `LookupIp::from` reads what it gives as addresses.
    pub fn start_lookup_ip<N: IntoName>(&mut self, host: N, now: u64) -> CallProgress
        ensures starts { StartsHost (N.to_ip_gives host) (N.into_name_gives host) now self.old (progress_of result)
            self.new }
        ensures cache { IsCache self.old.client.cache.config self.old.client.cache.capacity
            self.old.client.cache.entries }
    {
        let address = host.to_ip();
        match host.into_name(self.alloc()) {
            Ok(name) => self.start_host(address, name, now),
            Err(fault) => Progress::Done(self.literal_or_fault(address, fault, now)),
        }
    }

    /// What a request attempts at its moment, and who would answer it as things stand: the names in the order in which
    /// they are attempted, each with the types that may be looked up for it. The call ends with the first name that
    /// has answers, and looks a second family of addresses up only where its strategy says so. What is no name, an
    /// address that is answered at once and a clear attempt nothing. Nothing is looked up, and nothing changes.
    pub fn explain(&self, request: &Request) -> Result<Vec<Attempted>, AllocError>
        ensures { IfOk result (λ list. Explains (settings self.now) self.now.client.cache (request_of request.now)
            list.items) }
    {
        match request {
            Request::Lookup {
                name,
                record_type,
                now,
            } => {
                let name = name.as_str().into_name(self.alloc());
                self.explain_names(name, Sought::Records(*record_type), *now)
            }
            Request::LookupIp { host, now } => self.explain_host(host.as_str(), *now),
            Request::ClearLookup {
                name: _,
                record_type: _,
                now: _,
            } => Ok(Vec::new(self.alloc())),
            Request::Clear { now: _ } => Ok(Vec::new(self.alloc())),
        }
    }

    /// Goes on with a call by what came back to its question, which is sent with the options of
    /// `request_options`. The moment of all that is kept and given is that of the start of the call. The cache and the
    /// table of hosts are those that stand: in between, other calls may have kept answers, the cache may have been
    /// cleared, and the table replaced.
    pub fn resume(&mut self, waiting: WaitingCall, outcome: Outcome) -> CallProgress
        ensures { ResumesAt waiting outcome self.old (progress_of result) self.new }
    {
        resume_call(waiting, outcome, &mut self.client, &self.hosts)
    }

    /// `lookup` of PTR records, at a moment (seconds): of an address, the names that it has. A text is read as a
    /// name.
    pub fn reverse_lookup<N: IntoName>(&mut self, query: N, now: u64) -> Result<Lookup, NetError>
        ensures { PromisesName H.step (N.into_name_gives query) type.PTR now self.old result self.new }
    {
        self.lookup(query, RecordType::PTR, now)
    }

    /// `lookup` of A records, at a moment (seconds).
    pub fn ipv4_lookup<N: IntoName>(&mut self, query: N, now: u64) -> Result<Lookup, NetError>
        ensures { PromisesName H.step (N.into_name_gives query) type.A now self.old result self.new }
    {
        self.lookup(query, RecordType::A, now)
    }

    /// `lookup` of AAAA records, at a moment (seconds).
    pub fn ipv6_lookup<N: IntoName>(&mut self, query: N, now: u64) -> Result<Lookup, NetError>
        ensures { PromisesName H.step (N.into_name_gives query) type.AAAA now self.old result self.new }
    {
        self.lookup(query, RecordType::AAAA, now)
    }

    /// `lookup` of MX records, at a moment (seconds).
    pub fn mx_lookup<N: IntoName>(&mut self, query: N, now: u64) -> Result<Lookup, NetError>
        ensures { PromisesName H.step (N.into_name_gives query) type.MX now self.old result self.new }
    {
        self.lookup(query, RecordType::MX, now)
    }

    /// `lookup` of NS records, at a moment (seconds).
    pub fn ns_lookup<N: IntoName>(&mut self, query: N, now: u64) -> Result<Lookup, NetError>
        ensures { PromisesName H.step (N.into_name_gives query) type.NS now self.old result self.new }
    {
        self.lookup(query, RecordType::NS, now)
    }

    /// `lookup` of SMIMEA records, at a moment (seconds).
    pub fn smimea_lookup<N: IntoName>(&mut self, query: N, now: u64) -> Result<Lookup, NetError>
        ensures { PromisesName H.step (N.into_name_gives query) type.SMIMEA now self.old result self.new }
    {
        self.lookup(query, RecordType::SMIMEA, now)
    }

    /// `lookup` of SOA records, at a moment (seconds).
    pub fn soa_lookup<N: IntoName>(&mut self, query: N, now: u64) -> Result<Lookup, NetError>
        ensures { PromisesName H.step (N.into_name_gives query) type.SOA now self.old result self.new }
    {
        self.lookup(query, RecordType::SOA, now)
    }

    /// `lookup` of SRV records, at a moment (seconds).
    pub fn srv_lookup<N: IntoName>(&mut self, query: N, now: u64) -> Result<Lookup, NetError>
        ensures { PromisesName H.step (N.into_name_gives query) type.SRV now self.old result self.new }
    {
        self.lookup(query, RecordType::SRV, now)
    }

    /// `lookup` of TLSA records, at a moment (seconds).
    pub fn tlsa_lookup<N: IntoName>(&mut self, query: N, now: u64) -> Result<Lookup, NetError>
        ensures { PromisesName H.step (N.into_name_gives query) type.TLSA now self.old result self.new }
    {
        self.lookup(query, RecordType::TLSA, now)
    }

    /// `lookup` of TXT records, at a moment (seconds).
    pub fn txt_lookup<N: IntoName>(&mut self, query: N, now: u64) -> Result<Lookup, NetError>
        ensures { PromisesName H.step (N.into_name_gives query) type.TXT now self.old result self.new }
    {
        self.lookup(query, RecordType::TXT, now)
    }

    /// `lookup` of CERT records, at a moment (seconds).
    pub fn cert_lookup<N: IntoName>(&mut self, query: N, now: u64) -> Result<Lookup, NetError>
        ensures { PromisesName H.step (N.into_name_gives query) type.CERT now self.old result self.new }
    {
        self.lookup(query, RecordType::CERT, now)
    }

    /// Drops from the cache what it has for the names that are attempted for this one, of this type. What is no
    /// name clears nothing. A refused call changes nothing.
    pub fn clear_lookup_cache<N: IntoName>(
        &mut self,
        name: N,
        record_type: RecordType,
    ) -> Result<(), NetError>
        ensures ok { OnOk result ((given : Result NameValue NameError) × N.into_name_gives name given
            × (given ≢ Err NameError.OutOfMemory)
            × (self.new ≡ after_clear_lookup record_type given self.old)) }
        ensures unchanged { OnErr result (self.new ≡ self.old) }
        ensures err { IsOkUnless result NetError.OutOfMemory }
        ensures keeps { KeepsWhatIsKnown self.old.client.cache self.new.client.cache }
    {
        match name.into_name(self.alloc()) {
            Ok(name) => self.clear_name(name, record_type),
            Err(NameError::OutOfMemory) => Err(NetError::OutOfMemory),
            Err(_) => Ok(()),
        }
    }

    /// Empties the cache. Takes no memory.
    pub fn clear_cache(&mut self)
        ensures cleared { self.new ≡ record self.old {
          client = record self.old.client { cache = record self.old.client.cache { entries = [] } };
        } }
        ensures keeps { KeepsWhatIsKnown self.old.client.cache self.new.client.cache }
    {
        self.client.clear_cache();
    }

    // Drives a call to its end: its questions are sent, and it goes on with what comes back.
    fn drive(&mut self, progress: CallProgress) -> Result<Lookup, NetError>
        ensures call { EndsCall H.step (progress_of progress) self.old result self.new }
        ensures given { IsGiven (progress_of progress) self.old result self.new }
    {
        let options = self.request_options();
        drive(progress, options, &mut self.client, &self.hosts)
    }

    // Starts a look-up of the addresses of a name that was read, of a text that spells this address.
    fn start_host(&mut self, address: Option<IpAddr>, name: Name, now: u64) -> CallProgress
        ensures { StartsAt now (address_call (settings self.old) address (Ok name) now) self.old
            (progress_of result) self.new }
    {
        match address {
            Some(address) if self.options.ndots <= 4 => {
                Progress::Done(literal_at_once(self.alloc(), name, address, now))
            }
            Some(address) => self.start_addresses(name, Some(address), now),
            None => self.start_addresses(name, None, now),
        }
    }

    // Starts a look-up of addresses for a name, with this address as the last resort.
    fn start_addresses(&mut self, name: Name, address: Option<IpAddr>, now: u64) -> CallProgress
        ensures { StartsAt now (Attempt name (address_plan (settings self.old).strategy
            (option_map (λ literal. last_resort (data_of_address literal) now) address))) self.old (progress_of result)
            self.new }
    {
        let sought = Sought::Addresses(self.ip_strategy());
        self.start_call(name, sought, record_data(address), now)
    }

    // Starts a call for a name.
    fn start_call(
        &mut self,
        name: Name,
        sought: Sought,
        literal: Option<RData>,
        now: u64,
    ) -> CallProgress
        ensures { StartsAt now (Attempt name (plan_value sought literal now)) self.old (progress_of result)
            self.new }
    {
        match self.attempts(name) {
            Ok(mut names) => {
                names.reverse();
                start_names(
                    names,
                    sought,
                    literal,
                    true,
                    &mut self.client,
                    &self.hosts,
                    now,
                )
            }
            Err(_) => Progress::Done(Err(NetError::OutOfMemory)),
        }
    }

    // The answer for a text that is no name: the address that it spells, or its fault. Out of memory says nothing
    // of the text.
    fn literal_or_fault(
        &self,
        address: Option<IpAddr>,
        fault: NameError,
        now: u64,
    ) -> Result<Lookup, NetError>
        ensures { StartsHost (λ a. a ≡ address) (λ n. n ≡ Err fault) now self.now (IsDone result) self.now }
    {
        match (fault, address) {
            (NameError::OutOfMemory, _) => Err(NetError::OutOfMemory),
            (_, Some(address)) => {
                literal_at_once(self.alloc(), Name::new(self.alloc()), address, now)
            }
            (fault, None) => Err(NetError::from(fault)),
        }
    }

    // Drops what the cache has for the attempts at a name.
    fn clear_name(&mut self, name: Name, record_type: RecordType) -> Result<(), NetError>
        ensures ok { OnOk result (self.new ≡ after_clear_lookup record_type (Ok name) self.old) }
        ensures unchanged { OnErr result (self.new ≡ self.old) }
        ensures err { IsOkUnless result NetError.OutOfMemory }
        ensures keeps { KeepsWhatIsKnown self.old.client.cache self.new.client.cache }
    {
        let names = self.attempts(name)?;
        clear_each(&mut self.client, names, record_type);
        Ok(())
    }

    // The names that are attempted for a name.
    fn attempts(&self, name: Name) -> Result<Vec<Name>, AllocError>
        ensures { IfOk result (λ names. names.items ≡ attempts (settings self.now).search name) }
    {
        let (domain, search) = (self.config.domain(), self.config.search());
        attempts(self.alloc(), name, self.options.ndots, domain, search)
    }

    /// How each question is sent.
    pub fn request_options(&self) -> DnsRequestOptions
        ensures { result ≡ request_options_of self.now.options }
    {
        DnsRequestOptions {
            recursion_desired: self.options.recursion_desired,
            use_edns: self.options.edns0,
            edns_payload_len: self.options.edns_payload_len,
            case_randomization: self.options.case_randomization,
        }
    }

    // Which families are asked for.
    fn ip_strategy(&self) -> LookupIpStrategy
        ensures { result ≡ self.now.options.ip_strategy }
    {
        self.options.ip_strategy
    }

    // What a look-up of the addresses of a host attempts.
    fn explain_host(&self, host: &str, now: u64) -> Result<Vec<Attempted>, AllocError>
        ensures { IfOk result (λ list. ExplainsHost (settings self.now) self.now.client.cache host.now now list.items) }
    {
        let name = host.into_name(self.alloc());
        if matches!(name, Err(NameError::OutOfMemory)) {
            return Err(AllocError);
        }
        if host.to_ip().is_some() && self.options.ndots <= 4 {
            return Ok(Vec::new(self.alloc()));
        }
        self.explain_names(name, Sought::Addresses(self.ip_strategy()), now)
    }

    // What a call attempts for what was read as a name. What is none attempts nothing.
    fn explain_names(
        &self,
        name: Result<Name, NameError>,
        sought: Sought,
        now: u64,
    ) -> Result<Vec<Attempted>, AllocError>
        ensures { IfOk result (λ list. ExplainsNamed (settings self.now) self.now.client.cache now (order_of sought)
            (asks_for_all sought) name list.items) }
    {
        match name {
            Ok(name) => {
                let names = self.attempts(name)?;
                let planned = plan_questions(self.alloc(), &names, sought)?;
                find_answerers(self.alloc(), planned, self.client.cache(), &self.hosts, now)
            }
            Err(NameError::OutOfMemory) => Err(AllocError),
            Err(_) => Ok(Vec::new(self.alloc())),
        }
    }

    // The allocator that its cache takes its memory from.
    fn alloc(&self) -> Global
        ensures cache { IsCache self.now.client.cache.config self.now.client.cache.capacity
            self.now.client.cache.entries }
    {
        self.client.cache().allocator()
    }
}

impl<H: DnsHandle, S: BuildHasher + Drop> Resolver<H, S> {
    /// Puts this table of hosts in place of the one before.
    pub fn set_hosts(&mut self, hosts: Hosts<S>)
        ensures { self.new ≡ record self.old { hosts = hosts } }
    {
        self.hosts = hosts;
    }
}

impl<H: DnsHandle, S: BuildHasher> fmt::Debug for Resolver<H, S> {
    ghost use Rattle.std.specs.Prelude.{Some, codes};

    ghost debug_output = { λ _. Some (codes "Resolver") };

    fn fmt<W: fmt::Write>(&self, f: &mut fmt::Formatter<W>) -> fmt::Result {
        f.write_str("Resolver")
    }
}

// The record data of an address.
fn record_data(address: Option<IpAddr>) -> Option<RData>
    ensures { (now : ℕ) → option_map (λ rdata. last_resort (data_of rdata) now) result
        ≡ option_map (λ literal. last_resort (data_of_address literal) now) address }
{
    match address {
        Some(address) => Some(RData::from(address)),
        None => None,
    }
}

// Drops what the cache of a client has for each of these names.
fn clear_each<H: DnsHandle, S: BuildHasher>(
    client: &mut CachingClient<H, S>,
    names: Vec<Name>,
    record_type: RecordType,
)
    ensures { client.new ≡ record client.old { cache = drop_each record_type names.items client.old.cache } }
{
    for name in names {
        client.clear_cache_query(&Query::query(name, record_type));
    }
}
