//! What a resolver is built from.
ghost use Rattle.std.specs.Prelude.{◌≡◌, [], Err, Ok, Some};
ghost use Rattle.std.specs.Option.{option_map_or};
ghost use Rattle.hickory_proto_core.specs.declared.net_error.NetError.TheVariants.{Bounds};
ghost use Rattle.hickory_resolver_config.specs.ResolverConfig.{default_options};
ghost use Rattle.hickory_resolver_model.specs.Bounds.{bounds_fault};
ghost use Rattle.hickory_resolver_model.specs.Options.{bounds_of};
ghost use Rattle.hickory_resolver_model.specs.Resolver.{built};

use crate::resolver::Resolver;
use hickory_proto_core::{DnsHandle, NetError};
use hickory_resolver_cache::ResponseCache;
use hickory_resolver_config::{OpportunisticEncryption, ResolverConfig, ResolverOpts};
use hickory_resolver_hosts::Hosts;
use hickory_resolver_lookup::TtlConfig;
use std::alloc::Global;
use std::hash::{BuildHasher, BuildHasherDefault, FoldHasher};
use std::marker::Model;

/// What a resolver is built from: its configuration, its options, and the upstream.
#[derive(Drop)]
pub struct ResolverBuilder<H: DnsHandle, S: BuildHasher = BuildHasherDefault<FoldHasher>> {
    config: ResolverConfig,
    options: ResolverOpts,
    handle: H,
    cache_hasher: S,
    hosts_hasher: S,
}

impl<H: DnsHandle, S: BuildHasher> Model for ResolverBuilder<H, S> {
    ghost use Rattle.hickory_resolver_model.specs.Resolver.{BuilderValue};

    ghost Value = { BuilderValue H };

    ghost view = { λ b. record { config = b.config; options = b.options; handle = b.handle } };
}

impl<H: DnsHandle> ResolverBuilder<H> {
    /// The configuration with the default options, and the default hashers. Takes no memory.
    pub(crate) fn new(config: ResolverConfig, handle: H) -> ResolverBuilder<H>
        ensures { result ≡ record { config = config; options = default_options; handle = handle } }
    {
        let options = ResolverOpts::default(*config.search.allocator());
        ResolverBuilder {
            config,
            options,
            handle,
            cache_hasher: BuildHasherDefault::new(),
            hosts_hasher: BuildHasherDefault::new(),
        }
    }
}

impl<H: DnsHandle, S: BuildHasher> ResolverBuilder<H, S> {
    ghost use Rattle.std.specs.Borrow.{Lends, sem};
    ghost use Rattle.hickory_resolver_config.specs.contracts.resolver_opts.ResolverOpts.{the_row as options_row};
    ghost use Rattle.hickory_resolver.specs.contracts.resolver_builder.ResolverBuilder.{the_row};

    /// Puts these options in place of those before.
    pub fn with_options(self, options: ResolverOpts) -> ResolverBuilder<H, S>
        ensures { result ≡ record self { options = options } }
    {
        ResolverBuilder { options, ..self }
    }

    /// The options, to be changed.
    pub fn options_mut(&mut self) -> &mut ResolverOpts
        ensures* lends { sem 𝓛 (Lends (the_row H.row S.row S.Hasher.row H.DnsHandle S.BuildHasher S.Hasher.Hasher)
            options_row self.entry result (λ o. record self.old { options = o })) }
        ensures value { result.now ≡ self.old.options }
    {
        &mut self.options
    }

    /// The cache takes at most so many octets for what it keeps (the option `cache_octets`). An entry that is heavier
    /// than a 256th of that is not kept.
    pub fn with_cache_octets(mut self, octets: u64) -> ResolverBuilder<H, S>
        ensures { result ≡ record self { options = record self.options { cache_octets = Some octets } } }
    {
        self.options.cache_octets = Some(octets);
        self
    }

    /// Whether servers are asked over encrypted transports where they can be. No effect: the upstream that is
    /// handed in decides how it asks.
    pub fn with_opportunistic_encryption(
        self,
        _opportunistic_encryption: OpportunisticEncryption,
    ) -> ResolverBuilder<H, S>
        ensures { result ≡ self }
    {
        self
    }
}

impl<H: DnsHandle, S: BuildHasher + Drop> ResolverBuilder<H, S> {
    /// Names of questions in the cache are hashed by the first of these, and those of the empty table of hosts
    /// by the second: hashers of random state where the names come from strangers.
    pub fn with_hasher<T: BuildHasher>(
        self,
        cache_hasher: T,
        hosts_hasher: T,
    ) -> ResolverBuilder<H, T>
        ensures { result ≡ record { config = self.config; options = self.options; handle = self.handle } }
    {
        let ResolverBuilder {
            config,
            options,
            handle,
            ..
        } = self;
        ResolverBuilder {
            config,
            options,
            handle,
            cache_hasher,
            hosts_hasher,
        }
    }
}

impl<H: DnsHandle + Drop, S: BuildHasher + Drop> ResolverBuilder<H, S> {
    /// The resolver, with an empty cache and an empty table of hosts. Options whose bounds on times to live are
    /// reversed are refused (`NetError::Bounds`), those of positive answers first, and nothing is made. Takes no
    /// memory.
    pub fn build(self) -> Result<Resolver<H, S>, NetError>
        ensures { result ≡ built self }
    {
        let ResolverBuilder {
            config,
            options,
            handle,
            cache_hasher,
            hosts_hasher,
        } = self;
        let alloc = *config.search.allocator();
        match first_cache(alloc, &options, cache_hasher) {
            Ok(cache) => {
                let hosts = Hosts::with_hasher(alloc, hosts_hasher);
                Ok(Resolver::new(config, options, cache, handle, hosts))
            }
            Err(error) => {
                drop(config);
                drop(options);
                Err(error)
            }
        }
    }
}

// The empty cache of a new resolver. Options whose bounds are reversed are refused; no handle is there to be asked.
pub(crate) fn first_cache<S: BuildHasher + Drop>(
    alloc: Global,
    options: &ResolverOpts,
    hasher: S,
) -> Result<ResponseCache<S>, NetError>
    ensures { result ≡ option_map_or (λ fault. Err (Bounds fault)) (bounds_fault (bounds_of options.now))
        (Ok (record {
          capacity = options.now.cache_size;
          octets = options.now.cache_octets;
          config = record { default = bounds_of options.now; by_type = [] };
          entries = [];
        })) }
{
    match TtlConfig::from_opts(alloc, options) {
        Ok(bounds) => {
            let (entries, octets) = (options.cache_size, options.cache_octets);
            Ok(ResponseCache::with_limits(alloc, entries, octets, bounds, hasher))
        }
        Err(fault) => Err(NetError::Bounds(fault)),
    }
}
