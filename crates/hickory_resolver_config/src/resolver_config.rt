//! The domain, the search list and the servers of a resolver.
ghost use Rattle.std.specs.Prelude.{◌≡◌, false, [], ◌∷◌, ◌++◌, Some, IfOk, OnOk, OnErr, IsOkUnless, option_copied};
ghost use Rattle.hickory_resolver_config.specs.Connections.{over_udp, over_tcp, over_tls, over_https, over_quic, over_h3};
ghost use Rattle.hickory_resolver_config.specs.ResolverConfig.{ResolverConfigValue, config_of_servers};
ghost use Rattle.hickory_resolver_config.specs.Servers.{servers_over};

use crate::name_server_config::NameServerConfig;
use crate::server_group::ServerGroup;
use crate::server_group_iter::ServerGroupIter;
use hickory_proto_core::{Name, NetError};
use std::alloc::{AllocError, Global};
use std::marker::Model;

/// The domain, the search list and the servers of a resolver.
#[derive(Debug, Drop)]
pub struct ResolverConfig {
    /// A domain that relative names are looked up in, before those of the search list unless it is among
    /// them.
    pub domain: Option<Name>,
    /// The search list: the domains that relative names are looked up in, in order.
    pub search: Vec<Name>,
    /// The servers that a pool asks. A resolver does not read them: the upstream that is handed in decides whom it
    /// asks.
    pub name_servers: Vec<NameServerConfig>,
}

impl Model for ResolverConfig {
    ghost use Rattle.hickory_resolver_config.specs.ResolverConfig.{ResolverConfigValue};

    ghost Value = { ResolverConfigValue };

    ghost view = { λ c. record {
      domain = c.domain;
      search = c.search.items;
      name_servers = c.name_servers.items;
    } };
}

impl ResolverConfig {
    /// No domain, no search list and no servers. Takes no memory.
    pub fn default(alloc: Global) -> ResolverConfig
        ensures { result ≡ config_of_servers [] }
    {
        ResolverConfig::from_name_servers(Vec::new(alloc))
    }

    /// The configuration of these parts.
    pub fn from_parts(
        domain: Option<Name>,
        search: Vec<Name>,
        name_servers: Vec<NameServerConfig>,
    ) -> ResolverConfig
        ensures { result ≡ record {
          domain = domain;
          search = search.items;
          name_servers = name_servers.items;
        } }
    {
        ResolverConfig {
            domain,
            search,
            name_servers,
        }
    }

    /// No domain, no search list, and these servers. Takes no memory.
    pub fn from_name_servers(name_servers: Vec<NameServerConfig>) -> ResolverConfig
        ensures { result ≡ config_of_servers name_servers.items }
    {
        let search = Vec::new(*name_servers.allocator());
        ResolverConfig::from_parts(None, search, name_servers)
    }

    /// The servers of a group in order, asked over UDP and TCP; no domain and no search list.
    pub fn udp_and_tcp(config: &ServerGroup<'_>) -> Result<ResolverConfig, NetError>
        ensures ok { IfOk result
            (λ c. c ≡ config_of_servers (servers_over (over_udp ∷ over_tcp ∷ []) config.now.ips)) }
        ensures err { IsOkUnless result NetError.OutOfMemory }
    {
        of_group(*config.ips.allocator(), config.udp_and_tcp())
    }

    /// The servers of a group in order, asked over TLS; no domain and no search list.
    pub fn tls(config: &ServerGroup<'_>) -> Result<ResolverConfig, NetError>
        ensures ok { IfOk result
            (λ c. c ≡ config_of_servers (servers_over (over_tls config.now.server_name ∷ []) config.now.ips)) }
        ensures err { IsOkUnless result NetError.OutOfMemory }
    {
        of_group(*config.ips.allocator(), config.tls())
    }

    /// The servers of a group in order, asked over HTTPS; no domain and no search list.
    pub fn https(config: &ServerGroup<'_>) -> Result<ResolverConfig, NetError>
        ensures ok { IfOk result (λ c. c
            ≡ config_of_servers
            (servers_over (over_https config.now.server_name config.now.path ∷ []) config.now.ips)) }
        ensures err { IsOkUnless result NetError.OutOfMemory }
    {
        of_group(*config.ips.allocator(), config.https())
    }

    /// The servers of a group in order, asked over QUIC; no domain and no search list.
    pub fn quic(config: &ServerGroup<'_>) -> Result<ResolverConfig, NetError>
        ensures ok { IfOk result
            (λ c. c ≡ config_of_servers (servers_over (over_quic config.now.server_name ∷ []) config.now.ips)) }
        ensures err { IsOkUnless result NetError.OutOfMemory }
    {
        of_group(*config.ips.allocator(), config.quic())
    }

    /// The servers of a group in order, asked over HTTP/3; no domain and no search list.
    pub fn h3(config: &ServerGroup<'_>) -> Result<ResolverConfig, NetError>
        ensures ok { IfOk result (λ c. c
            ≡ config_of_servers
            (servers_over (over_h3 config.now.server_name config.now.path false ∷ []) config.now.ips)) }
        ensures err { IsOkUnless result NetError.OutOfMemory }
    {
        of_group(*config.ips.allocator(), config.h3())
    }

    /// The domain, the search list and the servers.
    pub fn into_parts(self) -> (Option<Name>, Vec<Name>, Vec<NameServerConfig>)
        ensures domain { result.0 ≡ self.domain }
        ensures search { result.1.items ≡ self.search }
        ensures name_servers { result.2.items ≡ self.name_servers }
    {
        let ResolverConfig {
            domain,
            search,
            name_servers,
        } = self;
        (domain, search, name_servers)
    }

    /// The domain.
    pub fn domain(&self) -> Option<&Name>
        ensures { option_copied result ≡ self.now.domain }
    {
        self.domain.as_ref()
    }

    /// Sets the domain, and makes it the whole search list. A refused call changes nothing.
    pub fn set_domain(&mut self, domain: Name) -> Result<(), NetError>
        ensures ok { OnOk result
            (self.new ≡ record self.old { domain = Some domain; search = domain ∷ [] }) }
        ensures unchanged { OnErr result (self.new ≡ self.old) }
        ensures err { IsOkUnless result NetError.OutOfMemory }
    {
        let mut search = Vec::new(*self.search.allocator());
        search.push(domain.clone()?)?;
        self.domain = Some(domain);
        self.search = search;
        Ok(())
    }

    /// The search list.
    pub fn search(&self) -> &[Name]
        ensures { result.now ≡ self.now.search }
    {
        &self.search
    }

    /// Adds a domain at the end of the search list. A refused call changes nothing.
    pub fn add_search(&mut self, search: Name) -> Result<(), NetError>
        ensures ok { OnOk result (self.new ≡ record self.old { search = self.old.search ++ search ∷ [] }) }
        ensures unchanged { OnErr result (self.new ≡ self.old) }
        ensures err { IsOkUnless result NetError.OutOfMemory }
    {
        self.search.push(search)?;
        Ok(())
    }

    /// The servers.
    pub fn name_servers(&self) -> &[NameServerConfig]
        ensures { result.now ≡ self.now.name_servers }
    {
        &self.name_servers
    }

    /// Adds a server behind the others. A refused call changes nothing.
    pub fn add_name_server(&mut self, name_server: NameServerConfig) -> Result<(), NetError>
        ensures ok { OnOk result (self.new ≡ record self.old {
          name_servers = self.old.name_servers ++ name_server ∷ [];
        }) }
        ensures unchanged { OnErr result (self.new ≡ self.old) }
        ensures err { IsOkUnless result NetError.OutOfMemory }
    {
        self.name_servers.push(name_server)?;
        Ok(())
    }

    /// A copy of every field.
    pub fn clone(&self) -> Result<ResolverConfig, NetError>
        ensures ok { IfOk result (λ c. c ≡ self.now) }
        ensures err { IsOkUnless result NetError.OutOfMemory }
    {
        Ok(Clone::clone(self)?)
    }
}

/// A copy equals its source.
impl Clone for ResolverConfig {
    ghost use Rattle.std.specs.Prelude.{◌≡◌};

    ghost is_clone = { λ source copy. copy ≡ source };

    fn clone(&self) -> Result<ResolverConfig, AllocError> {
        Ok(ResolverConfig {
            domain: self.domain.as_ref().cloned()?,
            search: self.search.clone()?,
            name_servers: self.name_servers.clone()?,
        })
    }
}

// No domain, no search list, and the servers that the iterator gives.
fn of_group(alloc: Global, servers: ServerGroupIter<'_>) -> Result<ResolverConfig, NetError>
    ensures ok { IfOk result (λ c. c ≡ config_of_servers servers.entry) }
    ensures err { IsOkUnless result NetError.OutOfMemory }
{
    let mut name_servers = Vec::new(alloc);
    for server in servers {
        name_servers.push(server?)?;
    }
    Ok(ResolverConfig::from_name_servers(name_servers))
}
