//! Lines that name a server, and the servers of a file.
ghost use Rattle.std.specs.Prelude.{◌≡◌, ◌⊎◌, ◌++◌, Ok, Err, IfOk, OnOk, IsOkUnless, map};
ghost use Rattle.std.specs.List.{zip};
ghost use Rattle.replay_script.specs.Faults.{out_of_memory};
ghost use Rattle.replay_script.specs.Words.{texts};
ghost use Rattle.session_settings.specs.ServerLine.{access_of, address_field, begins_with_digit, config_at, connection_to, file_servers, port_and_protocol, port_field, port_or_protocol, protocol_field, protocols_of, scope_octets, scoped, server_at, server_line, server_with};

use hickory_resolver_config::{ConnectionConfig, NameServerConfig};
use hickory_resolver_pool::PoolServer;
use replay_script::words::number16;
use replay_script::{LineFault, ScriptFault};
use resolv_conf::{ResolvConf, Scope, Server, read_server};
use std::alloc::{AllocError, Global};
use std::net::IpAddr;

/// How a server is asked.
#[derive(Clone, Copy)]
pub struct Access {
    /// At this port.
    pub port: u16,
    /// By these protocols.
    pub protocols: Protocols,
}

/// By which protocols a server is asked.
#[derive(Clone, Copy)]
pub enum Protocols {
    UdpAndTcp,
    Udp,
    Tcp,
}

/// ADDRESS [PORT] [PROTOCOL]
pub fn read_server_line<'a>(alloc: Global, fields: &[&'a str]) -> Result<PoolServer, LineFault<'a>>
    ensures { (result ≡ server_line (texts fields.now)) ⊎ (result ≡ Err out_of_memory) }
{
    let [address, fields @ ..] = fields else {
        return Err(LineFault::wrong_line(ScriptFault::FieldCount));
    };
    match read_address(alloc, address) {
        Ok(server) => read_server_at(alloc, &server, fields),
        Err(fault) => Err(fault),
    }
}

// ADDRESS
fn read_address(alloc: Global, word: &str) -> Result<Server, LineFault<'_>>
    ensures { (result ≡ address_field word.now) ⊎ (result ≡ Err out_of_memory) }
{
    match read_server(alloc, word.as_bytes()) {
        Ok(Some(server)) => Ok(server),
        Ok(None) => Err(LineFault::wrong_field(ScriptFault::BadAddress, word)),
        Err(AllocError) => Err(LineFault::wrong_line(ScriptFault::OutOfMemory)),
    }
}

// [PORT] [PROTOCOL] of the server at this address.
fn read_server_at<'a>(
    alloc: Global,
    server: &Server,
    fields: &[&'a str],
) -> Result<PoolServer, LineFault<'a>>
    ensures { (result ≡ server_with server.now (access_of (texts fields.now)))
        ⊎ (result ≡ Err out_of_memory) }
{
    match read_access(fields) {
        Ok(access) => memory_only(server_at(alloc, server, access)),
        Err(fault) => Err(fault),
    }
}

// What fails only where memory runs out.
fn memory_only<'a>(made: Result<PoolServer, AllocError>) -> Result<PoolServer, LineFault<'a>>
    ensures ok { IfOk result (λ server. made ≡ Ok server) }
    ensures err { IsOkUnless result out_of_memory }
{
    match made {
        Ok(server) => Ok(server),
        Err(AllocError) => Err(LineFault::wrong_line(ScriptFault::OutOfMemory)),
    }
}

// [PORT] [PROTOCOL]
fn read_access<'a>(fields: &[&'a str]) -> Result<Access, LineFault<'a>>
    ensures { result ≡ access_of (texts fields.now) }
{
    match fields {
        [] => Ok(Access {
            port: 53,
            protocols: Protocols::UdpAndTcp,
        }),
        [word] => read_port_or_protocol(word),
        [port, protocol] => read_port_and_protocol(port, protocol),
        _ => Err(LineFault::wrong_line(ScriptFault::FieldCount)),
    }
}

fn read_port_or_protocol(word: &str) -> Result<Access, LineFault<'_>>
    ensures { result ≡ port_or_protocol word.now }
{
    if begins_with_digit(word) {
        Ok(Access {
            port: read_port(word)?,
            protocols: Protocols::UdpAndTcp,
        })
    } else {
        Ok(Access {
            port: 53,
            protocols: read_protocol(word)?,
        })
    }
}

fn begins_with_digit(word: &str) -> bool
    ensures { result ≡ begins_with_digit word.now }
{
    match word.as_bytes() {
        [first, ..] => first.is_ascii_digit(),
        [] => false,
    }
}

// PORT PROTOCOL
fn read_port_and_protocol<'a>(port: &'a str, protocol: &'a str) -> Result<Access, LineFault<'a>>
    ensures { result ≡ port_and_protocol port.now protocol.now }
{
    Ok(Access {
        port: read_port(port)?,
        protocols: read_protocol(protocol)?,
    })
}

fn read_port(text: &str) -> Result<u16, LineFault<'_>>
    ensures { result ≡ port_field text.now }
{
    let port = number16(text)?;
    if port == 0 {
        return Err(LineFault::wrong_field(ScriptFault::BadNumber, text));
    }
    Ok(port)
}

fn read_protocol(word: &str) -> Result<Protocols, LineFault<'_>>
    ensures { result ≡ protocol_field word.now }
{
    match word {
        "udp" => Ok(Protocols::Udp),
        "tcp" => Ok(Protocols::Tcp),
        _ => Err(LineFault::wrong_field(ScriptFault::UnknownWord, word)),
    }
}

fn server_at(alloc: Global, server: &Server, access: Access) -> Result<PoolServer, AllocError>
    ensures { IfOk result (λ s. s ≡ server_at server.now access) }
{
    Ok(PoolServer {
        config: config_at(alloc, access, server.address)?,
        scope: scope_octets(alloc, &server.scope)?,
    })
}

// A trusted server at this address.
fn config_at(alloc: Global, access: Access, address: IpAddr) -> Result<NameServerConfig, AllocError>
    ensures { IfOk result (λ config. config ≡ config_at access address) }
{
    let connections = connections(alloc, access)?;
    Ok(NameServerConfig::new(address, true, connections))
}

fn connections(alloc: Global, access: Access) -> Result<Vec<ConnectionConfig>, AllocError>
    ensures { IfOk result
        (λ found. found.items ≡ map (connection_to access.port) (protocols_of access.protocols)) }
{
    let mut found = Vec::new(alloc);
    match access.protocols {
        Protocols::UdpAndTcp => {
            found.push(at_port(ConnectionConfig::udp(), access.port))?;
            found.push(at_port(ConnectionConfig::tcp(), access.port))?;
        }
        Protocols::Udp => found.push(at_port(ConnectionConfig::udp(), access.port))?,
        Protocols::Tcp => found.push(at_port(ConnectionConfig::tcp(), access.port))?,
    }
    Ok(found)
}

// The connection, to this port.
fn at_port(mut connection: ConnectionConfig, port: u16) -> ConnectionConfig
    ensures { result ≡ record connection { port = port } }
{
    connection.port = port;
    connection
}

// The octets of a scope, none where there is none.
fn scope_octets(alloc: Global, scope: &Option<Scope>) -> Result<Vec<u8>, AllocError>
    ensures { IfOk result (λ octets. octets.items ≡ scope_octets scope.now) }
{
    match scope {
        Some(scope) => Ok(Vec::from_slice(alloc, scope.as_bytes())?),
        None => Ok(Vec::new(alloc)),
    }
}

/// The servers of a file.
pub fn file_servers(alloc: Global, conf: &ResolvConf) -> Result<Vec<PoolServer>, AllocError>
    ensures { IfOk result (λ servers. servers.items ≡ file_servers conf.now) }
{
    let mut servers = Vec::new(alloc);
    push_servers(alloc, &mut servers, &conf.config.name_servers, &conf.scopes)?;
    Ok(servers)
}

fn push_servers(
    alloc: Global,
    servers: &mut Vec<PoolServer>,
    configs: &[NameServerConfig],
    scopes: &[Option<Scope>],
) -> Result<(), AllocError>
    ensures { OnOk result
        (servers.new.items ≡ servers.old.items ++ map scoped (zip configs.now scopes.now)) }
{
    for (config, scope) in configs.iter().zip(scopes) {
        servers.push(scoped(alloc, config, scope)?)?;
    }
    Ok(())
}

// The server, beside its scope.
fn scoped(
    alloc: Global,
    config: &NameServerConfig,
    scope: &Option<Scope>,
) -> Result<PoolServer, AllocError>
    ensures { IfOk result (λ server. server ≡ scoped (config.now, scope.now)) }
{
    Ok(PoolServer {
        config: Clone::clone(config)?,
        scope: scope_octets(alloc, scope)?,
    })
}
