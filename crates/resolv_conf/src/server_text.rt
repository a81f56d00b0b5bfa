//! The servers of a file, as text.
ghost use Rattle.std.specs.Prelude.{◌≡◌, ◌++◌, IfOk, OnOk, string_bytes};
ghost use Rattle.std.specs.List.{flat_map, zip};
ghost use Rattle.std.specs.Net.Text.{ip_text};
ghost use Rattle.resolv_conf.specs.ServerLines.{scope_text, server_line, server_lines};

use crate::configuration::ResolvConf;
use crate::server::Scope;
use hickory_resolver_config::NameServerConfig;
use std::alloc::{AllocError, Global};
use std::net::IpAddr;

/// The servers that a file names, in order: the address of each on a line of its own, behind which `%` and the scope
/// stand where it has one.
pub fn server_lines(alloc: Global, conf: &ResolvConf) -> Result<Vec<u8>, AllocError>
    ensures { IfOk result (λ text. text.items ≡ server_lines conf.now) }
{
    let mut text = Vec::new(alloc);
    push_servers(alloc, &mut text, conf.config.name_servers(), &conf.scopes)?;
    Ok(text)
}

fn push_servers(
    alloc: Global,
    text: &mut Vec<u8>,
    servers: &[NameServerConfig],
    scopes: &[Option<Scope>],
) -> Result<(), AllocError>
    ensures { OnOk result (text.new.items ≡ text.old.items ++ flat_map server_line (zip servers.now scopes.now)) }
{
    for (server, scope) in servers.iter().zip(scopes) {
        push_server(alloc, text, server, scope)?;
    }
    Ok(())
}

fn push_server(
    alloc: Global,
    text: &mut Vec<u8>,
    server: &NameServerConfig,
    scope: &Option<Scope>,
) -> Result<(), AllocError>
    ensures { OnOk result (text.new.items ≡ text.old.items ++ server_line (server.now, scope.now)) }
{
    let address = address_text(alloc, server.ip)?;
    text.extend_from_slice(address.as_bytes())?;
    push_scope(text, scope)?;
    text.push(b'\n')?;
    Ok(())
}

fn address_text(alloc: Global, address: IpAddr) -> Result<String, AllocError>
    ensures { IfOk result (λ text. string_bytes text ≡ ip_text address) }
{
    format!(in alloc; "{address}")
}

fn push_scope(text: &mut Vec<u8>, scope: &Option<Scope>) -> Result<(), AllocError>
    ensures { OnOk result (text.new.items ≡ text.old.items ++ scope_text scope.now) }
{
    if let Some(scope) = scope {
        text.push(b'%')?;
        text.extend_from_slice(scope.as_bytes())?;
    }
    Ok(())
}
