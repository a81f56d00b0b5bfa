//! The server of a line `nameserver`.
ghost use Rattle.std.specs.Prelude.{◌≡◌, ℕ, List, None, IsOk, IfOk, option_map};
ghost use Rattle.resolv_conf.specs.AddressDecided.{address_of};
ghost use Rattle.resolv_conf.specs.Servers.{is_link_local, kept_scope, plain_server, scoped_server, server_of};
ghost use Rattle.resolv_conf.specs.Text.{cut};

use crate::text::cut_at;
use std::alloc::{AllocError, Global};
use std::marker::Model;
use std::net::{IpAddr, Ipv6Addr};

/// The scope of a link-local address (RFC 4007, section 11): the octets behind `%`, the name of an interface or its
/// number. It is never empty.
#[derive(Debug, Drop)]
pub struct Scope {
    text: Vec<u8>,
}

impl Model for Scope {
    ghost use Rattle.std.specs.Prelude.{ℕ, List};

    ghost Value = { List ℕ };

    ghost view = { λ s. s.text.items };
}

impl Scope {
    /// The octets.
    pub fn as_bytes(&self) -> &[u8]
        ensures { result.now ≡ self.now }
    {
        &self.text
    }
}

/// A server.
#[derive(Debug, Drop)]
pub struct Server {
    /// Its address.
    pub address: IpAddr,
    /// Its scope, where it has one.
    pub scope: Option<Scope>,
}

/// The server that a word is: an address, and behind `%` the scope of an IPv6 address. Only a scope takes memory.
pub fn read_server(alloc: Global, word: &[u8]) -> Result<Option<Server>, AllocError>
    ensures server { IfOk result (λ server. server ≡ server_of word.now) }
    ensures plain { cut 37 word.now ≡ None → IsOk result }
{
    match cut_at(b'%', word) {
        Some((text, scope)) => scoped_server(alloc, text, scope),
        None => Ok(plain_server(word)),
    }
}

// The server of this address, without a scope.
fn plain_server(text: &[u8]) -> Option<Server>
    ensures { result ≡ option_map plain_server (address_of text.now) }
{
    match read_address(text) {
        Some(address) => Some(Server {
            address,
            scope: None,
        }),
        None => None,
    }
}

// The server of this address, which is to be an IPv6 address, and scope.
fn scoped_server(alloc: Global, text: &[u8], scope: &[u8]) -> Result<Option<Server>, AllocError>
    ensures { IfOk result (λ server. server ≡ scoped_server (address_of text.now) scope.now) }
{
    match read_address(text) {
        Some(IpAddr::V6(address)) => {
            let scope = kept_scope(alloc, address, scope)?;
            Ok(Some(Server {
                address: IpAddr::V6(address),
                scope,
            }))
        }
        _ => Ok(None),
    }
}

// The scope, where the address is link-local and the scope is not empty.
#[tactic(auto, using(std::proofs::lemmas::Grind::common_steps), unfolding(crate::specs::Servers::kept_scope))]
fn kept_scope(alloc: Global, address: Ipv6Addr, scope: &[u8]) -> Result<Option<Scope>, AllocError>
    ensures { IfOk result (λ kept. kept ≡ kept_scope address scope.now) }
{
    if scope.is_empty() || !is_link_local(address) {
        return Ok(None);
    }
    let text = Vec::from_slice(alloc, scope)?;
    Ok(Some(Scope { text }))
}

// Whether the address is of fe80::/10 (RFC 4291, section 2.5.6).
fn is_link_local(address: Ipv6Addr) -> bool
    ensures { result ≡ is_link_local address }
{
    matches!(address.segments(), [0xfe80..=0xfebf, ..])
}

// The address that the octets spell, if they spell one.
fn read_address(text: &[u8]) -> Option<IpAddr>
    ensures { result ≡ address_of text.now }
{
    IpAddr::parse_ascii(text).ok()
}
