//! Networks.
ghost use Rattle.std.specs.Prelude.{◌≡◌, ◌==◌, ◌+◌, ◌++◌, ◌∷◌, [], OnOk, position, option_map};
ghost use Rattle.hickory_proto_core.specs.Arpa.{whole_net};
ghost use Rattle.hickory_proto_core.specs.Codes.{decimal_below};
ghost use Rattle.resolv_conf.specs.AddressDecided.{address_of};
ghost use Rattle.forwarder_settings.specs.Prefixes.{address_bits, address_in, hostless_networks, length_in, near_networks, net_v4, net_v6, network_in, prefix_at, prefix_field};

use hickory_proto_core::{IpNet, read_decimal};
use memchr::memchr;
use replay_script::{LineFault, ScriptFault};
use std::alloc::AllocError;
use std::net::{IpAddr, Ipv4Addr, Ipv6Addr};

/// ADDRESS[/LENGTH]: without a length it is the whole address.
pub fn read_prefix(word: &str) -> Result<IpNet, LineFault<'_>>
    ensures { result ≡ prefix_field word.now }
{
    match slash_place(word) {
        Some(place) => read_network(word, &word[..place], &word[place + 1..]),
        None => Ok(whole_net(read_address(word, word)?)),
    }
}

// The place of the first `/`.
fn slash_place(word: &str) -> Option<usize>
    ensures { result ≡ position (λ byte. byte == 47) word.now }
{
    memchr(b'/', word.as_bytes())
}

// These are the address and the length of the word.
fn read_network<'a>(word: &'a str, text: &str, digits: &str) -> Result<IpNet, LineFault<'a>>
    ensures { result ≡ network_in word.now text.now digits.now }
{
    let address = read_address(word, text)?;
    let length = read_length(word, address, digits)?;
    Ok(IpNet::new(address, length))
}

fn read_address<'a>(word: &'a str, text: &str) -> Result<IpAddr, LineFault<'a>>
    ensures { result ≡ address_in word.now text.now }
{
    match address_of(text) {
        Some(address) => Ok(address),
        None => Err(LineFault::wrong_field(ScriptFault::BadAddress, word)),
    }
}

// The address that the text spells, if it spells one.
fn address_of(text: &str) -> Option<IpAddr>
    ensures { result ≡ address_of text.now }
{
    IpAddr::parse_ascii(text.as_bytes()).ok()
}

fn read_length<'a>(word: &'a str, address: IpAddr, digits: &str) -> Result<u8, LineFault<'a>>
    ensures { result ≡ length_in word.now address digits.now }
{
    match length_within(address_bits(address), digits) {
        Some(length) => Ok(length),
        None => Err(LineFault::wrong_field(ScriptFault::BadNumber, word)),
    }
}

// The number that decimal digits write, if it is at most this one.
fn length_within(most: u8, digits: &str) -> Option<u8>
    ensures { result ≡ decimal_below (most + 1) digits.now }
{
    let length = read_decimal(digits)?;
    if length <= u64::from(most) {
        Some(length as u8)
    } else {
        None
    }
}

// How many bits an address has.
fn address_bits(address: IpAddr) -> u8
    ensures { result ≡ address_bits address }
{
    match address {
        IpAddr::V4(_) => 32,
        IpAddr::V6(_) => 128,
    }
}

fn whole_net(address: IpAddr) -> IpNet
    ensures { result ≡ whole_net address }
{
    IpNet::new(address, address_bits(address))
}

/// Puts the networks of a house behind others: loopback, private and link-local ones.
pub fn push_near_networks(nets: &mut Vec<IpNet>) -> Result<(), AllocError>
    ensures { OnOk result (nets.new.items ≡ nets.old.items ++ near_networks) }
{
    nets.extend_from_slice(&[
        net_v4(127, 0, 8),
        IpNet::new(IpAddr::V6(Ipv6Addr::LOCALHOST), 128),
        net_v4(10, 0, 8),
        net_v4(172, 16, 12),
        net_v4(192, 168, 16),
        net_v4(169, 254, 16),
        net_v6(0xfc00, 0, 7),
        net_v6(0xfe80, 0, 10),
    ])
}

/// Puts the networks of no host behind others.
pub fn push_hostless_networks(nets: &mut Vec<IpNet>) -> Result<(), AllocError>
    ensures { OnOk result (nets.new.items ≡ nets.old.items ++ hostless_networks) }
{
    nets.extend_from_slice(&[net_v4(0, 0, 8), net_v6(0, 0, 128), net_v6(0, 0xffff, 96)])
}

// A network by the first two octets of its address.
fn net_v4(first: u8, second: u8, length: u8) -> IpNet
    ensures { result ≡ net_v4 (first ∷ second ∷ 0 ∷ 0 ∷ []) length }
{
    IpNet::new(IpAddr::V4(Ipv4Addr::new(first, second, 0, 0)), length)
}

// A network by the first and the sixth segment of its address.
fn net_v6(first: u16, sixth: u16, length: u8) -> IpNet
    ensures { result ≡ net_v6 (first ∷ 0 ∷ 0 ∷ 0 ∷ 0 ∷ sixth ∷ 0 ∷ 0 ∷ []) length }
{
    IpNet::new(
        IpAddr::V6(Ipv6Addr::new(first, 0, 0, 0, 0, sixth, 0, 0)),
        length,
    )
}
