//! The names of addresses and networks (RFC 1035, section 3.5, and RFC 3596, section 2.5).
ghost use Rattle.std.specs.Prelude.{◌≡◌, ◌≢◌, ◌∷◌, ◌++◌, ◌<◌, [], ℕ, true, false, length, slice_index, IfOk, IfErr, IfSome, IfNone, IsOkUnless, codes, decimal};
ghost use Rattle.std.specs.declared.net.IpAddr.TheVariants.{V4, V6};
ghost use Rattle.hickory_proto_names.specs.Name.{lower_label, label_bytes};
ghost use Rattle.hickory_proto_names.specs.Arpa.{IsArpaNameOf, arpa_name, whole_net, IsWritten, IsNeverWritten, IsNetOfLabels, hex_label, nibbles_of};
ghost use Rattle.hickory_proto_names.specs.declared.ip.IpNet.{IpNet};

use crate::ip::IpNet;
use crate::name::Name;
use crate::name_error::NameError;
use std::alloc::Global;
use std::net::{IpAddr, Ipv4Addr, Ipv6Addr};
use std::str;

impl Name {
    /// The name of the address: its octets from the last to the first before `in-addr.arpa.` (RFC 1035,
    /// section 3.5), or its 32 hex digits from the last to the first before `ip6.arpa.` (RFC 3596, section
    /// 2.5). Reading it gives the address back, with all its bits. The only error is to be out of memory.
    pub fn from_ip(alloc: Global, address: IpAddr) -> Result<Name, NameError>
        ensures ok { IfOk result (λ n. n ≡ arpa_name (whole_net address)) }
        ensures back { IfOk result (λ n. IsArpaNameOf n (whole_net address)) }
        ensures err { IsOkUnless result NameError.OutOfMemory }
    {
        match address {
            IpAddr::V4(address) => ipv4_name(alloc, address)?.share(),
            IpAddr::V6(address) => ipv6_name(alloc, address)?.share(),
        }
    }

    /// The network of which this is the name, without regard to case; `NotArpa` where there is none. Fewer
    /// labels than an address has are its first parts, and the others are zero. Takes no memory.
    pub fn parse_arpa_name(&self) -> Result<IpNet, NameError>
        ensures ok { IfOk result (IsArpaNameOf self.now) }
        ensures only { (net : IpNet) → IsArpaNameOf self.now net → result ≡ Ok net }
        ensures err { IfErr result (λ e. e ≡ NameError.NotArpa) }
    {
        let [parts @ .., family, arpa] = self.labels() else {
            return Err(NameError::NotArpa);
        };
        if !self.is_fqdn() {
            return Err(NameError::NotArpa);
        }
        if !arpa.eq_ignore_ascii_case(b"arpa") {
            return Err(NameError::NotArpa);
        }
        if family.eq_ignore_ascii_case(b"in-addr") {
            ipv4_net(parts).ok_or(NameError::NotArpa)
        } else if family.eq_ignore_ascii_case(b"ip6") {
            ipv6_net(parts).ok_or(NameError::NotArpa)
        } else {
            Err(NameError::NotArpa)
        }
    }
}

fn ipv4_name(alloc: Global, address: Ipv4Addr) -> Result<Name, NameError>
    ensures ok { IfOk result (λ n. n ≡ arpa_name (whole_net (V4 address))) }
    ensures back { IfOk result (λ n. IsArpaNameOf n (whole_net (V4 address))) }
    ensures err { IsOkUnless result NameError.OutOfMemory }
{
    let octets = address.octets();
    let mut labels = Vec::new(alloc);
    for i in 0..4 {
        let octet = octets[3 - i];
        labels.push(format!(in alloc; "{octet}")?.into_bytes())?;
    }
    Name::from_labels(with_zone(alloc, labels, b"in-addr")?)
}

fn ipv6_name(alloc: Global, address: Ipv6Addr) -> Result<Name, NameError>
    ensures ok { IfOk result (λ n. n ≡ arpa_name (whole_net (V6 address))) }
    ensures back { IfOk result (λ n. IsArpaNameOf n (whole_net (V6 address))) }
    ensures err { IsOkUnless result NameError.OutOfMemory }
{
    let octets = address.octets();
    let mut labels = Vec::new(alloc);
    for i in 0..16 {
        let octet = octets[15 - i];
        labels.push(hex_label(alloc, octet % 16)?)?;
        labels.push(hex_label(alloc, octet / 16)?)?;
    }
    Name::from_labels(with_zone(alloc, labels, b"ip6")?)
}

// The labels, this one and `arpa`.
fn with_zone(
    alloc: Global,
    mut labels: Vec<Vec<u8>>,
    family: &[u8],
) -> Result<Vec<Vec<u8>>, NameError>
    ensures ok { IfOk result
        (λ ls. label_bytes ls.items ≡ label_bytes labels.items ++ family.now ∷ codes "arpa" ∷ []) }
    ensures err { IsOkUnless result NameError.OutOfMemory }
{
    labels.push(Vec::from_slice(alloc, family)?)?;
    labels.push(Vec::from_slice(alloc, b"arpa")?)?;
    Ok(labels)
}

// The label of a hex digit.
fn hex_label(alloc: Global, digit: u8) -> Result<Vec<u8>, NameError>
    requires { digit < 16 }
    ensures ok { IfOk result (λ v. v.items ≡ hex_label digit) }
    ensures err { IsOkUnless result NameError.OutOfMemory }
{
    let character = if digit < 10 {
        b'0' + digit
    } else {
        b'a' - 10 + digit
    };
    Ok(vec![in alloc; character]?)
}

fn ipv4_net(labels: &[Vec<u8>]) -> Option<IpNet>
    ensures { IsNetOfLabels false (label_bytes labels.now) result }
{
    let [a, b, c, d] = read_octets(labels)?;
    let address = IpAddr::V4(Ipv4Addr::new(a, b, c, d));
    Some(IpNet::new(address, 8 * labels.len() as u8))
}

fn ipv6_net(labels: &[Vec<u8>]) -> Option<IpNet>
    ensures { IsNetOfLabels true (label_bytes labels.now) result }
{
    let digits = read_hex_digits(labels)?;
    let address = IpAddr::V6(Ipv6Addr::from_octets(octets_of_digits(digits)));
    Some(IpNet::new(address, 4 * labels.len() as u8))
}

// Each two hex digits as an octet, the high one first.
fn octets_of_digits(digits: [u8; 32]) -> [u8; 16]
    requires { (k : ℕ) → slice_index digits k < 16 }
    ensures digits { nibbles_of result ≡ digits }
    ensures len { length result ≡ 16 }
{
    let mut octets = [0; 16];
    for i in 0..16 {
        octets[i] = 16 * digits[2 * i] + digits[2 * i + 1];
    }
    octets
}

// The octets of a network, of which the labels write the first ones, the last first.
fn read_octets(labels: &[Vec<u8>]) -> Option<[u8; 4]>
    ensures found { IfSome result (IsWritten decimal 256 (label_bytes labels.now)) }
    ensures none { IfNone result (IsNeverWritten decimal 256 4 (label_bytes labels.now)) }
{
    if 4 < labels.len() {
        return None;
    }
    let mut octets = [0; 4];
    for i in 0..labels.len() {
        octets[i] = read_octet(&labels[labels.len() - 1 - i])?;
    }
    Some(octets)
}

// The same for hex digits.
fn read_hex_digits(labels: &[Vec<u8>]) -> Option<[u8; 32]>
    ensures found { IfSome result (IsWritten hex_label 16 (label_bytes labels.now)) }
    ensures none { IfNone result (IsNeverWritten hex_label 16 32 (label_bytes labels.now)) }
{
    if 32 < labels.len() {
        return None;
    }
    let mut digits = [0; 32];
    for i in 0..labels.len() {
        digits[i] = read_hex_digit(&labels[labels.len() - 1 - i])?;
    }
    Some(digits)
}

// The number up to 255 that the label writes without leading zeros.
fn read_octet(label: &[u8]) -> Option<u8>
    ensures found { IfSome result (λ n. lower_label label.now ≡ decimal n) }
    ensures none { IfNone result ((n : ℕ) → n < 256 → lower_label label.now ≢ decimal n) }
{
    let Some(first) = label.first() else {
        return None;
    };
    if *first == b'+' {
        return None;
    }
    if *first == b'0' && 1 < label.len() {
        return None;
    }
    let Ok(text) = str::from_utf8(label) else {
        return None;
    };
    text.parse::<u8>().ok()
}

// The value of the one hex digit, of either case.
fn read_hex_digit(label: &[u8]) -> Option<u8>
    ensures found { IfSome result (λ n. (n < 16) × (lower_label label.now ≡ hex_label n)) }
    ensures none { IfNone result ((n : ℕ) → n < 16 → lower_label label.now ≢ hex_label n) }
{
    match label {
        [digit] => Some(char::from(*digit).to_digit(16)? as u8),
        _ => None,
    }
}
