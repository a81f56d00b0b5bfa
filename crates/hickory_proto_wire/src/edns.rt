//! Extension mechanisms for DNS (RFC 6891).
use std::marker::Model;

/// What the OPT record of a message says beside the upper bits of the response code (RFC 6891, section 6.1).
#[derive(Debug, Drop)]
pub struct Edns {
    /// How many octets the sender can take in one message.
    pub size: u16,
    /// The version.
    pub version: u8,
    /// DNSSEC OK, the first bit, and 15 reserved bits.
    pub flags: u16,
    /// The options, as they stand.
    pub options: Vec<u8>,
}

impl Model for Edns {
    ghost use Rattle.hickory_proto_wire.specs.Edns.{EdnsValue};

    ghost Value = { EdnsValue };

    ghost view = { λ e. record { size = e.size; version = e.version; flags = e.flags; options = e.options.items } };
}
