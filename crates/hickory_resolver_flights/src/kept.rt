//! A reply that is kept.
use hickory_proto_wire::WireMessage;
use std::marker::Model;

/// A reply that was believed, and that is or may become what the question came to.
#[derive(Drop)]
pub struct KeptReply {
    /// Its number among the replies that were believed.
    pub number: u64,
    /// Its octets.
    pub octets: Vec<u8>,
    /// The message that they spell, with the letters that were asked, unless they were cut or spell none.
    pub message: Option<WireMessage>,
}

impl Model for KeptReply {
    ghost use Rattle.hickory_resolver_flights.specs.Flights.{KeptValue};

    ghost Value = { KeptValue };

    ghost view = { λ k. record { number = k.number; octets = k.octets.items; message = k.message } };
}
