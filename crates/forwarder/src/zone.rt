//! A zone that answers for itself.
use hickory_proto_core::{
    DnsHandle, DnsRequest, DnsResponse, Message, Name, NetError, OpCode, Query, Record,
    ResponseCode,
};
use std::alloc::Global;
use std::marker::Model;

/// An upstream that answers from a list of records, and counts how often it was asked.
#[derive(Drop)]
pub struct Zone {
    alloc: Global,
    records: Vec<Record>,
    soa: Record,
    pub asked: u64,
}

impl Model for Zone {
    ghost use Rattle.forwarder.specs.Zone.{ZoneValue};

    ghost Value = { ZoneValue };

    ghost view = { λ z. record { records = z.records.items; soa = z.soa; asked = z.asked } };
}

impl Zone {
    /// A zone of these records, with this SOA record for its negative answers, that nothing was asked of yet.
    pub fn new(alloc: Global, soa: Record, records: Vec<Record>) -> Zone {
        Zone {
            alloc,
            records,
            soa,
            asked: 0,
        }
    }

    fn answer(&self, query: &Query) -> Result<Message, NetError> {
        let mut message = Message::response(self.alloc, 0, OpCode::Query);
        self.fill(&mut message, query)?;
        Ok(message)
    }

    // The records of the name and type, or else the SOA record, and NXDOMAIN unless the name has other records.
    fn fill(&self, message: &mut Message, query: &Query) -> Result<(), NetError> {
        message.add_query(query.clone()?)?;
        for found in &self.records {
            if found.name == query.name && found.record_type() == query.query_type {
                message.add_answer(found.clone()?)?;
            }
        }
        if message.answers.is_empty() {
            self.refer(message, &query.name)?;
        }
        Ok(())
    }

    fn refer(&self, message: &mut Message, name: &Name) -> Result<(), NetError> {
        if !self.records.iter().any(|r| r.name == *name) {
            message.metadata.response_code = ResponseCode::NXDomain;
        }
        message.add_authority(self.soa.clone()?)
    }
}

impl DnsHandle for Zone {
    ghost use Rattle.forwarder.specs.Zone.{ZoneStep};

    ghost step = { ZoneStep };

    fn send(&mut self, request: &DnsRequest) -> Result<DnsResponse, NetError> {
        self.asked = self.asked.saturating_add(1);
        let message = self.answer(&request.query)?;
        Ok(DnsResponse::from_message(message))
    }
}
