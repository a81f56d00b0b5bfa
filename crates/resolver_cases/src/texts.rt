//! The texts of codes, data and errors.
use crate::sample;
use crate::shown::{say, say_value};
use hickory_proto_core::{
    BoundsError, DNSClass, DnsError, DnsRequest, DnsRequestOptions, Exchange, IpNet, NameError,
    NetError, OpCode, Protocol, RecordType, ResponseCode, UnknownWord,
};
use hickory_proto_wire::ToWireError;
use hickory_resolver::HostsError;
use replay_script::{Line, LineFault, read_line};
use std::alloc::Global;
use std::error::Error;
use std::fmt::Debug;
use std::net::{IpAddr, Ipv4Addr};
use std::str::FromStr;

// Texts of types, some of which are none.
const TYPES: [&str; 8] = [
    "AAAA",
    "TYPE28",
    "TYPE0028",
    "TYPE65",
    "TYPE65536",
    "TYPE",
    "TYPE+1",
    "a",
];

// A record with data of each kind, as a script has it.
const RECORDS: [&str; 10] = [
    "answer a. 60 IN A 192.0.2.1",
    "answer a. 60 IN AAAA ::1",
    "answer a. 60 IN CNAME c.",
    "answer a. 60 IN NS n.",
    "answer a. 60 IN PTR p.",
    "answer a. 60 IN SOA m. r. 1 2 3 4 60",
    "answer a. 60 IN SRV 1 2 53 s.",
    "answer a. 60 IN MX 10 m.",
    "answer a. 60 IN TXT 74 -",
    "answer a. 60 IN TYPE99 07ff",
];

/// Codes as `Debug` prints them and as they are read, then errors, and what `Debug` prints of data and of questions.
pub fn show_all(rt: &impl Print, alloc: Global) -> Result<(), NetError> {
    show_codes(rt);
    read::<RecordType>(rt, "type", &TYPES);
    say_value(rt, &"TYPE5".parse::<RecordType>());
    read::<DNSClass>(rt, "class", &["CH", "CLASS255", "CLASS9", "INX"]);
    read::<ResponseCode>(rt, "code", &["NXDOMAIN", "CODE5", "CODE77", "CODE-1"]);
    show_errors(rt);
    show_asked(rt, alloc)?;
    for record in RECORDS {
        show_data(rt, read_line(alloc, true, record.as_bytes()));
    }
    Ok(())
}

fn show_data(rt: &impl Print, line: Result<Line, LineFault<'_>>) {
    match &line {
        Ok(Line::Record(_, found)) => say_value(rt, &found.rdata),
        Ok(_) => say(rt, &"no record"),
        Err(error) => say(rt, error),
    }
    drop(line);
}

fn show_value<T: Debug + Drop>(rt: &impl Print, value: T) {
    say_value(rt, &value);
    // `drop` costs the prover less than the end of the block.
    drop(value);
}

fn show_codes(rt: &impl Print) {
    say_value(rt, &[RecordType::AAAA, RecordType::Unknown(65)]);
    say_value(rt, &[DNSClass::NONE, DNSClass::Unknown(9)]);
    say_value(rt, &[ResponseCode::NXDomain, ResponseCode::Unknown(77)]);
    say_value(rt, &[OpCode::Query, OpCode::Unknown(5)]);
    say_value(rt, &[Protocol::Udp, Protocol::Tcp, Protocol::Tls]);
    say_value(rt, &[Protocol::Https, Protocol::Quic, Protocol::H3]);
    say_value(rt, &IpNet::new(IpAddr::V4(Ipv4Addr::new(10, 0, 0, 0)), 8));
    show_error(rt, UnknownWord);
}

fn read<T: FromStr<Err = UnknownWord> + Copy + Debug>(rt: &impl Print, what: &str, texts: &[&str]) {
    for text in texts {
        let _ = println!(rt; "{what} {text}: {:?}", T::from_str(text));
    }
}

fn show_errors(rt: &impl Print) {
    for error in [
        NameError::EmptyLabel,
        NameError::LabelTooLong,
        NameError::NameTooLong,
        NameError::BadCharacter,
        NameError::BadEscape,
        NameError::NotArpa,
        NameError::OutOfMemory,
    ] {
        show_error(rt, error);
        show_error(rt, NetError::from(error));
    }
    for error in [BoundsError::PositiveReversed, BoundsError::NegativeReversed] {
        show_error(rt, error);
        show_error(rt, NetError::Bounds(error));
    }
    show_error(rt, NetError::from("no luck"));
    show_error(rt, NetError::Timeout);
    show_error(rt, NetError::NoOutcome);
    for code in [ResponseCode::FormErr, ResponseCode::Unknown(77)] {
        show_error(rt, DnsError::ResponseCode(code));
        show_error(rt, NetError::Dns(DnsError::ResponseCode(code)));
    }
    for error in [
        HostsError::Read,
        HostsError::InvalidData,
        HostsError::OutOfMemory,
    ] {
        show_error(rt, error);
    }
    show_errors_of_writing(rt);
}

fn show_errors_of_writing(rt: &impl Print) {
    for error in [
        ToWireError::OutOfMemory,
        ToWireError::RelativeName,
        ToWireError::StringTooLong,
        ToWireError::KnownType,
        ToWireError::NotSpelledOut,
        ToWireError::OpCodeTooLarge,
        ToWireError::ResponseCodeTooLarge,
        ToWireError::TooManyRecords,
        ToWireError::LimitTooSmall,
        ToWireError::DataTooLong,
    ] {
        show_error(rt, error);
    }
}

fn show_error<E: Error + Drop>(rt: &impl Print, error: E) {
    let _ = println!(rt; "{error:?}: {error}");
    drop(error);
}

fn show_asked(rt: &impl Print, alloc: Global) -> Result<(), NetError> {
    let (query, options) = (sample::query(alloc, "a")?, DnsRequestOptions::default());
    show_value(rt, DnsRequest { query, options });
    let (query, outcome) = (sample::query(alloc, "a")?, Err(NetError::NoOutcome));
    show_value(rt, Exchange { query, outcome });
    Ok(())
}
