//! Questions, records and their data as text: their fields in order, a space between them.
ghost use Rattle.std.specs.Prelude.{◌≡◌, Some};
ghost use Rattle.hickory_proto_names.specs.Name.{label_bytes};
ghost use Rattle.hickory_proto_core.specs.Records.{data_of};
ghost use Rattle.hickory_proto_core.specs.Texts.{bytes_text, data_field, data_text, kind_text, question_text, record_text, shown_name, string_fields, strings_text};

use crate::query::Query;
use crate::record_data::RData;
use crate::resource::Record;
use hickory_proto_names::Name;
use std::fmt;

/// NAME CLASS TYPE, where the relative name without labels is `@` (RFC 1035, section 5.1).
impl fmt::Display for Query {
    ghost output = { λ q. Some (question_text q) };

    fn fmt<W: fmt::Write>(&self, f: &mut fmt::Formatter<W>) -> fmt::Result {
        let name = ShownName(&self.name);
        let (class, record_type) = (self.query_class, self.query_type);
        write!(f, "{name} {class} {record_type}")
    }
}

/// NAME TTL CLASS TYPE, and the fields of the data.
impl fmt::Display for Record {
    ghost output = { λ r. Some (record_text r) };

    fn fmt<W: fmt::Write>(&self, f: &mut fmt::Formatter<W>) -> fmt::Result {
        let name = ShownName(&self.name);
        let kind = ShownKind(self);
        let rdata = DataField(&self.rdata);
        write!(f, "{name} {kind}{rdata}")
    }
}

/// The fields of the data: addresses, names, numbers, and bytes as hex digits, where `-` stands for no bytes. A
/// TXT record has a field for each of its strings.
impl fmt::Display for RData {
    ghost output = { λ d. Some (data_text (data_of d)) };

    fn fmt<W: fmt::Write>(&self, f: &mut fmt::Formatter<W>) -> fmt::Result {
        match self {
            RData::A(address) => write!(f, "{address}"),
            RData::AAAA(address) => write!(f, "{address}"),
            RData::CNAME(target) | RData::NS(target) | RData::PTR(target) => {
                let target = ShownName(target);
                write!(f, "{target}")
            }
            RData::SOA {
                mname,
                rname,
                serial,
                refresh,
                retry,
                expire,
                minimum,
            } => {
                let (mname, rname) = (ShownName(mname), ShownName(rname));
                write!(f, "{mname} {rname}")?;
                write!(f, " {serial} {refresh} {retry} {expire} {minimum}")
            }
            RData::SRV {
                priority,
                weight,
                port,
                target,
            } => {
                let target = ShownName(target);
                write!(f, "{priority} {weight} {port} {target}")
            }
            RData::MX {
                preference,
                exchange,
            } => {
                let exchange = ShownName(exchange);
                write!(f, "{preference} {exchange}")
            }
            RData::TXT(strings) => {
                let shown = ShownStrings(strings);
                write!(f, "{shown}")
            }
            RData::Unknown { code: _, bytes } => {
                let shown = ShownBytes(bytes);
                write!(f, "{shown}")
            }
        }
    }
}

// A name as it is printed: the relative name without labels is `@`.
#[derive(Clone, Copy)]
struct ShownName<'a>(&'a Name);

impl fmt::Display for ShownName<'_> {
    ghost output = { λ x. Some (shown_name x.0.now) };

    fn fmt<W: fmt::Write>(&self, f: &mut fmt::Formatter<W>) -> fmt::Result {
        let name = self.0;
        if name.labels().is_empty() && !name.is_fqdn() {
            return f.write_str("@");
        }
        write!(f, "{name}")
    }
}

// TTL CLASS TYPE
#[derive(Clone, Copy)]
struct ShownKind<'a>(&'a Record);

impl fmt::Display for ShownKind<'_> {
    ghost output = { λ x. Some (kind_text x.0.now) };

    fn fmt<W: fmt::Write>(&self, f: &mut fmt::Formatter<W>) -> fmt::Result {
        let found = self.0;
        let (ttl, class, record_type) = (found.ttl, found.dns_class, found.record_type());
        write!(f, "{ttl} {class} {record_type}")
    }
}

// A space and the data, or nothing for a TXT record without strings.
#[derive(Clone, Copy)]
struct DataField<'a>(&'a RData);

impl fmt::Display for DataField<'_> {
    ghost output = { λ x. Some (data_field (data_of x.0.now)) };

    fn fmt<W: fmt::Write>(&self, f: &mut fmt::Formatter<W>) -> fmt::Result {
        match self.0 {
            RData::TXT(strings) => {
                let shown = StringFields(strings);
                write!(f, "{shown}")
            }
            rdata => write!(f, " {rdata}"),
        }
    }
}

// Strings, a space between them.
#[derive(Clone, Copy)]
struct ShownStrings<'a>(&'a [Vec<u8>]);

impl fmt::Display for ShownStrings<'_> {
    ghost output = { λ x. Some (strings_text (label_bytes x.0.now)) };

    fn fmt<W: fmt::Write>(&self, f: &mut fmt::Formatter<W>) -> fmt::Result {
        let [first, others @ ..] = self.0 else {
            return Ok(());
        };
        let (first, others) = (ShownBytes(first), StringFields(others));
        write!(f, "{first}{others}")
    }
}

// Strings, a space before each.
#[derive(Clone, Copy)]
struct StringFields<'a>(&'a [Vec<u8>]);

impl fmt::Display for StringFields<'_> {
    ghost output = { λ x. Some (string_fields (label_bytes x.0.now)) };

    fn fmt<W: fmt::Write>(&self, f: &mut fmt::Formatter<W>) -> fmt::Result {
        for string in self.0 {
            let shown = ShownBytes(string);
            write!(f, " {shown}")?;
        }
        Ok(())
    }
}

// Bytes as hex digits, where `-` stands for no bytes.
#[derive(Clone, Copy)]
struct ShownBytes<'a>(&'a [u8]);

impl fmt::Display for ShownBytes<'_> {
    ghost output = { λ x. Some (bytes_text x.0.now) };

    fn fmt<W: fmt::Write>(&self, f: &mut fmt::Formatter<W>) -> fmt::Result {
        if self.0.is_empty() {
            return f.write_str("-");
        }
        for byte in self.0 {
            write!(f, "{byte:02x}")?;
        }
        Ok(())
    }
}
