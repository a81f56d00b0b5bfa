//! How many labels the names of a message take, before it is read. What is read for that is let go entry by entry, but
//! for the names, which the reading finds again.
ghost use Rattle.std.specs.Prelude.{◌≡◌, ◌≤◌, ◌<◌, ◌+◌, ◌*◌, ◌^◌, Ok, Err, Some, None, nat_lt, nat_le, length, IfOk, IfSome, OnOk, IsOkUnless};
ghost use Rattle.hickory_proto_wire.specs.Octets.{Gives};
ghost use Rattle.hickory_proto_wire.specs.LabelsPlace.{measure};
ghost use Rattle.hickory_proto_wire.specs.LabelsTaken.{most_labels, nothing_taken, label_count, with_name, with_next, with_data, with_data_of, with_entry, entry_behind, section_from, on_if, labels_taken, most_names};
ghost use Rattle.hickory_proto_wire.specs.ReadNames.{IsFront};
ghost use Rattle.hickory_proto_wire.specs.Records.{head_at};

use crate::header::Header;
use crate::name_measure::{labels_place, measure_at};
use crate::read_names::ReadNames;
use crate::wire_error::{WireError, WireFault};
use crate::wire_record::{Additionals, OptRecord, found_with, head_at, query_at, record_at};
use std::alloc::Global;
use std::collections::BTreeSet;
use std::marker::Model;

// More are not read of one message.
const MOST_LABELS: usize = 16384;

// A name has at most so many.
const MOST_OF_NAME: usize = 127;

// What the entries of a section are read as.
#[derive(Clone, Copy, Debug)]
pub(crate) enum Section {
    Questions,
    Records,
    // Records, one of which may be OPT.
    Additionals,
}

// The labels that were counted, by the places where they stand.
#[derive(Drop)]
struct LabelCount {
    places: BTreeSet<usize>,
    labels: usize,
}

impl Model for LabelCount {
    ghost use Rattle.hickory_proto_wire.specs.Taken.{Taken};

    ghost Value = { Taken };

    ghost view = { λ c. record { places = c.places.keys; labels = c.labels } };
}

impl LabelCount {
    fn new(alloc: Global) -> LabelCount
        ensures { result ≡ nothing_taken }
    {
        LabelCount {
            places: BTreeSet::new(alloc),
            labels: 0,
        }
    }

    // The labels of a name, unless those at its place are counted.
    #[tactic(auto, unfolding(crate::specs::LabelsTaken::with_name))]
    fn add(&mut self, bytes: &[u8], at: usize) -> Result<(), WireError>
        requires { self.old.labels < 2 ^ 32 }
        ensures ok { OnOk result (self.new ≡ with_name bytes.now at self.old) }
        ensures few { OnOk result (self.new.labels ≤ self.old.labels + 256) }
        ensures err { IsOkUnless result WireError.OutOfMemory }
    {
        let place = labels_place(bytes, at)?;
        if self.places.insert(place)? {
            self.labels += label_count(bytes, at)?;
        }
        Ok(())
    }

    // The labels of two names, one behind the other.
    fn add_both(&mut self, bytes: &[u8], at: usize) -> Result<(), WireError>
        requires { self.old.labels < 2 ^ 31 }
        ensures ok { OnOk result
            (self.new ≡ with_next bytes.now (measure bytes.now at) (with_name bytes.now at self.old)) }
        ensures few { OnOk result (self.new.labels ≤ self.old.labels + 512) }
        ensures err { IsOkUnless result WireError.OutOfMemory }
    {
        self.add(bytes, at)?;
        match measure_at(bytes, at) {
            Ok((_, next)) => self.add(bytes, next),
            Err(WireError::OutOfMemory) => Err(WireError::OutOfMemory),
            Err(_) => Ok(()),
        }
    }

    // The labels of the names in data that end with the bytes.
    #[tactic(auto, unfolding(crate::specs::LabelsTaken::with_data))]
    fn add_data(&mut self, code: u16, bytes: &[u8], at: usize) -> Result<(), WireError>
        requires few { self.old.labels < 2 ^ 31 }
        requires within { at ≤ length bytes.now }
        ensures ok { OnOk result (self.new ≡ with_data code bytes.now at self.old) }
        ensures few { OnOk result (self.new.labels ≤ self.old.labels + 512) }
        ensures err { IsOkUnless result WireError.OutOfMemory }
    {
        match code {
            2 | 5 | 12 => self.add(bytes, at),
            15 => self.add(bytes, at + 2),
            33 => self.add(bytes, at + 6),
            6 => self.add_both(bytes, at),
            _ => Ok(()),
        }
    }

    // The labels of the names in a record's data.
    fn add_data_at(
        &mut self,
        names: &mut ReadNames<'_>,
        bytes: &[u8],
        at: usize,
    ) -> Result<(), WireError>
        requires few { self.old.labels < 2 ^ 31 }
        requires front { IsFront bytes.now names.old }
        ensures ok { OnOk result (self.new ≡ with_data_of bytes.now (head_at bytes.now at) self.old) }
        ensures few { OnOk result (self.new.labels ≤ self.old.labels + 512) }
        ensures err { IsOkUnless result WireError.OutOfMemory }
        ensures same { names.new ≡ names.old }
    {
        match head_at(names, bytes, at) {
            Ok(head) => {
                let (front, _) = bytes.split_at(head.end);
                self.add_data(head.code, front, head.start)
            }
            Err(WireError::OutOfMemory) => Err(WireError::OutOfMemory),
            Err(_) => Ok(()),
        }
    }

    // The labels of the names of an entry.
    fn add_entry(
        &mut self,
        section: Section,
        names: &mut ReadNames<'_>,
        bytes: &[u8],
        at: usize,
    ) -> Result<(), WireError>
        requires few { self.old.labels < 2 ^ 30 }
        requires front { IsFront bytes.now names.old }
        ensures ok { OnOk result (self.new ≡ with_entry section bytes.now at self.old) }
        ensures err { IsOkUnless result WireError.OutOfMemory }
        ensures same { names.new ≡ names.old }
    {
        self.add(bytes, at)?;
        match section {
            Section::Questions => Ok(()),
            Section::Records | Section::Additionals => self.add_data_at(names, bytes, at),
        }
    }

    // The labels of the names of so many entries. Answers the position behind them, unless it stops before.
    fn add_section(
        &mut self,
        section: Section,
        names: &mut ReadNames<'_>,
        count: u16,
        bytes: &[u8],
        at: usize,
    ) -> Result<Option<usize>, WireError>
        requires few { self.old.labels ≤ most_labels }
        requires front { IsFront bytes.now names.old }
        ensures ok { OnOk result (self.new ≡ (section_from section bytes.now count at None self.old).0) }
        ensures behind { IfOk result (λ on. on ≡ (section_from section bytes.now count at None self.old).1) }
        ensures few { IfOk result (λ on. IfSome on (λ _. self.new.labels ≤ most_labels)) }
        ensures err { IsOkUnless result WireError.OutOfMemory }
        ensures same { names.new ≡ names.old }
    {
        let mut at = at;
        let mut opt = None;
        for _ in 0..count {
            self.add_entry(section, names, bytes, at)?;
            let (end, found) = match entry_behind(section, names, bytes, at, opt) {
                Ok(read) => read,
                Err(WireError::OutOfMemory) => return Err(WireError::OutOfMemory),
                Err(WireError::Fault(_)) => return Ok(None),
            };
            if MOST_LABELS < self.labels {
                return Ok(None);
            }
            at = end;
            opt = found;
        }
        Ok(Some(at))
    }

    // The same behind what was counted before, unless that stopped.
    fn add_next(
        &mut self,
        section: Section,
        names: &mut ReadNames<'_>,
        count: u16,
        bytes: &[u8],
        at: Option<usize>,
    ) -> Result<Option<usize>, WireError>
        requires few { IfSome at (λ _. self.old.labels ≤ most_labels) }
        requires front { IsFront bytes.now names.old }
        ensures ok { OnOk result
            (self.new ≡ (on_if at self.old (λ at. section_from section bytes.now count at None)).0) }
        ensures behind { IfOk result
            (λ on. on ≡ (on_if at self.old (λ at. section_from section bytes.now count at None)).1) }
        ensures few { IfOk result (λ on. IfSome on (λ _. self.new.labels ≤ most_labels)) }
        ensures err { IsOkUnless result WireError.OutOfMemory }
        ensures same { names.new ≡ names.old }
    {
        match at {
            Some(at) => self.add_section(section, names, count, bytes, at),
            None => Ok(None),
        }
    }
}

// Whether the names of a message take too many labels.
pub(crate) fn has_too_many_labels(
    names: &mut ReadNames<'_>,
    header: Header,
    bytes: &[u8],
) -> Result<bool, WireError>
    requires { IsFront bytes.now names.old }
    ensures exact { Gives (λ many. many) result (Ok (nat_lt most_labels (labels_taken bytes.now header))) }
    ensures same { names.new ≡ names.old }
{
    if has_few_names(header) {
        return Ok(false);
    }
    let labels = labels_taken(names, header, bytes)?;
    Ok(MOST_LABELS < labels)
}

// Whether a message with this header cannot have names with too many labels.
fn has_few_names(header: Header) -> bool
    ensures { result ≡ nat_le (127 * most_names header) most_labels }
{
    let records = usize::from(header.answers)
        + usize::from(header.authorities)
        + usize::from(header.additionals);
    MOST_OF_NAME * (usize::from(header.queries) + 3 * records) <= MOST_LABELS
}

// How many labels the names of a message take.
#[tactic(auto, unfolding(crate::specs::LabelsTaken::labels_taken))]
fn labels_taken(names: &mut ReadNames<'_>, header: Header, bytes: &[u8]) -> Result<usize, WireError>
    requires { IsFront bytes.now names.old }
    ensures exact { Gives (λ labels. labels) result (Ok (labels_taken bytes.now header)) }
    ensures same { names.new ≡ names.old }
{
    let mut count = LabelCount::new(names.alloc());
    let at = count.add_section(Section::Questions, names, header.queries, bytes, 12)?;
    let at = count.add_next(Section::Records, names, header.answers, bytes, at)?;
    let at = count.add_next(Section::Records, names, header.authorities, bytes, at)?;
    count.add_next(Section::Additionals, names, header.additionals, bytes, at)?;
    Ok(count.labels)
}

// How many labels can be read there.
fn label_count(bytes: &[u8], at: usize) -> Result<usize, WireError>
    ensures exact { Gives (λ n. n) result (Ok (label_count (measure bytes.now at))) }
    ensures few { IfOk result (λ n. n ≤ 256) }
{
    match measure_at(bytes, at) {
        Ok((labels, _)) => Ok(labels),
        Err(WireError::OutOfMemory) => Err(WireError::OutOfMemory),
        Err(_) => Ok(0),
    }
}

// The position behind an entry, and OPT, where it was found.
#[tactic(auto, unfolding(crate::specs::LabelsTaken::entry_behind))]
fn entry_behind(
    section: Section,
    names: &mut ReadNames<'_>,
    bytes: &[u8],
    at: usize,
    opt: Option<OptRecord>,
) -> Result<(usize, Option<OptRecord>), WireError>
    requires { IsFront bytes.now names.old }
    ensures exact { Gives (λ x. x) result (entry_behind section bytes.now at opt) }
    ensures same { names.new ≡ names.old }
{
    match section {
        Section::Questions => {
            let (_, end) = query_at(names, bytes, at)?;
            Ok((end, opt))
        }
        Section::Records => {
            let (_, end) = record_at(names, bytes, at)?;
            Ok((end, opt))
        }
        Section::Additionals => {
            let head = head_at(names, bytes, at)?;
            let end = head.end;
            let records = Vec::new(names.alloc());
            let found = found_with(names, bytes, head, Additionals { records, opt })?;
            Ok((end, found.opt))
        }
    }
}
