//! The message of a try.
ghost use Rattle.std.specs.Prelude.{◌≡◌, ◌++◌, ◌+◌, ◌<◌, ◌^◌, [], None, Ok, true, false, length, IfOk, OnOk};
ghost use Rattle.std.specs.Char.{is_ascii_alphabetic};
ghost use Rattle.std.specs.List.{list_any};
ghost use Rattle.hickory_proto_core.specs.Name.{label_bytes, label_fault, is_long_label};
ghost use Rattle.hickory_proto_wire.specs.Messages.{message_of};
ghost use Rattle.hickory_proto_wire.specs.Refused.{Refuses, name_fault};
ghost use Rattle.hickory_proto_wire.specs.Writing.{counted, u16_octets, weighed, cut};
ghost use Rattle.hickory_proto_wire.specs.Written.{name_octets, header_octets, opt_octets, edns_octets};
ghost use Rattle.hickory_resolver_tries.specs.Letters.{is_set, other_case, varied_octet, varied_octets, next_place};
ghost use Rattle.hickory_resolver_tries.specs.Belief.{asked_name, asked_codes};
ghost use Rattle.hickory_resolver_tries.specs.Tries.{octets_of_try, message_of_try, sends_opt, octets_sent, edns_if, edns_of};

use crate::pool_question::{PoolQuestion, SentOpt};
use hickory_proto_core::Name;
use hickory_proto_wire::ToWireError;
use std::alloc::{AllocError, Global};
use std::marker::Model;

// The octets of a header, of a question's codes and of OPT.
const AROUND: usize = 27;

/// What a try differs in from others of the same question.
#[derive(Clone, Copy, Debug)]
pub struct TryForm {
    /// Tells its reply from others (RFC 1035, section 4.1.1).
    pub id: u16,
    /// Which letters of the name are changed from upper to lower case or back: bit `k % 8` (of weight 2 to that power)
    /// of octet `k / 8` tells it of the letter `k`, counted from 0; no name has more letters than bits. With `None` the
    /// name is sent as it is spelled, and believed in any case.
    pub letters: Option<[u8; 32]>,
    /// Whether OPT is sent where the question has it. Where DNSSEC records are asked for it is sent in any case.
    pub with_opt: bool,
}

/// The message of a question: the octets of each try at it.
#[derive(Debug, Drop)]
pub struct TryMessage {
    question: PoolQuestion,
    // The octets of its name.
    name: Vec<u8>,
}

impl Model for TryMessage {
    ghost use Rattle.std.specs.Prelude.{◌≡◌, [], None, true};
    ghost use Rattle.hickory_proto_core.specs.Name.{label_fault};
    ghost use Rattle.hickory_proto_wire.specs.Written.{name_octets};
    ghost use Rattle.hickory_resolver_tries.specs.declared.pool_question.PoolQuestion.{PoolQuestion};

    ghost Value = { PoolQuestion };

    ghost view = { λ m. m.question };

    ghost invariant = { λ m. (m.name.items ≡ name_octets [] m.question.query.name.labels)
        × (m.question.query.name.fqdn ≡ true) × (label_fault m.question.query.name.labels ≡ None) };
}

impl TryMessage {
    /// The message of a question.
    ///
    /// # Errors
    /// `RelativeName` where the name is relative, and `OutOfMemory`.
    pub fn new(alloc: Global, question: PoolQuestion) -> Result<TryMessage, ToWireError>
        ensures ok { IfOk result (λ m. m ≡ question) }
        ensures refused { Refuses result (name_fault question.query.name) }
    {
        if !question.query.name.is_fqdn() {
            return Err(ToWireError::RelativeName);
        }
        let name = name_octets(alloc, &question.query.name)?;
        Ok(TryMessage { question, name })
    }

    /// The question. Its name is absolute, and fit for a message.
    pub fn question(&self) -> &PoolQuestion
        ensures question { result.now ≡ self.now }
        ensures absolute { self.now.query.name.fqdn ≡ true }
        ensures valid { label_fault self.now.query.name.labels ≡ None }
    {
        &self.question
    }

    // The octets of its name.
    pub(crate) fn name(&self) -> &[u8]
        ensures { result.now ≡ asked_name self.now.query }
    {
        &self.name
    }

    /// Whether a try has OPT.
    pub fn sends_opt(&self, form: &TryForm) -> bool
        ensures { result ≡ sends_opt self.now form.now }
    {
        self.question.opt.is_some() && (form.with_opt || self.question.is_dnssec_ok())
    }

    /// The octets of a try: those that `WireMessage::to_wire` writes of its message. They are read as that message.
    pub fn octets(&self, alloc: Global, form: &TryForm) -> Result<Vec<u8>, AllocError>
        ensures written { IfOk result (λ v. v.items ≡ octets_of_try self.now form.now) }
        ensures read { IfOk result (λ v. message_of v.items ≡ Ok (cut (message_of_try self.now form.now) 0)) }
    {
        let sends_opt = self.sends_opt(form);
        let mut out = Vec::with_capacity(alloc, self.name.as_slice().len() + AROUND)?;
        put_header(&mut out, &self.question, form, sends_opt)?;
        put_name(&mut out, &self.name, &form.letters)?;
        put_codes(&mut out, &self.question)?;
        put_opt(&mut out, &self.question.opt, sends_opt)?;
        Ok(out)
    }
}

// ---- the parts, one behind the other

// A number of 16 bits.
fn put_u16(out: &mut Vec<u8>, number: u16) -> Result<(), AllocError>
    ensures { OnOk result (out.new.items ≡ out.old.items ++ u16_octets number) }
{
    out.push((number / 256) as u8)?;
    out.push((number % 256) as u8)?;
    Ok(())
}

// A label behind its length.
fn put_label(out: &mut Vec<u8>, octets: &[u8]) -> Result<(), AllocError>
    requires { length octets.now < 256 }
    ensures { OnOk result (out.new.items ≡ out.old.items ++ counted octets.now) }
{
    out.push(octets.len() as u8)?;
    out.extend_from_slice(octets)?;
    Ok(())
}

// The octets of a name where none stands before it (RFC 1035, section 3.1).
fn name_octets(alloc: Global, name: &Name) -> Result<Vec<u8>, AllocError>
    ensures octets { IfOk result (λ v. v.items ≡ name_octets [] name.now.labels) }
    ensures valid { label_fault name.now.labels ≡ None }
{
    labels_octets(alloc, name.labels())
}

fn labels_octets(alloc: Global, labels: &[Vec<u8>]) -> Result<Vec<u8>, AllocError>
    requires { list_any is_long_label (label_bytes labels.now) ≡ false }
    ensures { IfOk result (λ v. v.items ≡ name_octets [] (label_bytes labels.now)) }
{
    let mut out = Vec::new(alloc);
    for i in 0..labels.len() {
        put_label(&mut out, &labels[i])?;
    }
    out.push(0)?;
    Ok(out)
}

// Whether the bit of a place is set.
fn is_set(bits: &[u8], place: usize) -> bool
    ensures { result ≡ is_set bits.now place }
{
    let octet = bits.get(place / 8).copied().unwrap_or(0);
    (octet >> (place % 8)) % 2 == 1
}

// A letter in its other case.
fn other_case(letter: u8) -> u8
    requires { is_ascii_alphabetic letter ≡ true }
    ensures { result ≡ other_case letter }
{
    if letter.is_ascii_uppercase() {
        letter + 32
    } else {
        letter - 32
    }
}

// An octet as it is sent, which is the letter of a place if it is a letter.
pub(crate) fn varied_octet(bits: &[u8], place: usize, octet: u8) -> u8
    ensures { result ≡ varied_octet bits.now place octet }
{
    if octet.is_ascii_alphabetic() && is_set(bits, place) {
        other_case(octet)
    } else {
        octet
    }
}

// The place of the next letter.
pub(crate) fn next_place(place: usize, octet: u8) -> usize
    requires { place + 1 < 2 ^ 64 }
    ensures { result ≡ next_place place octet }
{
    if octet.is_ascii_alphabetic() {
        place + 1
    } else {
        place
    }
}

// Octets with letters that are varied.
fn put_varied(out: &mut Vec<u8>, octets: &[u8], bits: &[u8]) -> Result<(), AllocError>
    ensures { OnOk result (out.new.items ≡ out.old.items ++ varied_octets bits.now 0 octets.now) }
{
    let mut place = 0;
    for octet in octets {
        out.push(varied_octet(bits, place, *octet))?;
        place = next_place(place, *octet);
    }
    Ok(())
}

// The octets of a name as they are sent.
fn put_name(out: &mut Vec<u8>, name: &[u8], letters: &Option<[u8; 32]>) -> Result<(), AllocError>
    ensures { OnOk result (out.new.items ≡ out.old.items ++ octets_sent letters.now name.now) }
{
    match letters {
        None => out.extend_from_slice(name),
        Some(bits) => put_varied(out, name, bits),
    }
}

// The weight of a bit that is set.
fn weighed(set: bool, weight: u16) -> u16
    ensures { result ≡ weighed set weight }
{
    if set { weight } else { 0 }
}

// The second number of the header.
fn query_flags(question: &PoolQuestion) -> u16
    ensures { result ≡ weighed question.now.recursion_desired 256 + weighed question.now.authentic_data 32
        + weighed question.now.checking_disabled 16 }
{
    weighed(question.recursion_desired, 256)
        + weighed(question.authentic_data, 32)
        + weighed(question.checking_disabled, 16)
}

// The header of a try.
fn put_header(
    out: &mut Vec<u8>,
    question: &PoolQuestion,
    form: &TryForm,
    with_opt: bool,
) -> Result<(), AllocError>
    requires { with_opt ≡ sends_opt question.now form.now }
    ensures { OnOk result (out.new.items ≡ out.old.items ++ header_octets (message_of_try question.now form.now) 0) }
{
    put_u16(out, form.id)?;
    put_u16(out, query_flags(question))?;
    put_u16(out, 1)?;
    put_u16(out, 0)?;
    put_u16(out, 0)?;
    put_u16(out, weighed(with_opt, 1))?;
    Ok(())
}

// The type and the class.
fn put_codes(out: &mut Vec<u8>, question: &PoolQuestion) -> Result<(), AllocError>
    ensures { OnOk result (out.new.items ≡ out.old.items ++ asked_codes question.now.query) }
{
    put_u16(out, question.query.query_type.code())?;
    put_u16(out, question.query.query_class.code())?;
    Ok(())
}

// The OPT record, where it is sent: the root, 41, the size, no upper bits of a response code, version 0, the flags, and
// no option.
fn put_opt(out: &mut Vec<u8>, opt: &Option<SentOpt>, with_opt: bool) -> Result<(), AllocError>
    ensures { OnOk result (out.new.items ≡ out.old.items ++ opt_octets (edns_if with_opt opt.now) 0) }
{
    match opt {
        Some(opt) if with_opt => put_sent_opt(out, opt),
        _ => Ok(()),
    }
}

fn put_sent_opt(out: &mut Vec<u8>, opt: &SentOpt) -> Result<(), AllocError>
    ensures { OnOk result (out.new.items ≡ out.old.items ++ edns_octets (edns_of opt.now) 0) }
{
    out.push(0)?;
    put_u16(out, 41)?;
    put_u16(out, opt.payload)?;
    put_u16(out, 0)?;
    put_u16(out, weighed(opt.dnssec_ok, 32768))?;
    put_u16(out, 0)?;
    Ok(())
}
