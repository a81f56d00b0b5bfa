//! Fields as names, numbers, types and classes.
ghost use Rattle.std.specs.Prelude.{◌≡◌, ◌⊎◌, Err};
ghost use Rattle.replay_script.specs.Faults.{out_of_memory};
ghost use Rattle.replay_script.specs.Words.{class_field, name_field, number_field, only_name, texts, type_field};

use crate::fault::{LineFault, ScriptFault};
use crate::numbers::{read_u16, read_u32};
use hickory_proto_core::{DNSClass, Name, RecordType, read_decimal};
use std::alloc::Global;

/// A name, made fully qualified.
pub fn read_name(alloc: Global, text: &str) -> Result<Name, LineFault<'_>>
    ensures { (result ≡ name_field text.now) ⊎ (result ≡ Err out_of_memory) }
{
    match Name::from_ascii(alloc, text) {
        Ok(mut name) => {
            name.set_fqdn(true);
            Ok(name)
        }
        Err(error) => Err(LineFault::from_name(text, error)),
    }
}

/// A name as the only field.
pub fn read_only_name<'a>(alloc: Global, fields: &[&'a str]) -> Result<Name, LineFault<'a>>
    ensures { (result ≡ only_name (texts fields.now)) ⊎ (result ≡ Err out_of_memory) }
{
    let [name] = fields else {
        return Err(LineFault::wrong_line(ScriptFault::FieldCount));
    };
    read_name(alloc, name)
}

/// A number of 16 bits.
pub fn number16(text: &str) -> Result<u16, LineFault<'_>>
    ensures { result ≡ number_field 16 text.now }
{
    read_u16(text).ok_or(LineFault::wrong_field(ScriptFault::BadNumber, text))
}

/// A number of 32 bits.
pub fn number32(text: &str) -> Result<u32, LineFault<'_>>
    ensures { result ≡ number_field 32 text.now }
{
    read_u32(text).ok_or(LineFault::wrong_field(ScriptFault::BadNumber, text))
}

/// A number of 64 bits.
pub fn number64(text: &str) -> Result<u64, LineFault<'_>>
    ensures { result ≡ number_field 64 text.now }
{
    read_decimal(text).ok_or(LineFault::wrong_field(ScriptFault::BadNumber, text))
}

/// A type, by its word or its code.
pub fn read_type(word: &str) -> Result<RecordType, LineFault<'_>>
    ensures { result ≡ type_field word.now }
{
    RecordType::from_word(word).ok_or(LineFault::wrong_field(ScriptFault::UnknownWord, word))
}

/// A class, by its word or its code.
pub fn read_class(word: &str) -> Result<DNSClass, LineFault<'_>>
    ensures { result ≡ class_field word.now }
{
    DNSClass::from_word(word).ok_or(LineFault::wrong_field(ScriptFault::UnknownWord, word))
}
