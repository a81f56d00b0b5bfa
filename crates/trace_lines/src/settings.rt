//! What is allowed, as options of a command line.
ghost use Rattle.std.specs.Prelude.{◌≡◌, ◌⊎◌, ◌^◌, List, OnOk, MatchResult, false, true, if◌then◌else◌, None, Some, Option, option_and_then};
ghost use Rattle.hickory_proto_core.specs.Codes.{decimal_below};
ghost use Rattle.hickory_proto_core.specs.NameDecided.{text_name};
ghost use Rattle.hickory_proto_core.specs.Records.{RecordValue};
ghost use Rattle.std.specs.Option.{option_map};
ghost use Rattle.std.specs.Result.{result_ok};
ghost use Rattle.synthesis.specs.declared.dns64.Prefix.{Prefix};
ghost use Rattle.std.specs.Str.Lines.{lines};
ghost use Rattle.trace_lines.specs.HostRecords.{AreOfLines};
ghost use Rattle.trace_lines.specs.Settings.{IsPrefixText, IsSetTo, cut_at_slash, octets_of_bits, prefix_with, unset, with_flag, with_own, with_path, with_prefix, with_serve_stale, with_slack, with_zone};

use crate::hosts::{add_hosts, read_address};
use crate::verdict::Strictness;
use hickory_proto_core::{Name, NameError, read_decimal};
use replay_script::numbers::read_u32;
use std::alloc::{AllocError, Global};
use std::env::Args;
use std::marker::Model;
use std::net::IpAddr;
use trace_judge::{Options, Prefix};

/// What is allowed.
#[derive(Debug, Drop)]
pub struct Settings {
    pub options: Options,
    pub strictness: Strictness,
    /// The files of hosts whose records the resolver has of its own, by their paths.
    pub hosts: Vec<String>,
}

impl Model for Settings {
    ghost use Rattle.std.specs.Prelude.{map, string_bytes};
    ghost use Rattle.trace_lines.specs.Settings.{SettingsValue};

    ghost Value = { SettingsValue };

    ghost view = { λ s. record {
      options = s.options;
      strictness = s.strictness;
      hosts = map string_bytes s.hosts.items;
    } };
}

/// Why an option cannot be read.
#[derive(Clone, Copy, Debug, PartialEq, Eq)]
pub enum SettingFault {
    /// It is none, or what it is to be set to is missing or none.
    Usage,
    /// No memory was left.
    Memory,
}

impl Settings {
    /// What is allowed by default: a second for rounding, and nothing else.
    pub fn new(alloc: Global) -> Settings
        ensures { result ≡ unset }
    {
        Settings {
            options: Options {
                slack: 1,
                local: Vec::new(alloc),
                own: Vec::new(alloc),
                dns64: Vec::new(alloc),
            },
            strictness: Strictness {
                cold: false,
                serve_stale: None,
            },
            hosts: Vec::new(alloc),
        }
    }

    /// Takes the records of a file of hosts, of which this is the text.
    pub fn add_hosts(&mut self, alloc: Global, text: &str) -> Result<(), AllocError>
        ensures { OnOk result ((records : List RecordValue) × AreOfLines (lines text.now) records
            × (self.new ≡ with_own self.old records)) }
    {
        add_hosts(alloc, text, &mut self.options.own)
    }

    /// Reads an option, and what it is set to out of the words behind it: `--slack SECONDS`, `--cold`, `--serve-stale
    /// SECONDS`, `--local ZONE`, `--dns64 PREFIX` and `--hosts FILE`.
    pub fn read(
        &mut self,
        alloc: Global,
        option: &str,
        words: &mut Args,
    ) -> Result<(), SettingFault> {
        if self.set_flag(option) {
            return Ok(());
        }
        match words.next() {
            Some(value) => self.set(alloc, option, value.as_str()),
            None => Err(SettingFault::Usage),
        }
    }

    /// Sets what an option says that stands alone: whether it is one.
    pub fn set_flag(&mut self, option: &str) -> bool
        ensures value { with_flag option.now self.old ≡ (if result then Some self.new else None) }
        ensures unchanged { result ≡ false → self.new ≡ self.old }
    {
        let is_cold = option == "--cold";
        if is_cold {
            self.strictness.cold = true;
        }
        is_cold
    }

    /// Sets an option to a value. After a fault the settings are of no further use.
    pub fn set(&mut self, alloc: Global, option: &str, value: &str) -> Result<(), SettingFault>
        ensures { MatchResult result
            (λ _. IsSetTo option.now value.now self.old (Some self.new))
            (λ fault. (fault ≡ SettingFault.Memory) ⊎ IsSetTo option.now value.now self.old None) }
    {
        match option {
            "--slack" => self.set_slack(read_u32(value)),
            "--serve-stale" => self.set_serve_stale(read_u32(value)),
            "--local" => self.add_zone(alloc, value),
            "--dns64" => self.add_prefix(value),
            "--hosts" => self.add_path(alloc, value),
            _ => Err(SettingFault::Usage),
        }
    }

    fn set_slack(&mut self, seconds: Option<u32>) -> Result<(), SettingFault>
        ensures { MatchResult result (λ _. with_slack self.old seconds ≡ Some self.new)
            (λ fault. (fault ≡ SettingFault.Memory) ⊎ (with_slack self.old seconds ≡ None)) }
    {
        match seconds {
            Some(seconds) => {
                self.options.slack = seconds;
                Ok(())
            }
            None => Err(SettingFault::Usage),
        }
    }

    fn set_serve_stale(&mut self, seconds: Option<u32>) -> Result<(), SettingFault>
        ensures { MatchResult result (λ _. with_serve_stale self.old seconds ≡ Some self.new)
            (λ fault. (fault ≡ SettingFault.Memory) ⊎ (with_serve_stale self.old seconds ≡ None)) }
    {
        match seconds {
            Some(seconds) => {
                self.strictness.serve_stale = Some(seconds);
                Ok(())
            }
            None => Err(SettingFault::Usage),
        }
    }

    fn add_zone(&mut self, alloc: Global, text: &str) -> Result<(), SettingFault>
        ensures { MatchResult result
            (λ _. with_zone self.old (result_ok (text_name text.now)) ≡ Some self.new)
            (λ fault. (fault ≡ SettingFault.Memory)
            ⊎ (with_zone self.old (result_ok (text_name text.now)) ≡ None)) }
    {
        match Name::from_ascii(alloc, text) {
            Ok(zone) => fitted(self.options.local.push(zone).is_ok()),
            Err(NameError::OutOfMemory) => Err(SettingFault::Memory),
            Err(_) => Err(SettingFault::Usage),
        }
    }

    fn add_prefix(&mut self, text: &str) -> Result<(), SettingFault>
        ensures { MatchResult result
            (λ _. (prefix : Option Prefix) × IsPrefixText text.now prefix
            × (with_prefix self.old prefix ≡ Some self.new))
            (λ fault. (fault ≡ SettingFault.Memory)
            ⊎ ((prefix : Option Prefix) × IsPrefixText text.now prefix
            × (with_prefix self.old prefix ≡ None))) }
    {
        self.push_prefix(prefix_of(text))
    }

    fn push_prefix(&mut self, prefix: Option<Prefix>) -> Result<(), SettingFault>
        ensures { MatchResult result (λ _. with_prefix self.old prefix ≡ Some self.new)
            (λ fault. (fault ≡ SettingFault.Memory) ⊎ (with_prefix self.old prefix ≡ None)) }
    {
        match prefix {
            Some(prefix) => fitted(self.options.dns64.push(prefix).is_ok()),
            None => Err(SettingFault::Usage),
        }
    }

    fn add_path(&mut self, alloc: Global, path: &str) -> Result<(), SettingFault>
        ensures { MatchResult result (λ _. self.new ≡ with_path self.old path.now)
            (λ fault. fault ≡ SettingFault.Memory) }
    {
        match String::from_str(alloc, path) {
            Ok(path) => fitted(self.hosts.push(path).is_ok()),
            Err(_) => Err(SettingFault::Memory),
        }
    }
}

// Memory runs out where something did not fit.
fn fitted(did_fit: bool) -> Result<(), SettingFault>
    ensures { MatchResult result (λ _. did_fit ≡ true)
        (λ fault. (fault ≡ SettingFault.Memory) × (did_fit ≡ false)) }
{
    if did_fit {
        Ok(())
    } else {
        Err(SettingFault::Memory)
    }
}

// An IPv6 address, `/`, and how many of its bits count.
fn prefix_of(text: &str) -> Option<Prefix>
    ensures { IsPrefixText text.now result }
{
    let (address, bits) = cut_at_slash(text)?;
    prefix_with(read_address(address), octets_of_bits(read_decimal(bits)))
}

// What stands before the first `/`, and behind it, where there is one.
fn cut_at_slash(text: &str) -> Option<(&str, &str)>
    ensures { option_map (λ p. (p.0.now, p.1.now)) result ≡ cut_at_slash text.now }
{
    text.split_once('/')
}

fn prefix_with(address: Option<IpAddr>, octets: Option<u8>) -> Option<Prefix>
    ensures { result ≡ prefix_with address octets }
{
    match (address, octets) {
        (Some(IpAddr::V6(address)), Some(octets)) => Some(Prefix { address, octets }),
        _ => None,
    }
}

// How many octets of a prefix count, of its bits: 32, 40, 48, 56, 64 or 96 (RFC 6052, section 2.2).
fn octets_of_bits(bits: Option<u64>) -> Option<u8>
    ensures { result ≡ option_and_then octets_of_bits bits }
{
    match bits? {
        32 => Some(4),
        40 => Some(5),
        48 => Some(6),
        56 => Some(7),
        64 => Some(8),
        96 => Some(12),
        _ => None,
    }
}
