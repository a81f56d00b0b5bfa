//! The setting that no script has: how many octets the cache may take.
ghost use Rattle.std.specs.Prelude.{◌≡◌, ◌++◌, fold, IfOk, OnOk, true};
ghost use Rattle.std.specs.Str.Lines.{lines};
ghost use Rattle.replay_script.specs.Fields.{fields};
ghost use Rattle.replay_script.specs.Words.{texts};
ghost use Rattle.yimarotu_session.specs.CacheSetting.{cache_octets_of, is_key, nothing_said, octets_said, said_by, with_line, with_octets};

use hickory_proto_core::read_decimal;
use hickory_resolver_config::ResolverOpts;
use replay_script::{Script, ScriptLines, read_text, split};
use std::alloc::{AllocError, Global};
use std::marker::Model;

// What the lines `option cache_octets N` say, of which the last counts, and the settings with such lines left empty.
#[derive(Drop)]
pub(crate) struct SplitSettings {
    pub(crate) octets: Option<u64>,
    pub(crate) lines: Vec<u8>,
}

impl Model for SplitSettings {
    ghost use Rattle.yimarotu_session.specs.CacheSetting.{SplitValue};

    ghost Value = { SplitValue };

    ghost view = { λ s. record { octets = s.octets; lines = s.lines.items } };
}

pub(crate) fn split_settings(alloc: Global, settings: &[u8]) -> Result<SplitSettings, AllocError>
    ensures { IfOk result (λ said. said ≡ said_by settings.now) }
{
    let mut said = SplitSettings {
        octets: None,
        lines: Vec::new(alloc),
    };
    for line in ScriptLines::new(settings) {
        add_line(alloc, &mut said, line)?;
    }
    Ok(said)
}

fn add_line(alloc: Global, said: &mut SplitSettings, line: &[u8]) -> Result<(), AllocError>
    ensures { OnOk result (said.new ≡ with_line said.old line.now) }
{
    match octets_said(alloc, line)? {
        Some(octets) => said.octets = Some(octets),
        None => said.lines.extend_from_slice(line)?,
    }
    said.lines.push(b'\n')?;
    Ok(())
}

// What a line says of the octets.
fn octets_said(alloc: Global, line: &[u8]) -> Result<Option<u64>, AllocError>
    ensures { IfOk result (λ octets. octets ≡ octets_said line.now) }
{
    match read_text(line) {
        Ok(text) => {
            let fields = split(alloc, text)?;
            Ok(cache_octets_of(&fields))
        }
        Err(_) => Ok(None),
    }
}

fn cache_octets_of(fields: &[&str]) -> Option<u64>
    ensures { result ≡ cache_octets_of (texts fields.now) }
{
    match fields {
        [word, key, octets] if is_key(word, key) => read_decimal(octets),
        _ => None,
    }
}

fn is_key(word: &str, key: &str) -> bool
    ensures { result ≡ is_key word.now key.now }
{
    match word {
        "option" => matches!(key, "cache_octets"),
        _ => false,
    }
}

// The settings of a script with this bound.
pub(crate) fn with_octets(mut script: Script, octets: Option<u64>) -> Script
    ensures { result ≡ with_octets octets script }
{
    set_octets(&mut script.options, octets);
    script
}

fn set_octets(options: &mut ResolverOpts, octets: Option<u64>)
    ensures { options.new ≡ record options.old { cache_octets = octets } }
{
    options.cache_octets = octets;
}
