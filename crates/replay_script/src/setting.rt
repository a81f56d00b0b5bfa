//! Lines that set a part of the configuration.
ghost use Rattle.std.specs.Prelude.{◌≡◌, ◌⊎◌, Err};
ghost use Rattle.replay_script.specs.Faults.{out_of_memory};
ghost use Rattle.replay_script.specs.Setting.{mode_named, mode_of, setting_of};
ghost use Rattle.replay_script.specs.Words.{texts};

use crate::fault::{LineFault, ScriptFault};
use crate::option_line::{OptionLine, read_option};
use crate::words::read_only_name;
use hickory_proto_core::Name;
use std::alloc::Global;

/// What a line sets.
#[derive(Debug, Drop)]
pub enum Setting {
    /// An option.
    Option(OptionLine),
    /// The domain.
    Domain(Name),
    /// One more domain of the search list.
    Search(Name),
    /// How the upstream finds its outcomes.
    Upstream {
        /// Whether it looks each question up among them; else they come in order.
        table: bool,
    },
}

// What the fields of a line are to set.
#[derive(Clone, Copy)]
pub(crate) enum SettingKind {
    Option,
    Domain,
    Search,
    Upstream,
}

// Reads the fields behind such a directive.
pub(crate) fn read_setting<'a>(
    alloc: Global,
    kind: SettingKind,
    fields: &[&'a str],
) -> Result<Setting, LineFault<'a>>
    ensures { (result ≡ setting_of kind (texts fields.now)) ⊎ (result ≡ Err out_of_memory) }
{
    match kind {
        SettingKind::Option => Ok(Setting::Option(read_option(fields)?)),
        SettingKind::Domain => Ok(Setting::Domain(read_only_name(alloc, fields)?)),
        SettingKind::Search => Ok(Setting::Search(read_only_name(alloc, fields)?)),
        SettingKind::Upstream => Ok(Setting::Upstream {
            table: read_mode(fields)?,
        }),
    }
}

// MODE: whether the outcomes are a table.
fn read_mode<'a>(fields: &[&'a str]) -> Result<bool, LineFault<'a>>
    ensures { result ≡ mode_of (texts fields.now) }
{
    let [mode] = fields else {
        return Err(LineFault::wrong_line(ScriptFault::FieldCount));
    };
    mode_named(mode)
}

fn mode_named(word: &str) -> Result<bool, LineFault<'_>>
    ensures { result ≡ mode_named word.now }
{
    match word {
        "script" => Ok(false),
        "table" => Ok(true),
        _ => Err(LineFault::wrong_field(ScriptFault::UnknownWord, word)),
    }
}
