//! What the lines of a file resolv.conf set.
ghost use Rattle.std.specs.Prelude.{◌≡◌, ◌⊎◌, ◌++◌, codes, Err, Ok, IfOk, MatchResult, OnErr, OnOk, map, string_bytes};
ghost use Rattle.replay_script.specs.Configuration.{with_setting};
ghost use Rattle.resolv_conf.specs.ResolvConf.{resolv_conf};
ghost use Rattle.conversation.specs.Faults.{out_of_memory};
ghost use Rattle.conversation.specs.FileSettings.{AreSet, IsSettingRead, IsConfigured, file_settings, kept_setting, lines_text, setting_in, settings_of_conf, with_edns};
ghost use Rattle.conversation.specs.Telling.{AreSetOr, IsLineSet};

use crate::fault::ConversationFault;
use replay_script::{Configuration, Line, ScriptFault, Setting, read_line};
use resolv_conf::{ResolvConf, read_resolv_conf, script_lines};
use std::alloc::{AllocError, Global};
use std::marker::Model;

/// What the lines of a file resolv.conf set: lines of a script, and whether questions have an EDNS record, where the
/// file says it.
#[derive(Drop)]
pub struct FileSettings {
    lines: Vec<String>,
    edns: Option<bool>,
}

impl Model for FileSettings {
    ghost use Rattle.std.specs.Prelude.{map, string_bytes};
    ghost use Rattle.conversation.specs.FileSettings.{FileSettingsValue};

    ghost Value = { FileSettingsValue };

    ghost view = { λ s. record { lines = map string_bytes s.lines.items; edns = s.edns } };
}

impl FileSettings {
    /// What this file sets on a host of no name. An empty one sets nothing.
    pub fn read(alloc: Global, resolv: &[u8]) -> Result<FileSettings, AllocError>
        ensures { IfOk result (λ said. said ≡ file_settings resolv.now) }
    {
        if resolv.is_empty() {
            return Ok(FileSettings {
                lines: Vec::new(alloc),
                edns: None,
            });
        }
        match read_resolv_conf(alloc, resolv, &[]) {
            Ok(conf) => FileSettings::of(alloc, &conf),
            Err(AllocError) => Err(AllocError),
        }
    }

    fn of(alloc: Global, conf: &ResolvConf) -> Result<FileSettings, AllocError>
        ensures { IfOk result (λ said. said ≡ settings_of_conf conf.now) }
    {
        let edns = conf.options.edns0;
        let lines = script_lines(alloc, conf)?;
        Ok(FileSettings {
            lines,
            edns: Some(edns),
        })
    }

    /// The lines of a script.
    pub fn text(&self, alloc: Global) -> Result<String, AllocError>
        ensures { IfOk result (λ text. string_bytes text ≡ lines_text self.now.lines) }
    {
        let mut text = String::new(alloc);
        push_lines(&mut text, &self.lines)?;
        Ok(text)
    }

    /// What was set before, and behind it what the file sets.
    pub fn whole(
        &self,
        alloc: Global,
        before: &Configuration,
    ) -> Result<Configuration, ConversationFault>
        ensures { IsConfigured self.now before.now result ⊎ (result ≡ Err out_of_memory) }
    {
        match copied(before) {
            Ok(whole) => set_file(alloc, whole, &self.lines, self.edns),
            Err(AllocError) => Err(ConversationFault::Script(ScriptFault::OutOfMemory)),
        }
    }
}

// What was set before, and behind it these lines, and whether questions have an EDNS record.
fn set_file(
    alloc: Global,
    before: Configuration,
    lines: &[String],
    edns: Option<bool>,
) -> Result<Configuration, ConversationFault>
    ensures { IsConfigured (record { lines = map string_bytes lines.now; edns = edns }) before result
        ⊎ (result ≡ Err out_of_memory) }
{
    let mut whole = before;
    match set_lines(alloc, &mut whole, lines) {
        Ok(()) => Ok(with_edns(whole, edns)),
        Err(fault) => Err(fault),
    }
}

fn push_lines(text: &mut String, lines: &[String]) -> Result<(), AllocError>
    ensures { OnOk result (string_bytes text.new
        ≡ string_bytes text.old ++ lines_text (map string_bytes lines.now)) }
{
    for line in lines {
        push_line(text, line)?;
    }
    Ok(())
}

fn push_line(text: &mut String, line: &String) -> Result<(), AllocError>
    ensures { OnOk result (string_bytes text.new
        ≡ string_bytes text.old ++ string_bytes line.now ++ codes "\n") }
{
    text.push_str(line.as_str())?;
    text.push_str("\n")
}

// A copy of what was set.
fn copied(before: &Configuration) -> Result<Configuration, AllocError>
    ensures { IfOk result (λ copy. copy ≡ before.now) }
{
    let options = Clone::clone(&before.options)?;
    let domain = Clone::clone(&before.domain)?;
    let search = Clone::clone(&before.search)?;
    Ok(Configuration {
        options,
        domain,
        search,
        table: before.table,
    })
}

fn with_edns(configuration: Configuration, edns: Option<bool>) -> Configuration
    ensures { result ≡ with_edns edns configuration }
{
    let mut configuration = configuration;
    if let Some(edns) = edns {
        configuration.options.edns0 = edns;
    }
    configuration
}

// Sets what each of these lines sets.
fn set_lines(
    alloc: Global,
    configuration: &mut Configuration,
    lines: &[String],
) -> Result<(), ConversationFault>
    ensures { AreSetOr (map string_bytes lines.now) configuration.old result configuration.new }
{
    for line in lines {
        if let Err(fault) = set_line(alloc, configuration, line.as_str()) {
            return Err(fault);
        }
    }
    Ok(())
}

fn set_line(
    alloc: Global,
    configuration: &mut Configuration,
    line: &str,
) -> Result<(), ConversationFault>
    ensures { IsLineSet line.now configuration.old result configuration.new }
{
    match read_setting(alloc, line) {
        Ok(setting) => set(configuration, setting),
        Err(fault) => Err(fault),
    }
}

fn set(configuration: &mut Configuration, setting: Setting) -> Result<(), ConversationFault>
    ensures { MatchResult result (λ _. configuration.new ≡ with_setting setting configuration.old)
        (λ fault. fault ≡ out_of_memory) }
{
    match configuration.set(setting) {
        Ok(()) => Ok(()),
        Err(fault) => Err(ConversationFault::Script(fault)),
    }
}

// What a line of a script sets.
fn read_setting(alloc: Global, line: &str) -> Result<Setting, ConversationFault>
    ensures { IsSettingRead line.now result ⊎ (result ≡ Err out_of_memory) }
{
    match read_line(alloc, false, line.as_bytes()) {
        Ok(line) => setting_in(line),
        Err(error) => Err(ConversationFault::Script(error.fault)),
    }
}

fn setting_in(line: Line) -> Result<Setting, ConversationFault>
    ensures { result ≡ setting_in (Ok line) }
{
    match line {
        Line::Configuration(setting) => kept_setting(setting),
        _ => Err(ConversationFault::Script(ScriptFault::UnknownDirective)),
    }
}

// A setting, unless it says how outcomes are looked up.
fn kept_setting(setting: Setting) -> Result<Setting, ConversationFault>
    ensures { result ≡ kept_setting setting }
{
    match setting {
        Setting::Upstream { .. } => Err(ConversationFault::Script(ScriptFault::UnknownDirective)),
        _ => Ok(setting),
    }
}
