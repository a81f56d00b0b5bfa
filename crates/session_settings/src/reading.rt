//! What lines set over a file resolv.conf.
ghost use Rattle.std.specs.Prelude.{◌≡◌, ◌⊎◌, Err, IfErr, IsOkUnless, OnOk};
ghost use Rattle.std.specs.Str.Lines.{lines};
ghost use Rattle.session_settings.specs.Reading.{AreRead, IsApplied, IsNoMemoryFault, IsTaken, reading_over, with_session_setting};

use crate::session_line::{SessionLine, SessionSetting, read_session_line};
use crate::settings_error::{SettingsError, line_error};
use hickory_resolver_config::ResolverConfig;
use hickory_resolver_pool::PoolServer;
use replay_script::{Configuration, ScriptLines, Setting};
use resolv_conf::ResolvConf;
use std::alloc::Global;
use std::marker::Model;

/// What is set so far.
#[derive(Drop)]
pub struct Reading {
    pub configuration: Configuration,
    /// The servers that lines name.
    pub servers: Vec<PoolServer>,
}

impl Model for Reading {
    ghost use Rattle.session_settings.specs.Reading.{ReadingValue};

    ghost Value = { ReadingValue };

    ghost view = { λ r. record { configuration = r.configuration; servers = r.servers.items } };
}

impl Reading {
    /// What a file sets, before any line.
    pub fn over(alloc: Global, conf: ResolvConf) -> Reading
        ensures { result ≡ reading_over conf }
    {
        let ResolvConf {
            config,
            options,
            ..
        } = conf;
        let ResolverConfig { domain, search, .. } = config;
        Reading {
            configuration: Configuration {
                options,
                domain,
                search,
                table: false,
            },
            servers: Vec::new(alloc),
        }
    }

    /// Reads lines, one after another.
    pub fn read_lines(self, alloc: Global, text: &[u8]) -> Result<Reading, SettingsError>
        ensures read { AreRead self 1 (lines text.now) result ⊎ (result ≡ Err SettingsError.OutOfMemory) }
        ensures memory { IfErr result IsNoMemoryFault }
    {
        let mut reading = self;
        let mut number = 0;
        for line in ScriptLines::new(text) {
            number += 1;
            match reading.take(alloc, number, line) {
                Ok(()) => {}
                Err(error) => return Err(error),
            }
        }
        Ok(reading)
    }

    // Reads the line of this number, and sets what it says.
    fn take(&mut self, alloc: Global, number: usize, line: &[u8]) -> Result<(), SettingsError>
        ensures taken { IsTaken self.old number line.now result self.new }
        ensures memory { IfErr result IsNoMemoryFault }
    {
        match read_session_line(alloc, line) {
            Ok(said) => self.apply(number, said),
            Err(fault) => Err(line_error(number, fault.fault)),
        }
    }

    // What the line of this number says.
    fn apply(&mut self, number: usize, said: SessionLine) -> Result<(), SettingsError>
        ensures applied { IsApplied self.old number said result self.new }
        ensures memory { IfErr result IsNoMemoryFault }
    {
        match said {
            SessionLine::Blank => Ok(()),
            SessionLine::Sets(setting) => self.set(setting),
            SessionLine::NoSetting => Err(SettingsError::NotSetting(number)),
        }
    }

    fn set(&mut self, setting: SessionSetting) -> Result<(), SettingsError>
        ensures ok { OnOk result (self.new ≡ with_session_setting setting self.old) }
        ensures err { IsOkUnless result SettingsError.OutOfMemory }
    {
        match setting {
            SessionSetting::Script(setting) => self.set_as_script(setting),
            SessionSetting::Option(option) => {
                option.set(&mut self.configuration.options);
                Ok(())
            }
            SessionSetting::Server(server) => self.add_server(server),
        }
    }

    fn set_as_script(&mut self, setting: Setting) -> Result<(), SettingsError>
        ensures ok { OnOk result (self.new
            ≡ with_session_setting (SessionSetting.Script setting) self.old) }
        ensures err { IsOkUnless result SettingsError.OutOfMemory }
    {
        match self.configuration.set(setting) {
            Ok(()) => Ok(()),
            Err(_) => Err(SettingsError::OutOfMemory),
        }
    }

    fn add_server(&mut self, server: PoolServer) -> Result<(), SettingsError>
        ensures ok { OnOk result (self.new
            ≡ with_session_setting (SessionSetting.Server server) self.old) }
        ensures err { IsOkUnless result SettingsError.OutOfMemory }
    {
        match self.servers.push(server) {
            Ok(()) => Ok(()),
            Err(_) => Err(SettingsError::OutOfMemory),
        }
    }
}
