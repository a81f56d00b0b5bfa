//! What the lines of a script set.
ghost use Rattle.std.specs.Prelude.{◌≡◌, [], None, MatchResult, OnErr, OnOk, IsOkUnless, IsSome};
ghost use Rattle.hickory_resolver_model.specs.Bounds.{bounds_fault};
ghost use Rattle.hickory_resolver_model.specs.Options.{bounds_of};
ghost use Rattle.replay_script.specs.Configuration.{configured, with_setting};

use crate::fault::ScriptFault;
use crate::setting::Setting;
use hickory_proto_core::Name;
use hickory_resolver_config::ResolverOpts;
use hickory_resolver_lookup::TtlConfig;
use std::alloc::Global;
use std::marker::Model;

/// The options, the domain, the search list, and whether the outcomes are a table.
#[derive(Drop)]
pub struct Configuration {
    pub options: ResolverOpts,
    pub domain: Option<Name>,
    pub search: Vec<Name>,
    pub table: bool,
}

impl Model for Configuration {
    ghost use Rattle.replay_script.specs.Configuration.{ConfigurationValue};

    ghost Value = { ConfigurationValue };

    ghost view = { λ c. record {
      options = c.options;
      domain = c.domain;
      search = c.search.items;
      table = c.table;
    } };
}

impl Configuration {
    /// Nothing is set.
    pub fn default(alloc: Global) -> Configuration
        ensures { result ≡ configured [] }
    {
        Configuration {
            options: ResolverOpts::default(alloc),
            domain: None,
            search: Vec::new(alloc),
            table: false,
        }
    }

    /// Sets this in place of what was set before; a domain of the search list comes behind those before it. Out of
    /// memory changes nothing.
    pub fn set(&mut self, setting: Setting) -> Result<(), ScriptFault>
        ensures ok { OnOk result (self.new ≡ with_setting setting self.old) }
        ensures unchanged { OnErr result (self.new ≡ self.old) }
        ensures err { IsOkUnless result ScriptFault.OutOfMemory }
    {
        match setting {
            Setting::Option(line) => line.set(&mut self.options),
            Setting::Domain(name) => self.domain = Some(name),
            Setting::Search(name) => self.search.push(name)?,
            Setting::Upstream { table } => self.table = table,
        }
        Ok(())
    }

    /// Refuses bounds on times to live whose least is above their greatest.
    pub fn check_bounds(&self, alloc: Global) -> Result<(), ScriptFault>
        ensures { MatchResult result (λ _. bounds_fault (bounds_of self.now.options) ≡ None)
            (λ fault. (fault ≡ ScriptFault.ReversedBounds)
            × IsSome (bounds_fault (bounds_of self.now.options))) }
    {
        match TtlConfig::from_opts(alloc, &self.options) {
            Ok(_) => Ok(()),
            Err(_) => Err(ScriptFault::ReversedBounds),
        }
    }
}
