//! What lines set, one after another.
ghost use Rattle.std.specs.Prelude.{◌≡◌, ◌⊎◌, ◌++◌, ◌∷◌, [], Err, IfErr, IsOkUnless, OnOk};
ghost use Rattle.std.specs.Str.Lines.{lines};
ghost use Rattle.session_settings.specs.Reading.{IsNoMemoryFault};
ghost use Rattle.forwarder_settings.specs.Reading.{AreRead, IsApplied, IsTaken, first_choices, most_failures, settings_over, with_allowed, with_choices, with_client, with_denied, with_forward, with_forwarder_option, with_rule, with_setting};
ghost use Rattle.forwarder_settings.specs.Prefixes.{hostless_networks, near_networks};

use crate::choices::{CACHE_ENTRIES, CACHE_OCTETS, FAILURES, GREATEST_TTL};
use crate::domains::{DomainGroup, RuleLine, add_server, domain_of, group_number};
use crate::forwarder_line::{ForwarderLine, ForwarderSetting, read_forwarder_line};
use crate::forwarder_option::ForwarderOption;
use crate::prefixes::{push_hostless_networks, push_near_networks};
use client_limits::ClientLimits;
use hickory_proto_core::{IpNet, Name};
use hickory_resolver_config::ResolverOpts;
use hickory_resolver_pool::PoolServer;
use local_answers::DomainRule;
use replay_script::ScriptLines;
use second_chance_cache::CacheBounds;
use session_settings::{SettingsError, line_error};
use std::alloc::{AllocError, Global};
use std::marker::Model;
use yimarotu_forwarder::ForwarderOptions;

/// What a forwarder is opened with.
#[derive(Drop)]
pub struct ForwarderSettings {
    /// How servers are asked: the options of the pool.
    pub options: ResolverOpts,
    /// The general servers, which are group 0 of the pool: those of lines, or else those of the file.
    pub servers: Vec<PoolServer>,
    /// Domains with servers of their own. The first is group 1 of the pool, and so on.
    pub groups: Vec<DomainGroup>,
    /// What lines say is done with domains, in their order: of several rules of one domain the last counts.
    pub rules: Vec<RuleLine>,
    /// What the forwarder is told to do.
    pub forwarder: ForwarderOptions,
    /// The bounds of the cache of replies.
    pub cache: CacheBounds,
    /// The bounds of the failures that are kept.
    pub failures: CacheBounds,
    /// Whether the zones are served that RFC 6303 and others say are to be served locally.
    pub serves_locally: bool,
}

impl Model for ForwarderSettings {
    ghost use Rattle.forwarder_settings.specs.Reading.{SettingsValue};

    ghost Value = { SettingsValue };

    ghost view = { λ s. record {
      options = s.options;
      servers = s.servers.items;
      groups = s.groups.items;
      rules = s.rules.items;
      forwarder = s.forwarder;
      cache = s.cache;
      failures = s.failures;
      serves_locally = s.serves_locally;
    } };
}

// What a forwarder is told to do, before any line.
fn first_choices(alloc: Global, trust_ad: bool) -> ForwarderOptions
    ensures { result ≡ first_choices trust_ad }
{
    ForwarderOptions {
        trusts_authentic_data: trust_ad,
        may_ask: Vec::new(alloc),
        drops_strangers: false,
        limits: ClientLimits::default(),
        greatest_ttl: GREATEST_TTL,
        prefetches: false,
        serves_stale: 0,
        denied: Vec::new(alloc),
        allowed: Vec::new(alloc),
        exempt: Vec::new(alloc),
    }
}

fn most_failures(entries: usize) -> CacheBounds
    ensures { result ≡ most_failures entries }
{
    CacheBounds {
        entries,
        octets: u64::MAX,
    }
}

impl ForwarderSettings {
    /// These options of a pool, whether its servers are trusted with AD, and nothing is set yet by a line.
    pub(crate) fn over(alloc: Global, options: ResolverOpts, trust_ad: bool) -> ForwarderSettings
        ensures { result ≡ settings_over options trust_ad }
    {
        ForwarderSettings {
            options,
            servers: Vec::new(alloc),
            groups: Vec::new(alloc),
            rules: Vec::new(alloc),
            forwarder: first_choices(alloc, trust_ad),
            cache: CacheBounds {
                entries: CACHE_ENTRIES,
                octets: CACHE_OCTETS,
            },
            failures: most_failures(FAILURES),
            serves_locally: true,
        }
    }

    /// Reads lines, one after another.
    pub(crate) fn read_lines(
        self,
        alloc: Global,
        text: &[u8],
    ) -> Result<ForwarderSettings, SettingsError>
        ensures read { AreRead self 1 (lines text.now) result ⊎ (result ≡ Err SettingsError.OutOfMemory) }
        ensures memory { IfErr result IsNoMemoryFault }
    {
        let mut settings = self;
        let mut number = 0;
        for line in ScriptLines::new(text) {
            number += 1;
            match settings.take(alloc, number, line) {
                Ok(()) => {}
                Err(error) => return Err(error),
            }
        }
        Ok(settings)
    }

    // Reads the line of this number, and sets what it says.
    fn take(&mut self, alloc: Global, number: usize, line: &[u8]) -> Result<(), SettingsError>
        ensures taken { IsTaken self.old number line.now result self.new }
        ensures memory { IfErr result IsNoMemoryFault }
    {
        match read_forwarder_line(alloc, line) {
            Ok(said) => self.apply(alloc, number, said),
            Err(fault) => Err(line_error(number, fault.fault)),
        }
    }

    // What the line of this number says.
    fn apply(
        &mut self,
        alloc: Global,
        number: usize,
        said: ForwarderLine,
    ) -> Result<(), SettingsError>
        ensures applied { IsApplied self.old number said result self.new }
        ensures memory { IfErr result IsNoMemoryFault }
    {
        match said {
            ForwarderLine::Blank => Ok(()),
            ForwarderLine::Sets(setting) => match self.set(alloc, setting) {
                Ok(()) => Ok(()),
                Err(AllocError) => Err(SettingsError::OutOfMemory),
            },
            ForwarderLine::NoSetting => Err(SettingsError::NotSetting(number)),
        }
    }

    fn set(&mut self, alloc: Global, setting: ForwarderSetting) -> Result<(), AllocError>
        ensures { OnOk result (self.new ≡ with_setting setting self.old) }
    {
        match setting {
            ForwarderSetting::Asking(option) => {
                option.set(&mut self.options);
                Ok(())
            }
            ForwarderSetting::Server(server) => push(&mut self.servers, server),
            ForwarderSetting::Forward(name, server) => self.add_forward(alloc, name, server),
            ForwarderSetting::Rule(name, rule) => self.add_rule(alloc, name, rule),
            ForwarderSetting::Allow(net) => push(&mut self.forwarder.may_ask, net),
            ForwarderSetting::DenyAnswers(net) => push(&mut self.forwarder.denied, net),
            ForwarderSetting::DenyPrivate => deny_private(&mut self.forwarder.denied),
            ForwarderSetting::AllowAnswers(net) => push(&mut self.forwarder.allowed, net),
            ForwarderSetting::AllowAnswersFor(domain) => push(&mut self.forwarder.exempt, domain),
            ForwarderSetting::Option(option) => {
                self.set_option(option);
                Ok(())
            }
        }
    }

    // One more server of a domain.
    fn add_forward(
        &mut self,
        alloc: Global,
        name: Name,
        server: PoolServer,
    ) -> Result<(), AllocError>
        ensures { OnOk result (self.new ≡ with_setting (ForwarderSetting.Forward name server) self.old) }
    {
        let domain = domain_of(alloc, &name)?;
        let number = group_number(&self.groups, &domain);
        add_server(alloc, &mut self.groups, &domain, server)?;
        push_rule(&mut self.rules, domain, DomainRule::Ask(number))
    }

    // What is done with a domain.
    fn add_rule(&mut self, alloc: Global, name: Name, rule: DomainRule) -> Result<(), AllocError>
        ensures { OnOk result (self.new ≡ with_setting (ForwarderSetting.Rule name rule) self.old) }
    {
        let domain = domain_of(alloc, &name)?;
        push_rule(&mut self.rules, domain, rule)
    }

    fn set_option(&mut self, option: ForwarderOption)
        ensures { self.new ≡ with_forwarder_option option self.old }
    {
        match option {
            ForwarderOption::ServesLocally(wanted) => self.serves_locally = wanted,
            ForwarderOption::CacheOctets(octets) => self.cache.octets = octets,
            ForwarderOption::CacheEntries(entries) => self.cache.entries = entries,
            ForwarderOption::Failures(entries) => self.failures = most_failures(entries),
            option => set_choice(&mut self.forwarder, option),
        }
    }
}

// An option of those that a forwarder is handed with its others.
fn set_choice(forwarder: &mut ForwarderOptions, option: ForwarderOption)
    ensures { forwarder.new ≡ with_choices option forwarder.old }
{
    match option {
        ForwarderOption::TrustsAuthenticData(wanted) => forwarder.trusts_authentic_data = wanted,
        ForwarderOption::DropsStrangers(wanted) => forwarder.drops_strangers = wanted,
        ForwarderOption::GreatestTtl(seconds) => forwarder.greatest_ttl = seconds,
        ForwarderOption::Prefetches(wanted) => forwarder.prefetches = wanted,
        ForwarderOption::ServesStale(seconds) => forwarder.serves_stale = seconds,
        ForwarderOption::Clients(count) => forwarder.limits.all = count,
        ForwarderOption::ClientsOfAddress(count) => forwarder.limits.of_address = count,
        ForwarderOption::ClientsOfQuestion(count) => forwarder.limits.of_question = count,
        _ => {}
    }
}

fn deny_private(denied: &mut Vec<IpNet>) -> Result<(), AllocError>
    ensures { OnOk result (denied.new.items ≡ denied.old.items ++ near_networks ++ hostless_networks) }
{
    push_near_networks(denied)?;
    push_hostless_networks(denied)
}

fn push_rule(rules: &mut Vec<RuleLine>, domain: Vec<u8>, rule: DomainRule) -> Result<(), AllocError>
    ensures { OnOk result (rules.new.items ≡ rules.old.items ++ (domain.items, rule) ∷ []) }
{
    push(rules, RuleLine { domain, rule })
}

fn push<T: Drop>(list: &mut Vec<T>, last: T) -> Result<(), AllocError>
    ensures { OnOk result (list.new.items ≡ list.old.items ++ last ∷ []) }
{
    match list.push(last) {
        Ok(()) => Ok(()),
        Err(_) => Err(AllocError),
    }
}
