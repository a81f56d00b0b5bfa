//! What a forwarder is opened with, in octets.
ghost use Rattle.std.specs.Prelude.{◌≡◌, IfOk};
ghost use Rattle.yimarotu_driven_forwarder.specs.Texts.{is_same, says_same_of_replies};

use forwarder_settings::differ_at_most_in_clients;
use std::alloc::{AllocError, Global};
use std::marker::Model;

/// What a forwarder is opened with, in octets.
#[derive(Debug, Drop)]
pub struct Texts<'a> {
    /// A file `resolv.conf`.
    pub conf: &'a [u8],
    /// The name of the host.
    pub hostname: &'a [u8],
    /// Settings, a line each.
    pub settings: &'a [u8],
    /// A file of hosts.
    pub hosts: &'a [u8],
    /// A file of blocked names.
    pub blocked: &'a [u8],
}

impl<'a> Model for Texts<'a> {
    ghost use Rattle.yimarotu_driven_forwarder.specs.Texts.{TextsValue};

    ghost Value = { TextsValue };

    ghost view = { λ t. record {
      conf = t.conf.now;
      hostname = t.hostname.now;
      settings = t.settings.now;
      hosts = t.hosts.now;
      blocked = t.blocked.now;
    } };
}

// The same, kept.
#[derive(Drop)]
pub(crate) struct KeptTexts {
    conf: Vec<u8>,
    hostname: Vec<u8>,
    settings: Vec<u8>,
    hosts: Vec<u8>,
    blocked: Vec<u8>,
}

impl Model for KeptTexts {
    ghost use Rattle.yimarotu_driven_forwarder.specs.Texts.{TextsValue};

    ghost Value = { TextsValue };

    ghost view = { λ t. record {
      conf = t.conf.items;
      hostname = t.hostname.items;
      settings = t.settings.items;
      hosts = t.hosts.items;
      blocked = t.blocked.items;
    } };
}

impl KeptTexts {
    pub(crate) fn of(alloc: Global, texts: &Texts<'_>) -> Result<KeptTexts, AllocError>
        ensures { IfOk result (λ kept. kept ≡ texts.now) }
    {
        Ok(KeptTexts {
            conf: Vec::from_slice(alloc, texts.conf)?,
            hostname: Vec::from_slice(alloc, texts.hostname)?,
            settings: Vec::from_slice(alloc, texts.settings)?,
            hosts: Vec::from_slice(alloc, texts.hosts)?,
            blocked: Vec::from_slice(alloc, texts.blocked)?,
        })
    }

    // Whether each says what it said, octet for octet.
    pub(crate) fn is_same(&self, texts: &Texts<'_>) -> bool
        ensures { result ≡ is_same texts.now self.now }
    {
        self.conf.as_slice() == texts.conf
            && self.hostname.as_slice() == texts.hostname
            && self.settings.as_slice() == texts.settings
            && self.hosts.as_slice() == texts.hosts
            && self.blocked.as_slice() == texts.blocked
    }

    // Whether they differ at most in what the settings say of clients.
    pub(crate) fn says_same_of_replies(&self, texts: &KeptTexts) -> bool
        ensures { result ≡ says_same_of_replies texts.now self.now }
    {
        self.conf.as_slice() == texts.conf.as_slice()
            && self.hostname.as_slice() == texts.hostname.as_slice()
            && differ_at_most_in_clients(&self.settings, &texts.settings)
            && self.hosts.as_slice() == texts.hosts.as_slice()
            && self.blocked.as_slice() == texts.blocked.as_slice()
    }
}
