//! Opportunistic encryption (RFC 9539).
ghost use Rattle.std.specs.Prelude.{◌≡◌};
ghost use Rattle.hickory_resolver_config.specs.Encryption.{is_enabled, max_concurrent_probes};

/// Whether servers are tried for encrypted protocols. It has no effect here.
#[derive(Clone, Debug, Drop, PartialEq, Eq)]
pub enum OpportunisticEncryption {
    /// They are not.
    Disabled,
    /// They are.
    Enabled {
        /// For how long the outcomes are kept, and how many servers are tried at a time.
        config: OpportunisticEncryptionConfig,
    },
}

/// How servers are tried for encrypted protocols. No field has an effect here.
#[derive(Clone, Debug, Drop, PartialEq, Eq)]
pub struct OpportunisticEncryptionConfig {
    /// For how many seconds a server counts as one that can be asked so (RFC 9539, section 4.3).
    pub persistence_period: u64,
    /// For how many seconds a server that could not be asked so is not tried again (RFC 9539, section 4.3).
    pub damping_period: u64,
    /// How many servers are tried at a time, at the most.
    pub max_concurrent_probes: u8,
}

impl OpportunisticEncryption {
    /// Whether servers are tried.
    pub fn is_enabled(&self) -> bool
        ensures { result ≡ is_enabled self.now }
    {
        match self {
            OpportunisticEncryption::Disabled => false,
            OpportunisticEncryption::Enabled { .. } => true,
        }
    }

    /// How many servers are tried at a time, at the most, where they are.
    pub fn max_concurrent_probes(&self) -> Option<u8>
        ensures { result ≡ max_concurrent_probes self.now }
    {
        match self {
            OpportunisticEncryption::Disabled => None,
            OpportunisticEncryption::Enabled { config } => Some(config.max_concurrent_probes),
        }
    }
}

impl Default for OpportunisticEncryption {
    ghost use Rattle.std.specs.Prelude.{◌≡◌};
    ghost use Rattle.hickory_resolver_config.specs.Encryption.{default_encryption};

    ghost is_default = { λ o. o ≡ default_encryption };

    fn default() -> OpportunisticEncryption {
        OpportunisticEncryption::Disabled
    }
}

/// Three days, a day, and ten servers.
impl Default for OpportunisticEncryptionConfig {
    ghost use Rattle.std.specs.Prelude.{◌≡◌};

    ghost is_default = { λ c. c ≡ record {
      persistence_period = 259200;
      damping_period = 86400;
      max_concurrent_probes = 10;
    } };

    fn default() -> OpportunisticEncryptionConfig {
        OpportunisticEncryptionConfig {
            persistence_period: 259200,
            damping_period: 86400,
            max_concurrent_probes: 10,
        }
    }
}
