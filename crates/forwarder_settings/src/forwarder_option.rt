//! Lines that set an option that only a forwarder has.
ghost use Rattle.std.specs.Prelude.{◌≡◌};
ghost use Rattle.replay_script.specs.OptionLine.{truth_field};
ghost use Rattle.replay_script.specs.Words.{texts};
ghost use Rattle.forwarder_settings.specs.ForwarderOption.{forwarder_option, key_named, value_of};

use replay_script::words::number64;
use replay_script::{LineFault, ScriptFault};

/// What a line sets one of these options to.
#[derive(Clone, Copy)]
pub enum ForwarderOption {
    TrustsAuthenticData(bool),
    DropsStrangers(bool),
    ServesLocally(bool),
    Prefetches(bool),
    GreatestTtl(u64),
    ServesStale(u64),
    CacheOctets(u64),
    CacheEntries(usize),
    Failures(usize),
    Clients(usize),
    ClientsOfAddress(usize),
    ClientsOfQuestion(usize),
}

// Such an option.
#[derive(Clone, Copy)]
enum ForwarderKey {
    TrustsAuthenticData,
    DropsStrangers,
    ServesLocally,
    Prefetches,
    GreatestTtl,
    ServesStale,
    CacheOctets,
    CacheEntries,
    Failures,
    Clients,
    ClientsOfAddress,
    ClientsOfQuestion,
}

impl ForwarderKey {
    // The option of a word.
    fn from_word(word: &str) -> Option<ForwarderKey>
        ensures { result ≡ key_named word.now }
    {
        match word {
            "trusts_authentic_data" => Some(ForwarderKey::TrustsAuthenticData),
            "drops_strangers" => Some(ForwarderKey::DropsStrangers),
            "serves_locally" => Some(ForwarderKey::ServesLocally),
            "prefetches" => Some(ForwarderKey::Prefetches),
            "greatest_ttl" => Some(ForwarderKey::GreatestTtl),
            "serves_stale" => Some(ForwarderKey::ServesStale),
            "cache_octets" => Some(ForwarderKey::CacheOctets),
            "cache_entries" => Some(ForwarderKey::CacheEntries),
            "failures" => Some(ForwarderKey::Failures),
            "clients" => Some(ForwarderKey::Clients),
            "clients_of_address" => Some(ForwarderKey::ClientsOfAddress),
            "clients_of_question" => Some(ForwarderKey::ClientsOfQuestion),
            _ => None,
        }
    }

    // What a word sets the option to.
    fn read_value(self, value: &str) -> Result<ForwarderOption, LineFault<'_>>
        ensures { result ≡ value_of self value.now }
    {
        Ok(match self {
            ForwarderKey::TrustsAuthenticData => {
                ForwarderOption::TrustsAuthenticData(read_truth(value)?)
            }
            ForwarderKey::DropsStrangers => ForwarderOption::DropsStrangers(read_truth(value)?),
            ForwarderKey::ServesLocally => ForwarderOption::ServesLocally(read_truth(value)?),
            ForwarderKey::Prefetches => ForwarderOption::Prefetches(read_truth(value)?),
            ForwarderKey::GreatestTtl => ForwarderOption::GreatestTtl(number64(value)?),
            ForwarderKey::ServesStale => ForwarderOption::ServesStale(number64(value)?),
            ForwarderKey::CacheOctets => ForwarderOption::CacheOctets(number64(value)?),
            ForwarderKey::CacheEntries => ForwarderOption::CacheEntries(number64(value)? as usize),
            ForwarderKey::Failures => ForwarderOption::Failures(number64(value)? as usize),
            ForwarderKey::Clients => ForwarderOption::Clients(number64(value)? as usize),
            ForwarderKey::ClientsOfAddress => {
                ForwarderOption::ClientsOfAddress(number64(value)? as usize)
            }
            ForwarderKey::ClientsOfQuestion => {
                ForwarderOption::ClientsOfQuestion(number64(value)? as usize)
            }
        })
    }
}

/// KEY VALUE, where the key is that of such an option.
pub fn read_forwarder_option<'a>(
    fields: &[&'a str],
) -> Option<Result<ForwarderOption, LineFault<'a>>>
    ensures { result ≡ forwarder_option (texts fields.now) }
{
    let [key, value] = fields else {
        return None;
    };
    match ForwarderKey::from_word(key) {
        Some(key) => Some(key.read_value(value)),
        None => None,
    }
}

fn read_truth(word: &str) -> Result<bool, LineFault<'_>>
    ensures { result ≡ truth_field word.now }
{
    match word {
        "true" => Ok(true),
        "false" => Ok(false),
        _ => Err(LineFault::wrong_field(ScriptFault::UnknownWord, word)),
    }
}
