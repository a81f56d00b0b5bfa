//! Lines that set an option.
ghost use Rattle.std.specs.Prelude.{◌≡◌};
ghost use Rattle.replay_script.specs.OptionLine.{key_named, option_of, strategy_field, truth_field, value_of};
ghost use Rattle.replay_script.specs.Words.{texts};

use crate::fault::{LineFault, ScriptFault};
use crate::words::number64;
use hickory_resolver_config::{LookupIpStrategy, ResolverOpts};

/// What a line sets an option to.
#[derive(Clone, Copy, Debug)]
pub enum OptionLine {
    Ndots(usize),
    CacheSize(u64),
    PositiveMinTtl(u64),
    NegativeMinTtl(u64),
    PositiveMaxTtl(u64),
    NegativeMaxTtl(u64),
    IpStrategy(LookupIpStrategy),
    PreserveIntermediates(bool),
}

impl OptionLine {
    ghost use Rattle.replay_script.specs.OptionLine.{with_option};

    /// Sets the option, and no other; times to live are in seconds.
    pub fn set(self, options: &mut ResolverOpts)
        ensures { options.new ≡ with_option self options.old }
    {
        match self {
            OptionLine::Ndots(labels) => options.ndots = labels,
            OptionLine::CacheSize(results) => options.cache_size = results,
            OptionLine::PositiveMinTtl(seconds) => options.positive_min_ttl = Some(seconds),
            OptionLine::NegativeMinTtl(seconds) => options.negative_min_ttl = Some(seconds),
            OptionLine::PositiveMaxTtl(seconds) => options.positive_max_ttl = Some(seconds),
            OptionLine::NegativeMaxTtl(seconds) => options.negative_max_ttl = Some(seconds),
            OptionLine::IpStrategy(strategy) => options.ip_strategy = strategy,
            OptionLine::PreserveIntermediates(kept) => options.preserve_intermediates = kept,
        }
    }
}

// The options that a line can set.
#[derive(Clone, Copy)]
enum OptionKey {
    Ndots,
    CacheSize,
    PositiveMinTtl,
    NegativeMinTtl,
    PositiveMaxTtl,
    NegativeMaxTtl,
    IpStrategy,
    PreserveIntermediates,
}

impl OptionKey {
    // The option of a word.
    fn from_word(word: &str) -> Option<OptionKey>
        ensures { result ≡ key_named word.now }
    {
        match word {
            "ndots" => Some(OptionKey::Ndots),
            "cache_size" => Some(OptionKey::CacheSize),
            "positive_min_ttl" => Some(OptionKey::PositiveMinTtl),
            "negative_min_ttl" => Some(OptionKey::NegativeMinTtl),
            "positive_max_ttl" => Some(OptionKey::PositiveMaxTtl),
            "negative_max_ttl" => Some(OptionKey::NegativeMaxTtl),
            "ip_strategy" => Some(OptionKey::IpStrategy),
            "preserve_intermediates" => Some(OptionKey::PreserveIntermediates),
            _ => None,
        }
    }
}

// KEY VALUE
pub fn read_option<'a>(fields: &[&'a str]) -> Result<OptionLine, LineFault<'a>>
    ensures { result ≡ option_of (texts fields.now) }
{
    let [key, value] = fields else {
        return Err(LineFault::wrong_line(ScriptFault::FieldCount));
    };
    let option = OptionKey::from_word(key).ok_or(LineFault::wrong_field(
        ScriptFault::UnknownWord,
        key,
    ))?;
    read_value(option, value)
}

fn read_value(key: OptionKey, value: &str) -> Result<OptionLine, LineFault<'_>>
    ensures { result ≡ value_of key value.now }
{
    Ok(match key {
        OptionKey::Ndots => OptionLine::Ndots(number64(value)? as usize),
        OptionKey::CacheSize => OptionLine::CacheSize(number64(value)?),
        OptionKey::PositiveMinTtl => OptionLine::PositiveMinTtl(number64(value)?),
        OptionKey::NegativeMinTtl => OptionLine::NegativeMinTtl(number64(value)?),
        OptionKey::PositiveMaxTtl => OptionLine::PositiveMaxTtl(number64(value)?),
        OptionKey::NegativeMaxTtl => OptionLine::NegativeMaxTtl(number64(value)?),
        OptionKey::IpStrategy => OptionLine::IpStrategy(read_strategy(value)?),
        OptionKey::PreserveIntermediates => OptionLine::PreserveIntermediates(read_truth(value)?),
    })
}

// The strategy of a word.
fn read_strategy(word: &str) -> Result<LookupIpStrategy, LineFault<'_>>
    ensures { result ≡ strategy_field word.now }
{
    match word {
        "Ipv4Only" => Ok(LookupIpStrategy::Ipv4Only),
        "Ipv6Only" => Ok(LookupIpStrategy::Ipv6Only),
        "Ipv4AndIpv6" => Ok(LookupIpStrategy::Ipv4AndIpv6),
        "Ipv6AndIpv4" => Ok(LookupIpStrategy::Ipv6AndIpv4),
        "Ipv6thenIpv4" => Ok(LookupIpStrategy::Ipv6thenIpv4),
        "Ipv4thenIpv6" => Ok(LookupIpStrategy::Ipv4thenIpv6),
        _ => Err(LineFault::wrong_field(ScriptFault::UnknownWord, word)),
    }
}

fn read_truth(word: &str) -> Result<bool, LineFault<'_>>
    ensures { result ≡ truth_field word.now }
{
    match word {
        "true" => Ok(true),
        "false" => Ok(false),
        _ => Err(LineFault::wrong_field(ScriptFault::UnknownWord, word)),
    }
}
