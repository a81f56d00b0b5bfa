//! Lines that set an option that no script has.
ghost use Rattle.std.specs.Prelude.{◌≡◌};
ghost use Rattle.replay_script.specs.OptionLine.{truth_field};
ghost use Rattle.replay_script.specs.Words.{texts};
ghost use Rattle.session_settings.specs.SessionOption.{key_named, ordering_field, session_option, value_of};

use hickory_resolver_config::{ResolverOpts, ServerOrderingStrategy};
use replay_script::words::{number16, number64};
use replay_script::{LineFault, ScriptFault};

/// What a line sets one of these options to.
#[derive(Clone, Copy)]
pub enum SessionOption {
    Timeout(u64),
    Attempts(usize),
    Edns(bool),
    EdnsPayload(u16),
    ConcurrentRequests(usize),
    ActiveRequests(usize),
    TcpOnError(bool),
    RecursionDesired(bool),
    CaseRandomization(bool),
    ServerOrdering(ServerOrderingStrategy),
    CacheOctets(u64),
}

impl SessionOption {
    ghost use Rattle.session_settings.specs.SessionOption.{with_option};

    /// Sets the option, and no other; a timeout is in seconds.
    pub fn set(self, options: &mut ResolverOpts)
        ensures { options.new ≡ with_option self options.old }
    {
        match self {
            SessionOption::Timeout(seconds) => options.timeout = seconds,
            SessionOption::Attempts(times) => options.attempts = times,
            SessionOption::Edns(wanted) => options.edns0 = wanted,
            SessionOption::EdnsPayload(octets) => options.edns_payload_len = octets,
            SessionOption::ConcurrentRequests(servers) => options.num_concurrent_reqs = servers,
            SessionOption::ActiveRequests(messages) => options.max_active_requests = messages,
            SessionOption::TcpOnError(wanted) => options.try_tcp_on_error = wanted,
            SessionOption::RecursionDesired(wanted) => options.recursion_desired = wanted,
            SessionOption::CaseRandomization(wanted) => options.case_randomization = wanted,
            SessionOption::ServerOrdering(order) => options.server_ordering_strategy = order,
            SessionOption::CacheOctets(octets) => options.cache_octets = Some(octets),
        }
    }
}

/// Such an option.
#[derive(Clone, Copy)]
pub enum SessionKey {
    Timeout,
    Attempts,
    Edns,
    EdnsPayload,
    ConcurrentRequests,
    ActiveRequests,
    TcpOnError,
    RecursionDesired,
    CaseRandomization,
    ServerOrdering,
    CacheOctets,
}

impl SessionKey {
    /// The option of a word.
    pub fn from_word(word: &str) -> Option<SessionKey>
        ensures { result ≡ key_named word.now }
    {
        match word {
            "timeout" => Some(SessionKey::Timeout),
            "attempts" => Some(SessionKey::Attempts),
            "edns0" => Some(SessionKey::Edns),
            "edns_payload_len" => Some(SessionKey::EdnsPayload),
            "num_concurrent_reqs" => Some(SessionKey::ConcurrentRequests),
            "max_active_requests" => Some(SessionKey::ActiveRequests),
            "try_tcp_on_error" => Some(SessionKey::TcpOnError),
            "recursion_desired" => Some(SessionKey::RecursionDesired),
            "case_randomization" => Some(SessionKey::CaseRandomization),
            "server_ordering_strategy" => Some(SessionKey::ServerOrdering),
            "cache_octets" => Some(SessionKey::CacheOctets),
            _ => None,
        }
    }

    /// What a word sets the option to.
    pub fn read_value(self, value: &str) -> Result<SessionOption, LineFault<'_>>
        ensures { result ≡ value_of self value.now }
    {
        Ok(match self {
            SessionKey::Timeout => SessionOption::Timeout(number64(value)?),
            SessionKey::Attempts => SessionOption::Attempts(number64(value)? as usize),
            SessionKey::Edns => SessionOption::Edns(read_truth(value)?),
            SessionKey::EdnsPayload => SessionOption::EdnsPayload(number16(value)?),
            SessionKey::ConcurrentRequests => {
                SessionOption::ConcurrentRequests(number64(value)? as usize)
            }
            SessionKey::ActiveRequests => SessionOption::ActiveRequests(number64(value)? as usize),
            SessionKey::TcpOnError => SessionOption::TcpOnError(read_truth(value)?),
            SessionKey::RecursionDesired => SessionOption::RecursionDesired(read_truth(value)?),
            SessionKey::CaseRandomization => SessionOption::CaseRandomization(read_truth(value)?),
            SessionKey::ServerOrdering => SessionOption::ServerOrdering(read_ordering(value)?),
            SessionKey::CacheOctets => SessionOption::CacheOctets(number64(value)?),
        })
    }
}

/// KEY VALUE, where the key is that of such an option.
pub fn read_session_option<'a>(fields: &[&'a str]) -> Option<Result<SessionOption, LineFault<'a>>>
    ensures { result ≡ session_option (texts fields.now) }
{
    let [key, value] = fields else {
        return None;
    };
    match SessionKey::from_word(key) {
        Some(key) => Some(key.read_value(value)),
        None => None,
    }
}

fn read_truth(word: &str) -> Result<bool, LineFault<'_>>
    ensures { result ≡ truth_field word.now }
{
    match word {
        "true" => Ok(true),
        "false" => Ok(false),
        _ => Err(LineFault::wrong_field(ScriptFault::UnknownWord, word)),
    }
}

// The order of servers that a word names.
fn read_ordering(word: &str) -> Result<ServerOrderingStrategy, LineFault<'_>>
    ensures { result ≡ ordering_field word.now }
{
    match word {
        "QueryStatistics" => Ok(ServerOrderingStrategy::QueryStatistics),
        "UserProvidedOrder" => Ok(ServerOrderingStrategy::UserProvidedOrder),
        "RoundRobin" => Ok(ServerOrderingStrategy::RoundRobin),
        _ => Err(LineFault::wrong_field(ScriptFault::UnknownWord, word)),
    }
}
