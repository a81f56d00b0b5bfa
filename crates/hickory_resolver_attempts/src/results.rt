//! What the results of a name's look-ups come to.
ghost use Rattle.std.specs.Prelude.{◌≡◌, ◌⊎◌, [], ◌∷◌, ◌++◌, None, Ok, Err, true, if◌then◌else◌};
ghost use Rattle.hickory_proto_core.specs.declared.net_error.NetError.TheVariants.{OutOfMemory};
ghost use Rattle.hickory_resolver_model.specs.Calls.{IsAttemptResult, are_answers, both_results};
ghost use Rattle.hickory_resolver_model.specs.Calls.{is_out_of_memory, next_type, stops};
ghost use Rattle.hickory_resolver_attempts.specs.Sought.{results_so_far, order_value};

use crate::sought::Types;
use hickory_proto_core::NetError;
use hickory_resolver_lookup::Lookup;

/// Whether no attempt follows this result: it has answers, or memory ran out.
pub fn stops(attempt: &Result<Lookup, NetError>) -> bool
    ensures { result ≡ stops attempt.now }
{
    match attempt {
        Ok(lookup) => !lookup.answers().is_empty(),
        Err(error) => matches!(error, NetError::OutOfMemory),
    }
}

/// Whether memory ran out.
pub fn is_out_of_memory(attempt: &Result<Lookup, NetError>) -> bool
    ensures { result ≡ is_out_of_memory attempt.now }
{
    matches!(attempt, Err(NetError::OutOfMemory))
}

/// What an attempt at a name comes to, by the result of its last type and that of the one before. Where `Types::second`
/// tells of one more type after these, nothing is said of it.
pub fn attempt_result(
    types: Types,
    first: Option<Result<Lookup, NetError>>,
    last: Result<Lookup, NetError>,
) -> Result<Lookup, NetError>
    ensures { next_type (order_value types) (results_so_far first ++ last ∷ []) ≡ None
        → IsAttemptResult (order_value types) (results_so_far first ++ last ∷ []) result }
{
    match (types, first) {
        (Types::Both(_, _), Some(first)) => joined(first, last),
        (_, first) => {
            drop(first);
            last
        }
    }
}

// Two results as one: both joined, the one that there is, or the first error. Out of memory comes before all.
fn joined(
    first: Result<Lookup, NetError>,
    second: Result<Lookup, NetError>,
) -> Result<Lookup, NetError>
    ensures { (result ≡ (if is_out_of_memory second then second else both_results first second))
        ⊎ ((are_answers first second ≡ true) × (result ≡ Err OutOfMemory)) }
{
    match second {
        Ok(second) => joined_with(first, second),
        Err(error) => joined_with_error(first, error),
    }
}

// A result, and a second one that is a look-up.
fn joined_with(first: Result<Lookup, NetError>, second: Lookup) -> Result<Lookup, NetError>
    ensures { (result ≡ both_results first (Ok second))
        ⊎ ((are_answers first (Ok second) ≡ true) × (result ≡ Err OutOfMemory)) }
{
    match first {
        Ok(first) => first.append(second),
        Err(error) => {
            drop(error);
            Ok(second)
        }
    }
}

// A result, and a second one that is an error: the first stands, unless memory ran out.
fn joined_with_error(found: Result<Lookup, NetError>, failure: NetError) -> Result<Lookup, NetError>
    ensures { result
        ≡ (if is_out_of_memory (Err failure) then Err failure else both_results found (Err failure)) }
{
    if matches!(failure, NetError::OutOfMemory) {
        drop(found);
        return Err(failure);
    }
    drop(failure);
    found
}
