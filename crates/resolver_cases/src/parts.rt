//! Values, of which each part may fail.
use hickory_proto_core::NetError;

/// The value, where what was done to it was done. Each `?` while it is alive would cost the prover more.
pub fn whole<T: Drop>(done: Result<(), NetError>, value: T) -> Result<T, NetError> {
    match done {
        Ok(()) => Ok(value),
        Err(error) => {
            drop(value);
            Err(error)
        }
    }
}

/// Two values, where both were made.
pub fn both<T: Drop, U: Drop>(
    first: Result<T, NetError>,
    second: Result<U, NetError>,
) -> Result<(T, U), NetError> {
    match first {
        Ok(first) => beside(first, second),
        Err(error) => {
            drop(second);
            Err(error)
        }
    }
}

fn beside<T: Drop, U: Drop>(first: T, second: Result<U, NetError>) -> Result<(T, U), NetError> {
    match second {
        Ok(second) => Ok((first, second)),
        Err(error) => {
            drop(first);
            Err(error)
        }
    }
}
