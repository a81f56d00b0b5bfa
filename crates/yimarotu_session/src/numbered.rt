//! Values under numbers.
ghost use Rattle.std.specs.Prelude.{◌≡◌, None, OnErr, OnOk, Some};
ghost use Rattle.std.specs.Option.{is_some};
ghost use Rattle.yimarotu_session.specs.Sessions.{PutsUnder, value_at};

use std::alloc::AllocError;
use std::collections::HashMap;

// Puts a value under a number.
pub(crate) fn put<V: Drop>(
    values: &mut HashMap<u64, V>,
    number: u64,
    value: V,
) -> Result<(), AllocError>
    ensures ok { OnOk result (PutsUnder number (Some value) values.old.entries values.new.entries) }
    ensures err { OnErr result (values.new.entries ≡ values.old.entries) }
{
    match values.insert(number, value) {
        Ok(_) => Ok(()),
        Err(_) => Err(AllocError),
    }
}

// Drops the value of a number, and tells whether there was one.
pub(crate) fn forget<V: Drop>(values: &mut HashMap<u64, V>, number: u64) -> bool
    ensures told { result ≡ is_some (value_at number values.old.entries) }
    ensures gone { PutsUnder number None values.old.entries values.new.entries }
{
    values.remove(&number).is_some()
}
