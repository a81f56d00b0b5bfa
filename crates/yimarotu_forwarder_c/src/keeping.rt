//! What a forwarder keeps is let go.
ghost use Rattle.std.specs.Prelude.{◌≡◌, ◌⊎◌};
ghost use Rattle.yimarotu_forwarder_c.specs.Calls.{OnOpen};
ghost use Rattle.yimarotu_forwarder_c.specs.Keeping.{ClearsAll, Flushes, FlushesName, FlushesText, text_status};
ghost use Rattle.yimarotu_forwarder_c.specs.Statuses.{number_of};
ghost use Rattle.yimarotu_forwarder_c.specs.declared.status.Status.TheVariants as status;

use crate::forwarders::{YimarotuForwarder, put, take};
use crate::status::Status;
use hickory_proto_core::{Name, NameError};
use std::alloc::Global;
use std::str;
use yimarotu_driven_forwarder::DrivenForwarder;

/// Lets go of what is kept of a name, or of all names at and below it.
#[unsafe(no_mangle)]
pub extern "C" fn yimarotu_forwarder_flush(
    alloc: Global,
    forwarder: &mut YimarotuForwarder,
    name: &[u8],
    below: bool,
) -> u8
    ensures { OnOpen (Flushes name.now below) (number_of status.Closed) forwarder.old.inside.value result
        forwarder.new.inside.value }
{
    let Some(mut inside) = take(alloc, forwarder) else {
        return Status::Closed.number();
    };
    let ended = flush(alloc, &mut inside, name, below);
    put(forwarder, inside);
    ended
}

fn flush(alloc: Global, forwarder: &mut DrivenForwarder, name: &[u8], below: bool) -> u8
    ensures { Flushes name.now below forwarder.old result forwarder.new }
{
    match str::from_utf8(name) {
        Ok(name) => flush_text(alloc, forwarder, name, below),
        Err(_) => Status::Text.number(),
    }
}

fn flush_text(alloc: Global, forwarder: &mut DrivenForwarder, name: &str, below: bool) -> u8
    ensures { FlushesText name.now below forwarder.old result forwarder.new }
{
    match Name::from_ascii(alloc, name) {
        Ok(name) => flush_name(forwarder, &name, below),
        Err(error) => text_status(error).number(),
    }
}

fn flush_name(forwarder: &mut DrivenForwarder, name: &Name, below: bool) -> u8
    ensures { FlushesName name.now below forwarder.old result forwarder.new }
{
    forwarder.flush(name, below);
    Status::Ok.number()
}

fn text_status(error: NameError) -> Status
    ensures { result ≡ text_status error }
{
    match error {
        NameError::OutOfMemory => Status::NoMemory,
        _ => Status::Text,
    }
}

/// Lets go of all that is kept.
#[unsafe(no_mangle)]
pub extern "C" fn yimarotu_forwarder_clear(alloc: Global, forwarder: &mut YimarotuForwarder) -> u8
    ensures { OnOpen ClearsAll (number_of status.Closed) forwarder.old.inside.value result
        forwarder.new.inside.value }
{
    let Some(mut inside) = take(alloc, forwarder) else {
        return Status::Closed.number();
    };
    let ended = clear(&mut inside);
    put(forwarder, inside);
    ended
}

fn clear(forwarder: &mut DrivenForwarder) -> u8
    ensures { ClearsAll forwarder.old result forwarder.new }
{
    forwarder.clear();
    Status::Ok.number()
}
