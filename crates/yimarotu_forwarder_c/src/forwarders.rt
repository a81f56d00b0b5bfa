//! Forwarders as C holds them.
ghost use Rattle.std.specs.Prelude.{◌≡◌, None, Option, Some};
ghost use Rattle.std.specs.Option.{is_some, option_map};

use crate::inside::Inside;
use crate::parts::Parts;
use std::alloc::Global;
use std::mem;
use yimarotu_driven_forwarder::DrivenForwarder;

/// A forwarder that is open, or none.
#[repr(C)]
#[derive(Drop)]
pub struct YimarotuForwarder {
    is_open: bool,
    pub inside: Inside,
    ghost known: { is_open ≡ is_some inside.value },
}

impl YimarotuForwarder {
    // Whether there is a forwarder.
    pub(crate) fn is_open(&self) -> bool
        ensures { result ≡ is_some self.now.inside.value }
    {
        self.is_open
    }
}

/// Closes the forwarder, with all that it holds. Of one that is closed nothing changes.
#[unsafe(no_mangle)]
pub extern "C" fn yimarotu_forwarder_close(alloc: Global, forwarder: &mut YimarotuForwarder)
    ensures { forwarder.new.inside.value ≡ None }
{
    drop(take(alloc, forwarder));
}

// Takes the forwarder out, where there is one.
pub(crate) fn take(alloc: Global, forwarder: &mut YimarotuForwarder) -> Option<Box<DrivenForwarder>>
    ensures gives { option_map (λ b. b.value) result ≡ forwarder.old.inside.value }
    ensures closed { forwarder.new.inside.value ≡ None }
{
    let YimarotuForwarder { is_open, inside } = mem::replace(forwarder, closed(alloc));
    if !is_open {
        return None;
    }
    Some(inside.into_parts().into_box())
}

// Puts a forwarder in the place of none.
pub(crate) fn put(forwarder: &mut YimarotuForwarder, inside: Box<DrivenForwarder>)
    requires { forwarder.old.inside.value ≡ None }
    ensures { forwarder.new.inside.value ≡ Some inside.value }
{
    *forwarder = YimarotuForwarder {
        is_open: true,
        inside: Inside::of(Parts::of(inside)),
    };
}

fn closed(alloc: Global) -> YimarotuForwarder
    ensures { result.inside.value ≡ None }
{
    YimarotuForwarder {
        is_open: false,
        inside: Inside::none(alloc),
    }
}
