//! A forwarder on the heap, or none, as C holds it.
ghost use Rattle.std.specs.Prelude.{◌≡◌, IsSome, None, Option, Some};
ghost use Rattle.yimarotu_forwarder_c.specs.Insides.{Kept, inside_owns, kept_coded};

use crate::parts::Parts;
use std::alloc::Global;
use std::marker::Model;
use std::ptr;
use yimarotu_driven_forwarder::DrivenForwarder;

/// The pointer of a box of a forwarder, or null where there is none.
#[repr(C)]
#[derive(Drop)]
pub struct Inside {
    at: *mut u8,
    alloc: Global,
    pub ghost value: { Option Kept } by { kept_coded },
}

impl Model for Inside {
    ghost use Rattle.yimarotu_forwarder_c.specs.Insides.{inside_owns};

    ghost also_owns = { λ i. inside_owns i.alloc i.at i.value };
}

impl Inside {
    // The forwarder of these parts.
    pub(crate) fn of(parts: Parts<DrivenForwarder, Global>) -> Inside
        ensures { result.value ≡ Some parts.value }
    {
        let Parts { at, alloc } = parts;
        Inside {
            at: at as *mut u8,
            alloc,
        }
    }

    // No forwarder.
    pub(crate) fn none(alloc: Global) -> Inside
        ensures { result.value ≡ None }
    {
        Inside {
            at: ptr::null_mut(),
            alloc,
        }
    }

    // The parts of the forwarder that is there.
    pub(crate) fn into_parts(self) -> Parts<DrivenForwarder, Global>
        requires { IsSome self.value }
        ensures { Some result.value ≡ self.value }
    {
        let Inside { at, alloc } = self;
        Parts {
            at: at as *mut DrivenForwarder,
            alloc,
        }
    }
}
