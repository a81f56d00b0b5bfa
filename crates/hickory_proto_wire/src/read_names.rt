//! Names that were read from a message: names whose labels stand at one place share their memory.
ghost use Rattle.std.specs.Prelude.{◌≡◌, Ok, true, IfSome};
ghost use Rattle.hickory_proto_wire.specs.Octets.{Gives};
ghost use Rattle.hickory_proto_wire.specs.ReadNames.{IsReadAt};

use crate::wire_error::WireError;
use hickory_proto_names::Name;
use std::alloc::Global;
use std::collections::BTreeMap;
use std::marker::Model;

// No pointer leads to this place or to one behind it (RFC 1035, section 4.1.4).
const POINTER_END: usize = 16384;

// The octets of a message, and the names that were read from them, by the places where their labels stand.
#[derive(Drop)]
pub(crate) struct ReadNames<'a> {
    alloc: Global,
    octets: &'a [u8],
    names: BTreeMap<usize, Name>,
}

impl<'a> Model for ReadNames<'a> {
    ghost use Rattle.std.specs.Prelude.{ℕ, List};
    ghost use Rattle.std.specs.List.{AllByRecursion};
    ghost use Rattle.hickory_proto_wire.specs.ReadNames.{IsReadAt};

    ghost Value = { List ℕ };

    ghost view = { λ r. r.octets.now };

    ghost invariant = { λ r. AllByRecursion (λ e. IsReadAt r.octets.now e.0 e.1) r.names.entries };
}

impl<'a> ReadNames<'a> {
    // No name yet.
    pub(crate) fn new(alloc: Global, octets: &'a [u8]) -> ReadNames<'a>
        ensures { result ≡ octets.now }
    {
        ReadNames {
            alloc,
            octets,
            names: BTreeMap::new(alloc),
        }
    }

    pub(crate) fn alloc(&self) -> Global {
        self.alloc
    }

    // The name whose labels stand at this place, if one was read.
    pub(crate) fn known(&self, place: usize) -> Option<&Name>
        ensures { IfSome result (λ name. IsReadAt self.now place name.now) }
    {
        self.names.get(&place)
    }

    // The same name, of which the names that are read at this place from now on are copies.
    pub(crate) fn remembered(&mut self, place: usize, name: Name) -> Result<Name, WireError>
        requires { IsReadAt self.old place name }
        ensures given { Gives (λ n. n) result (Ok name) }
        ensures same { self.new ≡ self.old }
    {
        if name.labels().is_empty() || POINTER_END <= place {
            return Ok(name);
        }
        let name = shared(self.alloc, name)?;
        let copy = Clone::clone(&name)?;
        self.names.insert(place, copy)?;
        Ok(name)
    }
}

// The same name, of which copies take no memory. A name that another was appended to has labels that are shared, and
// the root has none that would be copied.
fn shared(alloc: Global, name: Name) -> Result<Name, WireError>
    requires { name.fqdn ≡ true }
    ensures { Gives (λ n. n) result (Ok name) }
{
    match name.append_domain(&Name::root(alloc)) {
        Ok(name) => Ok(name),
        Err(_) => Err(WireError::OutOfMemory),
    }
}
