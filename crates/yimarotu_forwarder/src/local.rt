//! What is known here, without asking.
ghost use Rattle.std.specs.Prelude.{◌≡◌, ◌≤◌, ◌++◌, ◌∷◌, length, IfOk, None, OnOk};
ghost use Rattle.hickory_proto_core.specs.Name.{label_bytes, label_fault, wire_form};
ghost use Rattle.yimarotu_forwarder.specs.Local.{IsDecided};

use hickory_proto_core::{Name, Query};
use local_answers::{Decision, LocalData};
use std::alloc::{AllocError, Global};
use std::hash::RandomState;

// Hosts, and rules by domain.
pub(crate) type Local = LocalData<RandomState>;

// What is decided of a question at a second.
pub(crate) fn decide(
    alloc: Global,
    local: &Local,
    query: &Query,
    second: u64,
) -> Result<Decision, AllocError>
    ensures { IfOk result (IsDecided (record { hosts = local.now.hosts; rules = local.now.rules }) query.now second) }
{
    let name = name_octets(alloc, &query.name)?;
    local.decide(alloc, query, &name, second)
}

// The octets of a name.
pub(crate) fn name_octets(alloc: Global, name: &Name) -> Result<Vec<u8>, AllocError>
    ensures { IfOk result (λ octets. octets.items ≡ wire_form name.now.labels) }
{
    octets_of(alloc, name.labels())
}

// Each label with its length before it, and the root (RFC 1035, section 3.1).
fn octets_of(alloc: Global, labels: &[Vec<u8>]) -> Result<Vec<u8>, AllocError>
    requires { label_fault (label_bytes labels.now) ≡ None }
    ensures { IfOk result (λ octets. octets.items ≡ wire_form (label_bytes labels.now)) }
{
    let mut octets = Vec::new(alloc);
    for label in labels {
        put_label(&mut octets, label)?;
    }
    octets.push(0)?;
    Ok(octets)
}

fn put_label(octets: &mut Vec<u8>, label: &[u8]) -> Result<(), AllocError>
    requires { length label.now ≤ 255 }
    ensures { OnOk result (octets.new.items ≡ octets.old.items ++ length label.now ∷ label.now) }
{
    octets.push(label.len() as u8)?;
    octets.extend_from_slice(label)
}
