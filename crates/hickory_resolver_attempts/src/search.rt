//! The names that are attempted for a name: itself, and itself below the domain and the search domains.
ghost use Rattle.std.specs.Prelude.{◌≡◌, ◌++◌, ◌∷◌, [], ◌||◌, nat_eq, nat_lt, codes, map, reverse, true, IfOk, OnOk};
ghost use Rattle.std.specs.List.{filter_map};
ghost use Rattle.std.specs.Option.{option_copied, option_to_list};
ghost use Rattle.std.specs.Cmp.Lexicographic.{pointwise};
ghost use Rattle.hickory_proto_core.specs.Name.{is_zone_of, localhost, lower_label, num_labels_of};
ghost use Rattle.hickory_resolver_model.specs.Attempts.{attempts, is_onion_address, joined_name, keep_last};

use hickory_proto_core::{Name, NameError};
use std::alloc::{AllocError, Global};
use std::collections::BTreeSet;

/// The names in the order in which they are attempted for this one (RFC 1535, section 6). A fully qualified
/// name, and the address of an onion service (RFC 7686, section 2), is attempted alone, as it is. Any other is
/// attempted below the domain, below each search domain in order, where that is not too long, and as it is:
/// first, where it has more labels than `ndots` or is under `localhost` (RFC 6761, section 6.3), else last.
/// Of equal names the last stays, but a name that is attempted first as it is stays too. The error is that no
/// memory was left.
pub fn attempts(
    alloc: Global,
    name: Name,
    ndots: usize,
    domain: Option<&Name>,
    search: &[Name],
) -> Result<Vec<Name>, AllocError>
    ensures { IfOk result (λ names. names.items ≡ attempts (record {
      ndots = ndots;
      domain = option_copied domain.entry;
      search = search.now;
    }) name) }
{
    if name.is_fqdn() || is_onion_address(&name) {
        return alone(alloc, name);
    }
    let joined = joined_names(alloc, &name, domain, search)?;
    if is_raw_first(&name, ndots) {
        with_raw_first(alloc, name, &joined)
    } else {
        with_raw_last(alloc, name, joined)
    }
}

// A name under `onion` whose label there has 56 bytes.
fn is_onion_address(name: &Name) -> bool
    ensures { result ≡ is_onion_address (reverse name.now.labels) }
{
    match name.labels() {
        [.., service, top] => is_onion(top) && service.len() == 56,
        _ => false,
    }
}

// Whether a label is `onion`, in any case.
fn is_onion(label: &[u8]) -> bool
    ensures { result ≡ pointwise nat_eq (lower_label label.now) (codes "onion") }
{
    label.eq_ignore_ascii_case(b"onion")
}

// Whether a name is attempted as it is before it is searched.
fn is_raw_first(name: &Name, ndots: usize) -> bool
    ensures { result ≡ nat_lt ndots (num_labels_of name.now.labels) || is_zone_of localhost name.now }
{
    ndots < usize::from(name.num_labels()) || name.is_localhost()
}

fn alone(alloc: Global, name: Name) -> Result<Vec<Name>, AllocError>
    ensures { IfOk result (λ names. names.items ≡ name ∷ []) }
{
    Ok(vec![in alloc; name]?)
}

// The name, fully qualified, and then those that it was joined to.
fn with_raw_first(alloc: Global, name: Name, joined: &[Name]) -> Result<Vec<Name>, AllocError>
    ensures { IfOk result (λ names. names.items ≡ record name { fqdn = true } ∷ keep_last joined.now) }
{
    let mut name = name;
    name.set_fqdn(true);
    let mut names = Vec::with_capacity(alloc, joined.len() + 1)?;
    names.push(name)?;
    push_last(alloc, &mut names, joined)?;
    Ok(names)
}

// Those that the name was joined to, and then the name, fully qualified.
fn with_raw_last(alloc: Global, name: Name, joined: Vec<Name>) -> Result<Vec<Name>, AllocError>
    ensures { IfOk result (λ names. names.items
        ≡ keep_last (joined.items ++ record name { fqdn = true } ∷ [])) }
{
    let (mut name, mut found) = (name, joined);
    name.set_fqdn(true);
    found.push(name)?;
    let mut names = Vec::with_capacity(alloc, found.len())?;
    push_last(alloc, &mut names, &found)?;
    Ok(names)
}

// Adds names, of equal ones the last.
fn push_last(alloc: Global, names: &mut Vec<Name>, found: &[Name]) -> Result<(), AllocError>
    ensures { OnOk result (names.new.items ≡ names.old.items ++ keep_last found.now) }
{
    let kept = last_places(alloc, found)?;
    for name in &kept {
        names.push(Clone::clone(*name)?)?;
    }
    Ok(())
}

// Of equal names the last, in the order of their places.
fn last_places(alloc: Global, found: &[Name]) -> Result<Vec<&Name>, AllocError>
    ensures { IfOk result (λ kept. map (λ n. n.now) kept.items ≡ keep_last found.now) }
{
    let mut kept = Vec::new(alloc);
    let mut seen = BTreeSet::new(alloc);
    for i in (0..found.len()).rev() {
        let name = &found[i];
        let is_last = seen.insert(name)?;
        if is_last {
            kept.push(name)?;
        }
    }
    kept.reverse();
    Ok(kept)
}

// The name below the domain and below each search domain.
fn joined_names(
    alloc: Global,
    name: &Name,
    domain: Option<&Name>,
    search: &[Name],
) -> Result<Vec<Name>, AllocError>
    ensures { IfOk result (λ names. names.items
        ≡ filter_map (joined_name name.now) (option_to_list (option_copied domain.entry) ++ search.now)) }
{
    let mut names = Vec::new(alloc);
    if let Some(domain) = domain {
        push_joined(&mut names, name, domain)?;
    }
    for domain in search {
        push_joined(&mut names, name, domain)?;
    }
    Ok(names)
}

// Adds the name below a domain, where that is not too long.
fn push_joined(names: &mut Vec<Name>, name: &Name, domain: &Name) -> Result<(), AllocError>
    ensures { OnOk result
        (names.new.items ≡ names.old.items ++ option_to_list (joined_name name.now domain.now)) }
{
    match Clone::clone(name)?.append_domain(domain) {
        Ok(joined) => names.push(joined)?,
        Err(NameError::OutOfMemory) => return Err(AllocError),
        Err(_) => {}
    }
    Ok(())
}
