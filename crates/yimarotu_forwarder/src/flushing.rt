//! What is kept of a name is let go.
ghost use Rattle.std.specs.Prelude.{◌≡◌, ◌<◌, ◌∷◌, ℕ, Bool, List, [], drop, filter, length, not, option_copied, take};
ghost use Rattle.std.specs.Fn.{FnReturnsAt};
ghost use Rattle.std.specs.Str.{bytes_eq};
ghost use Rattle.hickory_proto_core.specs.Name.{label_bytes};
ghost use Rattle.domain_table.specs.Names.{next_place};
ghost use Rattle.yimarotu_forwarder.specs.Flushing.{behind_label, entries_flushed, flushed, is_at_or_below, is_flushed, is_name, key_name};

use crate::forwarder::{Cache, Failures, Forwarder};
use hickory_proto_core::Name;

impl Forwarder {
    /// Lets go of the replies and the failures that are kept of a name; with `below`, of those of all names at and below
    /// it. What comes of look-ups that are on their way is kept. Takes no memory, and time for each entry.
    pub fn flush(&mut self, domain: &Name, below: bool)
        ensures { self.new ≡ flushed domain.now below self.old }
    {
        flush_cache(&mut self.cache, domain.labels(), below);
        flush_failures(&mut self.failures, domain.labels(), below);
    }
}

fn flush_cache(cache: &mut Cache, labels: &[Vec<u8>], below: bool)
    ensures { cache.new ≡ entries_flushed (label_bytes labels.now) below cache.old }
{
    remove_where(cache, |key| is_flushed(labels, below, key));
}

fn flush_failures(failures: &mut Failures, labels: &[Vec<u8>], below: bool)
    ensures { failures.new ≡ entries_flushed (label_bytes labels.now) below failures.old }
{
    failures.remove_where(|key| is_flushed(labels, below, key));
}

// The replies go whose keys pass a test.
fn remove_where<F: Fn(&[u8]) -> bool>(cache: &mut Cache, is_gone: F)
    requires { F.IsAlwaysCallable is_gone }
    ensures { (test : List ℕ → Bool)
        → ((key : List ℕ) (gone : Bool) → FnReturnsAt F.Fn is_gone key gone → gone ≡ test key)
        → cache.new ≡ record cache.old { entries = filter (λ e. not (test e.key)) cache.old.entries } }
{
    cache.remove_where(is_gone);
}

// Whether a key asks for a name, or for one at or below it.
fn is_flushed(labels: &[Vec<u8>], below: bool, key: &[u8]) -> bool
    ensures { result ≡ is_flushed (label_bytes labels.now) below key.now }
{
    if below {
        is_at_or_below(labels, key_name(key))
    } else {
        is_name(labels, key_name(key))
    }
}

// The name that is asked under a key.
fn key_name(key: &[u8]) -> &[u8]
    ensures { result.now ≡ key_name key.now }
{
    let question = behind(1, key);
    up_to(question.len().saturating_sub(4), question)
}

// Whether octets end with the name of these labels, behind whole labels.
fn is_at_or_below(labels: &[Vec<u8>], octets: &[u8]) -> bool
    ensures { result ≡ is_at_or_below (label_bytes labels.now) octets.now }
{
    let mut place = 0;
    while place < octets.len() {
        if is_name(labels, behind(place, octets)) {
            return true;
        }
        place = next_place(octets, place);
    }
    false
}

// Where the label behind the one at a place begins, or the end, where none does.
fn next_place(octets: &[u8], place: usize) -> usize
    requires { place < length octets.now }
    ensures { result ≡ next_place octets.now place }
{
    let first = octets[place];
    if first == 0 || 63 < first {
        octets.len()
    } else {
        place + 1 + first as usize
    }
}

// Whether octets are the name of these labels.
fn is_name(labels: &[Vec<u8>], octets: &[u8]) -> bool
    ensures { result ≡ is_name (label_bytes labels.now) octets.now }
{
    let mut rest = octets;
    for label in labels {
        match behind_label(label, rest) {
            Some(behind) => rest = behind,
            None => return false,
        }
    }
    is_root(rest)
}

fn is_root(octets: &[u8]) -> bool
    ensures { result ≡ bytes_eq octets.now (0 ∷ []) }
{
    octets == [0].as_slice()
}

// What stands behind a label, where octets begin with it.
fn behind_label<'a>(label: &[u8], octets: &'a [u8]) -> Option<&'a [u8]>
    ensures { option_copied result ≡ behind_label label.now octets.now }
{
    let (first, rest) = octets.split_first()?;
    let (first, length) = (*first as usize, label.len());
    if first == length && up_to(length, rest).eq_ignore_ascii_case(label) {
        Some(behind(length, rest))
    } else {
        None
    }
}

// So many octets, or all.
fn up_to(count: usize, octets: &[u8]) -> &[u8]
    ensures { result.now ≡ take count octets.now }
{
    &octets[..octets.len().min(count)]
}

// What stands behind so many octets.
fn behind(count: usize, octets: &[u8]) -> &[u8]
    ensures { result.now ≡ drop count octets.now }
{
    &octets[octets.len().min(count)..]
}
