//! What settings say of clients, and what they say of all else.
ghost use Rattle.std.specs.Prelude.{◌≡◌, ◌∷◌, [], MatchOption};
ghost use Rattle.std.specs.Str.{bytes_eq};
ghost use Rattle.std.specs.Cmp.Lexicographic.{pointwise};
ghost use Rattle.std.specs.Option.{option_map_or};
ghost use Rattle.replay_script.specs.Fields.{fields};
ghost use Rattle.forwarder_settings.specs.OfClients.{are_of_clients, differ_at_most_in_clients, is_of_clients, is_option_of_clients, other_lines};

use replay_script::{Fields, ScriptLines, is_skipped, read_text};

/// Whether two settings differ in no more than what they say of clients: who may ask (`allow`), and how much is done for
/// them (the options `drops_strangers`, `prefetches`, `serves_stale`, `clients`, `clients_of_address` and
/// `clients_of_question`). No reply that is kept comes of that.
pub fn differ_at_most_in_clients(one: &[u8], other: &[u8]) -> bool
    ensures { result ≡ differ_at_most_in_clients one.now other.now }
{
    let mut lines = one;
    let mut others = other;
    loop {
        match (next_other(lines), next_other(others)) {
            (Some((line, rest)), Some((same, behind))) if line == same => {
                lines = rest;
                others = behind;
            }
            (None, None) => return true,
            _ => return false,
        }
    }
}

// The first line that says something else, and what stands behind it.
fn next_other(settings: &[u8]) -> Option<(&[u8], &[u8])>
    ensures { MatchOption result (other_lines settings.now ≡ [])
        (λ found. other_lines settings.now ≡ found.0.now ∷ other_lines found.1.now) }
{
    let mut lines = ScriptLines::new(settings);
    while let Some(line) = lines.next() {
        if !is_of_clients(line) {
            return Some((line, lines.rest));
        }
    }
    None
}

fn is_of_clients(line: &[u8]) -> bool
    ensures { result ≡ is_of_clients line.now }
{
    if is_skipped(line) {
        return true;
    }
    match read_text(line) {
        Ok(text) => are_of_clients(text),
        Err(_) => false,
    }
}

fn are_of_clients(text: &str) -> bool
    ensures { result ≡ are_of_clients (fields text.now) }
{
    let mut fields = Fields { rest: text };
    match fields.next() {
        Some("allow") => true,
        Some("option") => fields.next().is_some_and(is_option_of_clients),
        _ => false,
    }
}

// Whether an option says what is done for clients.
fn is_option_of_clients(key: &str) -> bool
    ensures { result ≡ is_option_of_clients key.now }
{
    matches!(
        key,
        "drops_strangers"
            | "prefetches"
            | "serves_stale"
            | "clients"
            | "clients_of_address"
            | "clients_of_question"
    )
}
