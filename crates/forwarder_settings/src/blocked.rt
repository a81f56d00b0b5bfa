//! Files of blocked names.
ghost use Rattle.std.specs.Prelude.{◌≡◌, IfOk, OnOk, OnErr};
ghost use Rattle.std.specs.Option.{option_map};
ghost use Rattle.replay_script.specs.Words.{texts};
ghost use Rattle.forwarder_settings.specs.Blocked.{FirstBlocked, blocked_domains, domain_named, domains_among, fields_of, is_nowhere, line_domains, names_among, with_blocked, with_name_blocked, without_comment};

use crate::domains::domain_of;
use domain_table::DomainTable;
use hickory_proto_core::{Name, NameError};
use local_answers::{Blocked, DomainRule};
use memchr::memchr;
use replay_script::{ScriptLines, read_text, split};
use smallvec::SmallVec;
use std::alloc::{AllocError, Global};
use std::hash::BuildHasher;

/// Blocks the names of a file: they and all names below them do not exist. On each line stands one name, or an address
/// 0.0.0.0, 127.0.0.1, :: or ::1 and then names, as in a file of hosts; `#` begins a comment. What is no name is passed
/// over, and so is any other line. A refused call is out of memory: then the first of the names are blocked.
pub fn read_blocked<S: BuildHasher>(
    alloc: Global,
    file: &[u8],
    rules: &mut DomainTable<DomainRule, S>,
) -> Result<(), AllocError>
    ensures ok { OnOk result (rules.new ≡ with_blocked (blocked_domains file.now) rules.old) }
    ensures err { OnErr result (FirstBlocked (blocked_domains file.now) rules.old rules.new) }
{
    for line in ScriptLines::new(file) {
        block_line(alloc, line, rules)?;
    }
    Ok(())
}

fn block_line<S: BuildHasher>(
    alloc: Global,
    line: &[u8],
    rules: &mut DomainTable<DomainRule, S>,
) -> Result<(), AllocError>
    ensures ok { OnOk result (rules.new ≡ with_blocked (line_domains line.now) rules.old) }
    ensures err { OnErr result (FirstBlocked (line_domains line.now) rules.old rules.new) }
{
    let fields = fields_of(alloc, without_comment(line))?;
    block_names(alloc, names_among(&fields), rules)
}

// What stands before a comment.
fn without_comment(line: &[u8]) -> &[u8]
    ensures { result.now ≡ without_comment line.now }
{
    match memchr(b'#', line) {
        Some(place) => &line[..place],
        None => line,
    }
}

// The fields of a line, none where a byte may not stand in one.
fn fields_of(alloc: Global, text: &[u8]) -> Result<SmallVec<&str, 8>, AllocError>
    ensures { IfOk result (λ fields. texts fields.items ≡ fields_of text.now) }
{
    match read_text(text) {
        Ok(text) => split(alloc, text),
        Err(_) => Ok(SmallVec::new(alloc)),
    }
}

// The fields that are to be names.
fn names_among<'a, 'b>(fields: &'b [&'a str]) -> &'b [&'a str]
    ensures { texts result.now ≡ names_among (texts fields.now) }
{
    match fields {
        [_] => fields,
        [address, names @ ..] if is_nowhere(address) => names,
        _ => &[],
    }
}

// Whether it is an address that files of hosts give to blocked names.
fn is_nowhere(word: &str) -> bool
    ensures { result ≡ is_nowhere word.now }
{
    matches!(word, "0.0.0.0" | "127.0.0.1" | "::" | "::1")
}

fn block_names<S: BuildHasher>(
    alloc: Global,
    names: &[&str],
    rules: &mut DomainTable<DomainRule, S>,
) -> Result<(), AllocError>
    ensures ok { OnOk result (rules.new ≡ with_blocked (domains_among (texts names.now)) rules.old) }
    ensures err { OnErr result (FirstBlocked (domains_among (texts names.now)) rules.old rules.new) }
{
    for name in names {
        block_name(alloc, name, rules)?;
    }
    Ok(())
}

// Blocks a name, if it is one.
fn block_name<S: BuildHasher>(
    alloc: Global,
    text: &str,
    rules: &mut DomainTable<DomainRule, S>,
) -> Result<(), AllocError>
    ensures ok { OnOk result (rules.new ≡ with_name_blocked text.now rules.old) }
    ensures err { OnErr result (rules.new ≡ rules.old) }
{
    match domain_named(alloc, text)? {
        Some(domain) => rules.insert(&domain, DomainRule::Block(Blocked::NoName)),
        None => Ok(()),
    }
}

// The domain that a text names, if it names one.
fn domain_named(alloc: Global, text: &str) -> Result<Option<Vec<u8>>, AllocError>
    ensures { IfOk result (λ domain. option_map (λ octets. octets.items) domain ≡ domain_named text.now) }
{
    match Name::from_ascii(alloc, text) {
        Ok(name) => Ok(Some(domain_of(alloc, &name)?)),
        Err(NameError::OutOfMemory) => Err(AllocError),
        Err(_) => Ok(None),
    }
}
