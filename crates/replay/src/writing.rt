//! Writes the text of a replay.
ghost use Rattle.std.specs.Prelude.{◌≡◌, false};
ghost use Rattle.replay.specs.Writing.{IsReplay, IsWritten, given_hosts};

use crate::error::ReplayError;
use crate::run::replay_text_with_hashers;
use hickory_resolver::Watched;
use std::alloc::Global;
use std::hash::{BuildHasher, BuildHasherDefault, FoldHasher};
use std::io::Write;

/// Writes the text of a run of the script over what a file of hosts says, where there is one; the text is
/// that of `replay_text`. All of it is made before the first byte is written. `Script` where the script has a
/// fault, else `Hosts` where a line of the hosts is not UTF-8, and `Memory`: nothing was written. `Write`
/// where the writer failed: a beginning of the text was written.
pub fn replay<W: Write>(
    alloc: Global,
    script: &[u8],
    hosts: Option<&[u8]>,
    writer: &mut Watched<W>,
) -> Result<(), ReplayError>
    requires { writer.old.failed ≡ false }
    ensures { IsReplay script.now (given_hosts hosts.entry) (W.contents writer.old.inner)
        (W.contents writer.new.inner) result writer.new.failed }
{
    let cache_hasher: BuildHasherDefault<FoldHasher> = BuildHasherDefault::new();
    let table_hasher: BuildHasherDefault<FoldHasher> = BuildHasherDefault::new();
    replay_with_hashers(
        alloc,
        script,
        hosts,
        writer,
        cache_hasher,
        BuildHasherDefault::new(),
        table_hasher,
    )
}

/// As `replay`; names of questions in the cache are hashed by the first hasher, those of the hosts by the second, and the
/// questions of a script whose outcomes are a table by the third.
pub fn replay_with_hashers<W: Write, S: BuildHasher + Drop, T: BuildHasher + Drop>(
    alloc: Global,
    script: &[u8],
    hosts: Option<&[u8]>,
    writer: &mut Watched<W>,
    cache_hasher: S,
    hosts_hasher: S,
    table_hasher: T,
) -> Result<(), ReplayError>
    requires { writer.old.failed ≡ false }
    ensures { IsReplay script.now (given_hosts hosts.entry) (W.contents writer.old.inner)
        (W.contents writer.new.inner) result writer.new.failed }
{
    let hosts = hosts_bytes(hosts);
    let text = replay_text_with_hashers(
        alloc,
        script,
        hosts,
        cache_hasher,
        hosts_hasher,
        table_hasher,
    )?;
    write_whole(writer, text.as_bytes())
}

// The bytes of the hosts: none where there are no hosts.
fn hosts_bytes(hosts: Option<&[u8]>) -> &[u8]
    ensures { result.now ≡ given_hosts hosts.entry }
{
    match hosts {
        Some(bytes) => bytes,
        None => &[],
    }
}

// Writes all of the bytes, by one write after another.
fn write_whole<W: Write>(writer: &mut Watched<W>, bytes: &[u8]) -> Result<(), ReplayError>
    requires { writer.old.failed ≡ false }
    ensures { IsWritten bytes.now (W.contents writer.old.inner) (W.contents writer.new.inner) result
        writer.new.failed }
{
    let mut rest = bytes;
    while !rest.is_empty() {
        match writer.write(rest) {
            Ok(0) => return Err(ReplayError::Write),
            Ok(count) => rest = &rest[count..],
            Err(_) => return Err(ReplayError::Write),
        }
    }
    Ok(())
}
