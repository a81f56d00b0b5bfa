//! Reading a file of hosts from its bytes, or from a reader.
ghost use Rattle.std.specs.Prelude.{◌≡◌, Bool, false, MatchResult};
ghost use Rattle.hickory_resolver_hosts.specs.Reading.{IsAll, IsBytesRead, IsReadFault, IsSourceRead};

use crate::hosts::Hosts;
use crate::hosts_error::HostsError;
use crate::lines::insert_lines;
use crate::watched::Watched;
use std::alloc::Global;
use std::hash::BuildHasher;
use std::io::Read;

impl<S: BuildHasher> Hosts<S> {
    /// Puts in what a file of hosts says, at this moment (seconds): lines of an address and names, in which
    /// `#` begins a comment (RFC 952). A line without a readable address is left out, and so is a name that
    /// is unreadable or past ASCII. A byte order mark at the front is passed over.
    ///
    /// `InvalidData` where a line is not UTF-8: the lines before it are put in. `OutOfMemory` leaves a
    /// beginning of what the lines say.
    pub fn read_hosts_bytes(&mut self, bytes: &[u8], now: u64) -> Result<(), HostsError>
        ensures { IsBytesRead now bytes.now self.old result self.new }
    {
        let alloc = self.alloc();
        insert_lines(alloc, self, bytes, now)
    }

    /// As `read_hosts_bytes`, of all that a reader gives. It is read whole before a line is put in. `Read`
    /// where a read failed, also one that was interrupted: the table stays.
    pub fn read_hosts_watched<R: Read>(
        &mut self,
        source: &mut Watched<R>,
        now: u64,
    ) -> Result<(), HostsError>
        requires { source.old.failed ≡ false }
        ensures { IsSourceRead now (R.remaining source.old.inner) self.old result self.new source.new.failed }
    {
        let bytes = read_whole(self.alloc(), source)?;
        self.read_hosts_bytes(&bytes, now)
    }

    /// As `read_hosts_watched`, of a reader that nobody watches.
    pub fn read_hosts_conf<R: Read + Drop>(&mut self, source: R, now: u64) -> Result<(), HostsError>
        ensures { (failed : Bool) × IsSourceRead now (R.remaining source) self.old result self.new failed }
    {
        let mut source = Watched::new(source);
        self.read_hosts_watched(&mut source, now)
    }
}

// All that a reader gives, by one read after another.
fn read_whole<R: Read>(alloc: Global, source: &mut Watched<R>) -> Result<Vec<u8>, HostsError>
    requires { source.old.failed ≡ false }
    ensures { MatchResult result
        (λ bytes. (source.new.failed ≡ false) × IsAll (R.remaining source.old.inner) bytes.items)
        (λ error. IsReadFault error source.new.failed) }
{
    let mut bytes = Vec::new(alloc);
    let mut chunk = [0; 4096];
    for _ in 0..u64::MAX {
        match source.read(&mut chunk) {
            Ok(0) => return Ok(bytes),
            Ok(count) => bytes.extend_from_slice(&chunk[..count])?,
            Err(_) => return Err(HostsError::Read),
        }
    }
    Err(HostsError::OutOfMemory)
}
