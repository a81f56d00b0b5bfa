//! A reader or a writer under watch.
ghost use Rattle.std.specs.Prelude.{◌≡◌, ◌||◌, false, is_err, length};
ghost use Rattle.std.specs.Io.{ReadsAtMost, WritesAtMost};
ghost use Rattle.std.specs.Io.KnownBytes.{ReadConsumes, WriteAppends};
ghost use Rattle.hickory_resolver_hosts.specs.Watched.{write_fails};

use std::io::{self, Read, Write};
use std::marker::Model;

/// A reader or a writer, and whether a call of it has failed since it is watched. Where it has, what was read
/// or written may be a part only.
#[derive(Debug, Drop)]
pub struct Watched<T> {
    inner: T,
    failed: bool,
}

impl<T> Model for Watched<T> {
    ghost use Rattle.hickory_resolver_hosts.specs.Watched.{WatchedValue};

    ghost Value = { WatchedValue T };

    ghost view = { λ w. record { inner = w.inner; failed = w.failed } };
}

impl<T> Watched<T> {
    /// Watches a reader or a writer, which has not failed yet.
    pub fn new(inner: T) -> Watched<T>
        ensures { result ≡ record { inner = inner; failed = false } }
    {
        Watched {
            inner,
            failed: false,
        }
    }

    /// Whether a read or a write has failed.
    pub fn failed(&self) -> bool
        ensures { result ≡ self.now.failed }
    {
        self.failed
    }

    /// The reader or the writer itself.
    pub fn into_inner(self) -> T
        ensures { result ≡ self.inner }
    {
        self.inner
    }
}

impl<R: Read> Watched<R> {
    /// One read of the reader. An error, also that of an interrupted read, is a failure for good.
    pub fn read(&mut self, buf: &mut [u8]) -> io::Result<usize>
        ensures bound { ReadsAtMost result buf.new }
        ensures bytes { ReadConsumes (R.remaining self.old.inner)
            (R.remaining self.new.inner) result buf.new }
        ensures failed { self.new.failed ≡ self.old.failed || is_err result }
    {
        let result = self.inner.read(buf);
        self.failed = self.failed || result.is_err();
        result
    }
}

impl<W: Write> Watched<W> {
    /// One write of the writer. An error, also that of an interrupted write, is a failure for good, and so is
    /// a write of at least one byte that takes none.
    pub fn write(&mut self, buf: &[u8]) -> io::Result<usize>
        ensures bound { WritesAtMost result buf.now }
        ensures bytes { WriteAppends (W.contents self.old.inner) (W.contents self.new.inner) result buf.now }
        ensures failed { self.new.failed ≡ self.old.failed || write_fails (length buf.now) result }
    {
        let result = self.inner.write(buf);
        let took_none = match &result {
            Ok(count) => *count == 0 && !buf.is_empty(),
            Err(_) => true,
        };
        self.failed = self.failed || took_none;
        result
    }
}
