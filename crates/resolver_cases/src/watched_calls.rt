//! Calls of a reader and a writer under watch: each is one call of what is watched, and has its answer.
ghost use Rattle.std.specs.Prelude.{◌≤◌, IfOk};

use hickory_resolver::Watched;
use std::io::{self, ErrorKind, Read, Write};

// Counts its calls. Of each three calls the first gives or takes up to three bytes, the second none, and the third is
// interrupted.
#[derive(Drop)]
struct Counting {
    calls: u8,
}

impl Counting {
    // What a call with so many bytes comes to, which counts.
    fn call(&mut self, size: usize) -> io::Result<usize>
        ensures { IfOk result (λ count. count ≤ size) }
    {
        self.calls = self.calls.saturating_add(1);
        match self.calls % 3 {
            0 => Err(io::Error::from(ErrorKind::Interrupted)),
            1 => Ok(size.min(3)),
            _ => Ok(0),
        }
    }
}

impl Read for Counting {
    fn read(&mut self, buf: &mut [u8]) -> io::Result<usize> {
        self.call(buf.len())
    }
}

impl Write for Counting {
    fn write(&mut self, buf: &[u8]) -> io::Result<usize> {
        self.call(buf.len())
    }

    fn flush(&mut self) -> io::Result<()> {
        Ok(())
    }
}

/// What the calls answer, whether one has failed then, and how many calls reached what is watched.
pub fn show_all(rt: &impl Print) {
    let mut source = Watched::new(Counting { calls: 0 });
    let mut room = [0_u8; 5];
    for _ in 0..4 {
        let answer = source.read(&mut room);
        show_answer(rt, "read", answer, source.failed());
    }
    show_calls(rt, source);
    for bytes in ["12345", ""] {
        show_writes(rt, bytes.as_bytes());
    }
}

fn show_writes(rt: &impl Print, bytes: &[u8]) {
    let mut writer = Watched::new(Counting { calls: 0 });
    for _ in 0..4 {
        let answer = writer.write(bytes);
        show_answer(rt, "write", answer, writer.failed());
    }
    show_calls(rt, writer);
}

fn show_calls(rt: &impl Print, watched: Watched<Counting>) {
    let _ = println!(rt; "{} calls", watched.into_inner().calls);
}

fn show_answer(rt: &impl Print, call: &str, answer: io::Result<usize>, has_failed: bool) {
    match answer {
        Ok(count) => {
            let _ = println!(rt; "{call} {count}, failed {has_failed}");
        }
        Err(_) => {
            let _ = println!(rt; "{call} interrupted, failed {has_failed}");
        }
    }
}
