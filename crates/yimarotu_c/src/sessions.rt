//! Sessions as C holds them.
ghost use Rattle.std.specs.Prelude.{◌≡◌, None, Option, Some};
ghost use Rattle.std.specs.Option.{is_some, option_map};

use crate::inside::Inside;
use crate::parts::Parts;
use std::alloc::Global;
use std::mem;
use yimarotu_embedded::Held;

/// A session that is open, or none.
#[repr(C)]
#[derive(Drop)]
pub struct YimarotuSession {
    is_open: bool,
    pub inside: Inside,
    ghost known: { is_open ≡ is_some inside.value },
}

/// How the opening of a session ended.
#[repr(C)]
#[derive(Drop)]
pub struct YimarotuOpened {
    /// The number of a status.
    pub status: u8,
    /// The line of a fault of the settings, from 1; else 0.
    pub line: usize,
}

impl YimarotuSession {
    // Whether there is a session.
    pub(crate) fn is_open(&self) -> bool
        ensures { result ≡ is_some self.now.inside.value }
    {
        self.is_open
    }
}

/// Closes the session, with all its look-ups. Of a session that is closed nothing changes.
#[unsafe(no_mangle)]
pub extern "C" fn yimarotu_close(alloc: Global, session: &mut YimarotuSession)
    ensures { session.new.inside.value ≡ None }
{
    drop(take(alloc, session));
}

// Takes the session out, where there is one.
pub(crate) fn take(alloc: Global, session: &mut YimarotuSession) -> Option<Box<Held>>
    ensures gives { option_map (λ b. b.value) result ≡ session.old.inside.value }
    ensures closed { session.new.inside.value ≡ None }
{
    let YimarotuSession { is_open, inside } = mem::replace(session, closed(alloc));
    if !is_open {
        return None;
    }
    Some(inside.into_parts().into_box())
}

// Puts a session in the place of none.
pub(crate) fn put(session: &mut YimarotuSession, inside: Box<Held>)
    requires { session.old.inside.value ≡ None }
    ensures { session.new.inside.value ≡ Some inside.value }
{
    *session = YimarotuSession {
        is_open: true,
        inside: Inside::of(Parts::of(inside)),
    };
}

fn closed(alloc: Global) -> YimarotuSession
    ensures { result.inside.value ≡ None }
{
    YimarotuSession {
        is_open: false,
        inside: Inside::none(alloc),
    }
}
