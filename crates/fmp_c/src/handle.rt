//! A session behind a pointer, as C keeps it.
ghost use Rattle.std.specs.Prelude.{◌≡◌, IsTrue, None, Option, Some, IfOk, is_some};
ghost use Rattle.fmp_session.specs.declared.session.Session.{Session};

use fmp_session::Session;
use std::alloc::{AllocError, Global};
use std::marker::Model;
use std::ptr::null_mut;
use std_alloc::room::Vacant;

/// A pointer that owns the session behind it, where there is one. Letting it go frees nothing: a session is taken out of it and freed.
#[repr(C)]
#[derive(Drop)]
pub struct Handle {
    at: *mut u8,
    pub ghost held: { Option Session },
}

impl Model for Handle {
    ghost use Rattle.fmp_c.specs.Owned.{owned};

    ghost also_owns = { λ h. owned h.at h.held };
}

/// What a handle held: the session, and the block to which its pointer leads. The block keeps the session's box alone, so nothing large is
/// moved. Neither is let go by itself: it is kept by a handle again, or freed.
pub struct Held {
    pub(crate) session: Box<Session>,
    pub(crate) block: Vacant<Box<Session>, Global>,
}

impl Held {
    /// This session, in a block of its own.
    pub(crate) fn new(alloc: Global, session: Session) -> Result<Held, AllocError>
        ensures { IfOk result (λ h. h.session.value ≡ session) }
    {
        let session = Box::new(alloc, session)?;
        match Vacant::take(alloc) {
            Ok(block) => Ok(Held { session, block }),
            Err(_) => Err(AllocError),
        }
    }

    /// Frees both.
    pub(crate) fn free(self) {
        let Held { session, block } = self;
        drop(session);
        drop(block.free());
    }
}

impl Handle {
    /// No session.
    pub(crate) fn empty() -> Handle
        ensures { result.held ≡ None }
    {
        Handle { at: null_mut() }
    }

    /// This session, in this block.
    pub(crate) fn of(held: Held) -> Handle
        ensures { result.held ≡ Some held.session.value }
    {
        let Held { session, block } = held;
        Handle::filled(block, session)
    }

    /// A block with this session.
    fn filled(block: Vacant<Box<Session>, Global>, session: Box<Session>) -> Handle
        ensures { result.held ≡ Some session.value }
    {
        let Vacant { ptr, alloc: _ } = block;
        unsafe { ptr.write(session) };
        Handle { at: ptr as *mut u8 }
    }

    /// The session, where there is one.
    pub(crate) fn taken(self, alloc: Global) -> (Box<Session>, Vacant<Box<Session>, Global>)
        requires { IsTrue (is_some self.held) }
        ensures { self.held ≡ Some result.0.value }
    {
        let Handle { at } = self;
        let ptr = at as *mut Box<Session>;
        let session = unsafe { ptr.read() };
        (session, Vacant { ptr, alloc })
    }
}
