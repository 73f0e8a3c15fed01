//! What C holds of a pass.

ghost use Rattle.std.specs.Prelude.{◌≡◌};
ghost use Rattle.std.specs.Coded.{coded_option};
ghost use Rattle.std.specs.Option.{MatchOption};
ghost use Rattle.std.specs.declared.option.Option.TheVariants.{None, Some};
ghost use Rattle.pechvang.specs.Owned.{Held};
ghost use Rattle.pechvang.specs.contracts.held.Pass as pass;

use crate::held::Pass;
use crate::loose::Loose;
use std::alloc::Global;
use std::marker::{Model, Send};
use std::mem::{drop, replace};
use std::ptr::null_mut;

/// A pass in a box, or nothing.
#[repr(C)]
pub struct Handle {
    at: *mut u8,
    heap: Global,
    is_open: bool,
    /// What it holds.
    pub ghost held: { Held } by { coded_option (pass.the_row).coded },
}

impl Model for Handle {
    ghost use Rattle.pechvang.specs.Owned.{handle_owns};

    ghost also_owns = { λ h. handle_owns h.is_open h.held h.at h.heap };
}

// A pass may go to another thread, and the C library's heap frees a block from any thread.
unsafe impl Send for Handle {}

impl Handle {
    /// One that holds nothing.
    fn empty(heap: Global) -> Handle
        ensures { result.held ≡ None }
    {
        Handle {
            at: null_mut(),
            heap,
            is_open: false,
        }
    }

    /// One that holds the pass.
    fn of_loose(loose: Loose<Pass, Global>) -> Handle
        ensures { result.held ≡ Some loose.value }
    {
        let Loose { at, heap } = loose;
        Handle {
            at: at as *mut u8,
            heap,
            is_open: true,
        }
    }

    /// What it holds.
    fn into_loose(self) -> Option<Loose<Pass, Global>>
        ensures { MatchOption result (self.held ≡ None) (λ l. self.held ≡ Some l.value) }
    {
        let Handle { at, heap, is_open } = self;
        if is_open {
            Some(Loose {
                at: at as *mut Pass,
                heap,
            })
        } else {
            None
        }
    }
}

/// What the handle held, which holds nothing then.
pub(crate) fn take(alloc: Global, handle: &mut Handle) -> Option<Box<Pass, Global>>
    ensures is { MatchOption result (handle.old.held ≡ None) (λ b. handle.old.held ≡ Some b.value) }
    ensures empty { handle.new.held ≡ None }
{
    match replace(handle, Handle::empty(alloc)).into_loose() {
        Some(loose) => Some(loose.into_box()),
        None => None,
    }
}

/// Lets the handle hold a pass; what it held before is let go.
pub(crate) fn put(handle: &mut Handle, pass: Box<Pass, Global>)
    ensures { handle.new.held ≡ Some pass.value }
{
    if let Some(loose) = replace(handle, Handle::of_loose(Loose::of_box(pass))).into_loose() {
        drop(loose.into_box());
    }
}

/// Lets the handle hold a pass, in a box that was made for it.
pub(crate) fn put_new(handle: &mut Handle, mut room: Box<Pass, Global>, pass: Pass)
    ensures { handle.new.held ≡ Some pass }
{
    drop(Box::replace(&mut room, pass));
    put(handle, room);
}

/// Lets what the handle holds go.
#[unsafe(no_mangle)]
pub extern "C" fn pv_free(alloc: Global, handle: &mut Handle)
    ensures { handle.new.held ≡ None }
{
    take(alloc, handle);
}
