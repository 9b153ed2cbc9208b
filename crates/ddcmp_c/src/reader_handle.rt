//! A reader that C owns by a pointer.
ghost use Rattle.std.specs.Prelude.{◌≡◌, Option, Some, None, option_map};
ghost use Rattle.ddcmp_frame.specs.Reader.{ReaderView};
ghost use Rattle.ddcmp_c.specs.Owned.{reader_handle_owns};

use crate::loose::Loose;
use ddcmp_frame::Reader;
use std::alloc::Global;
use std::marker::Model;
use std::mem::replace;
use std::ptr::null_mut;

/// The handle of a reader in C: null if there is none. C may move it, and must never copy it.
#[repr(C)]
pub struct ReaderHandle {
    at: *mut u8,
    alloc: Global,
    ghost reader: { Option ReaderView },
}

impl Model for ReaderHandle {
    ghost also_owns = { λ h. reader_handle_owns h.alloc h.at h.reader };
}

impl ReaderHandle {
    /// Returns a handle without a reader.
    pub(crate) fn closed(alloc: Global) -> ReaderHandle
        ensures { result.reader ≡ None }
    {
        ReaderHandle {
            at: null_mut(),
            alloc,
        }
    }

    /// Returns a handle with a reader.
    pub(crate) fn seal(reader: Loose<Reader, Global>) -> ReaderHandle
        ensures { result.reader ≡ Some reader.value }
    {
        let Loose { at, alloc } = reader;
        ReaderHandle {
            at: at as *mut u8,
            alloc,
        }
    }

    /// Returns the reader of a handle.
    pub(crate) fn unseal(self) -> Option<Loose<Reader, Global>>
        ensures { option_map (λ l. l.value) result ≡ self.reader }
    {
        let ReaderHandle { at, alloc } = self;
        if at.is_null() {
            None
        } else {
            Some(Loose {
                at: at as *mut Reader,
                alloc,
            })
        }
    }
}

/// Takes the reader out of a handle, which then has none.
pub(crate) fn take_out(alloc: Global, handle: &mut ReaderHandle) -> Option<Box<Reader, Global>>
    ensures taken { option_map (λ b. b.value) result ≡ handle.old.reader }
    ensures closed { handle.new.reader ≡ None }
{
    match replace(handle, ReaderHandle::closed(alloc)).unseal() {
        Some(loose) => Some(loose.into_box()),
        None => None,
    }
}

/// Puts a reader into a handle that has none.
pub(crate) fn put_back(handle: &mut ReaderHandle, reader: Box<Reader, Global>)
    requires { handle.old.reader ≡ None }
    ensures { handle.new.reader ≡ Some reader.value }
{
    match replace(handle, ReaderHandle::seal(Loose::of(reader))).unseal() {
        Some(_) => unreachable!(),
        None => {}
    }
}
