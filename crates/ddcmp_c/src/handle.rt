//! A station that C owns by a pointer.
ghost use Rattle.std.specs.Prelude.{◌≡◌, Option, Some, None, option_map};
ghost use Rattle.ddcmp_proto.specs.Station.{StationView};
ghost use Rattle.ddcmp_c.specs.Owned.{handle_owns};

use crate::loose::Loose;
use ddcmp_proto::Station;
use std::alloc::Global;
use std::marker::Model;
use std::mem::replace;
use std::ptr::null_mut;

/// The handle of a station in C: null if there is none. C may move it, and must never copy it.
#[repr(C)]
pub struct Handle {
    at: *mut u8,
    alloc: Global,
    ghost station: { Option StationView },
}

impl Model for Handle {
    ghost also_owns = { λ h. handle_owns h.alloc h.at h.station };
}

impl Handle {
    /// Returns a handle without a station.
    pub(crate) fn closed(alloc: Global) -> Handle
        ensures { result.station ≡ None }
    {
        Handle {
            at: null_mut(),
            alloc,
        }
    }

    /// Returns a handle with a station.
    pub(crate) fn seal(station: Loose<Station, Global>) -> Handle
        ensures { result.station ≡ Some station.value }
    {
        let Loose { at, alloc } = station;
        Handle {
            at: at as *mut u8,
            alloc,
        }
    }

    /// Returns the station of a handle.
    pub(crate) fn unseal(self) -> Option<Loose<Station, Global>>
        ensures { option_map (λ l. l.value) result ≡ self.station }
    {
        let Handle { at, alloc } = self;
        if at.is_null() {
            None
        } else {
            Some(Loose {
                at: at as *mut Station,
                alloc,
            })
        }
    }
}

/// Takes the station out of a handle, which then has none.
pub(crate) fn take_out(alloc: Global, handle: &mut Handle) -> Option<Box<Station, Global>>
    ensures taken { option_map (λ b. b.value) result ≡ handle.old.station }
    ensures closed { handle.new.station ≡ None }
{
    match replace(handle, Handle::closed(alloc)).unseal() {
        Some(loose) => Some(loose.into_box()),
        None => None,
    }
}

/// Puts a station into a handle that has none.
pub(crate) fn put_back(handle: &mut Handle, station: Box<Station, Global>)
    requires { handle.old.station ≡ None }
    ensures { handle.new.station ≡ Some station.value }
{
    match replace(handle, Handle::seal(Loose::of(station))).unseal() {
        Some(_) => unreachable!(),
        None => {}
    }
}
