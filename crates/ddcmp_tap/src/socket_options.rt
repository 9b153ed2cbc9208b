//! Socket options, set with best effort, since a line works without them.
ghost use Rattle.libc.specs.Net.{SockOption};

use libc::net as c;
use std::os::fd::RawFd;

/// Keepalive: after how many seconds of silence a connection is probed, then how often, and after
/// how many probes without a reply it ends.
const QUIET_SECONDS: i32 = 60;

const TEST_SECONDS: i32 = 10;

const TESTS: i32 = 6;

/// Turns on keepalive, so that a connection ends if its peer is gone.
pub fn keep_alive(fd: RawFd) {
    set_option(fd, c::SOL_SOCKET, c::SO_KEEPALIVE, 1);
    set_option(fd, c::IPPROTO_TCP, c::TCP_KEEPIDLE, QUIET_SECONDS);
    set_option(fd, c::IPPROTO_TCP, c::TCP_KEEPINTVL, TEST_SECONDS);
    set_option(fd, c::IPPROTO_TCP, c::TCP_KEEPCNT, TESTS);
}

/// Sets an option whose value is a number.
pub fn set_option(fd: RawFd, level: i32, name: i32, value: i32)
    requires { SockOption level name }
{
    let mut raw = [0u8; 16];
    raw[..4].copy_from_slice(&value.to_ne_bytes());
    let _status = unsafe { c::setsockopt(fd, level, name, &raw, 4) };
}
