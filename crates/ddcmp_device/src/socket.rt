//! Socket options of links and bridges.
use ddcmp_tap::{keep_alive, set_option};
use libc::net as c;
use mio::net::{TcpStream, UdpSocket};
use std::os::fd::AsRawFd;

/// The receive buffer for what a peer sends before it waits for an acknowledgement, in bytes: 255
/// of the longest frames, and the system's overhead for each.
const RECEIVE_ROOM: i32 = 255 * (16384 + 1024);

/// Turns on TCP_NODELAY and keepalive: each frame is sent at once, and a connection ends if its
/// peer is gone.
pub(crate) fn prepare_stream(stream: &TcpStream) {
    let _is_set = stream.set_nodelay(true);
    keep_alive(stream.as_raw_fd());
}

/// Has a socket buffer all datagrams that a peer sends at once, as far as the system allows.
pub(crate) fn prepare_datagrams(socket: &UdpSocket) {
    set_option(
        socket.as_raw_fd(),
        c::SOL_SOCKET,
        c::SO_RCVBUF,
        RECEIVE_ROOM,
    );
}
