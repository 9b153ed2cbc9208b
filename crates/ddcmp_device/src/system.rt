//! What links and bridges need of the system.
use std::fs::{File, Files};
use std::io::Eprint;
use std::net::{Net, TcpListener, TcpStream};
use std::time::Clock;

/// All that a link or a bridge needs of the system: connections, devices, standard error and the
/// time.
pub trait System: Net<Stream = TcpStream, Listener = TcpListener>
    + Files<File = File>
    + Eprint
    + Clock {}

impl<S> System for S
where
    S: Net<Stream = TcpStream, Listener = TcpListener> + Files<File = File> + Eprint + Clock,
{}
