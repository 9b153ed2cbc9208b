//! Parses the input of a program, in chunks of any size, without I/O. `HexLines` and `Lengths` read
//! messages: one a line in hexadecimal digits, or each after its length as two bytes.
//! `CommandLines` and `Records` read the same with commands among them. `Dump` reads dumps, as
//! `hexdump -C`, `xxd` and `od -A x -t x1` write them: it replaces everything but the digits of the
//! data by blanks, chunk by chunk, and reports a line that isn't one of a dump by its number.
//!
//!     let mut dump = Dump::new();
//!     dump.blank(&mut piece);   // "00000000  61 62  |ab|\n" is "          61 62       \n" now
#![tactic(auto)]

mod command_lines;
mod dump;
pub mod dump_laws;
mod entry;
mod hex_lines;
mod lengths;
pub mod message_laws;
mod place;
mod records;

pub use command_lines::CommandLines;
pub use dump::{Dump, NotDumped};
pub use entry::{Entry, PushedEntry};
pub use hex_lines::HexLines;
pub use lengths::Lengths;
pub use place::Place;
pub use records::Records;
