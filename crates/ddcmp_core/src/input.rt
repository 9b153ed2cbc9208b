//! The inputs of a station from its line.
use ddcmp_frame::Header;

/// An input from the line.
#[derive(Clone, Copy, Debug)]
pub enum Input<'a> {
    /// A frame and its data.
    Good(Header, &'a [u8]),
    /// Synchronism was lost.
    HeaderCheck,
    /// The data of a frame with this header are damaged.
    DataCheck(Header),
    /// A frame with this header is too long for this end.
    TooLong(Header),
    /// A header of no known form.
    Format,
}
