//! The items that a reader yields.
use crate::header::{Header, HeaderFault};

/// An item of a text, with the offset of its start byte.
#[derive(Clone, Copy, Debug, PartialEq, Eq)]
pub enum Item {
    /// A whole frame with right CRCs. The reader lends its data.
    Good(u64, Header),
    /// The first candidate header in a loss of synchronism: its CRC is wrong.
    HeaderCheck(u64),
    /// A frame with a right header whose data have a wrong CRC.
    DataCheck(u64, Header),
    /// A frame with more data than the reader accepts.
    TooLong(u64, Header),
    /// Eight bytes with a right CRC that are no header.
    Format(u64, HeaderFault),
}

/// The result of pushing a piece of the line to a reader.
#[derive(Clone, Copy, Debug, PartialEq, Eq)]
pub struct Pushed {
    /// How many bytes were used. The caller passes the rest again.
    pub used: usize,
    /// The item that the last of these bytes completed. Without one all bytes were used.
    pub item: Option<Item>,
}
