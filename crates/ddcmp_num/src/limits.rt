//! The largest sizes that the protocol allows.

/// The most bytes of data in a frame: COUNT has 14 bits (DDCMP 4.1, data messages).
pub const MAX_COUNT: u16 = 16383;

/// The most unacknowledged messages. With 256 the number of the last one would be that of the
/// message before the first: an acknowledgement of all would look like one of none.
pub const MAX_WINDOW: u16 = 255;
