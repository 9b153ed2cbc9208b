//! What the bytes of an input complete.

/// What a byte completed.
#[derive(Clone, Copy, PartialEq, Eq)]
pub enum Entry {
    /// A message.
    Message,
    /// A line that isn't hexadecimal: another character, or an odd number of digits.
    NotHexadecimal,
    /// A message longer than the maximum.
    TooLong,
    /// In binary, an empty message.
    Empty,
    /// Among messages in binary, a command: a record whose length has the top bit set.
    Command,
}

/// The result for a chunk of the input.
#[derive(Clone, Copy, PartialEq, Eq)]
pub struct PushedEntry {
    /// How many bytes were used. The caller has to push the others again.
    pub used: usize,
    /// What the last of these bytes completed. Without one all bytes were used.
    pub entry: Option<Entry>,
}
