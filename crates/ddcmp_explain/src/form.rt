//! How an input encodes bytes.

/// How an input encodes bytes.
#[derive(Clone, Copy, Debug, PartialEq, Eq)]
pub enum Form {
    /// Two hexadecimal digits a byte, of either case; space, tab, CR and LF are ignored.
    Hex,
    /// Two hexadecimal digits a byte, of either case, optionally after `0x`. Between bytes there
    /// may be blanks, colons, hyphens and commas, and comments from a `#` to the end of the line.
    Text,
    /// Raw bytes.
    Raw,
    /// A dump of `hexdump -C`, `xxd` or `od -A x -t x1`.
    Dump,
}

/// In which form an input is read.
#[derive(Clone, Copy, PartialEq, Eq)]
pub enum InputForm {
    As(Form),
    /// The form is detected from the first 64 bytes: raw, a dump, or digits as in logs.
    Detected,
}
