//! Why the arguments name no command to run.

/// Why no command is run.
#[derive(Drop)]
pub enum NoCommand {
    /// Help was asked for; this is its text.
    Help(String),
    /// The version was asked for; this is its text.
    Version(String),
    /// A usage error, with its text.
    Usage(String),
    /// An allocation failed while the arguments were parsed.
    Memory,
}
