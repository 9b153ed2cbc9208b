//! Why a text is incomplete.

/// The allocation for a text failed.
#[derive(Clone, Copy)]
pub struct NoMemory;
