//! The lists that events and replies own.
use ddcmp_core::Notice;
use std::marker::Model;
use std::ops::Deref;

/// Bytes of a message or of a line, made from a `Vec` that they return unchanged.
#[derive(Drop)]
pub struct Bytes {
    bytes: Vec<u8>,
}

impl Model for Bytes {
    ghost use Rattle.std.specs.Prelude.{List, ℕ};

    ghost Value = { List ℕ };

    ghost view = { λ b. b.bytes.items };
}

impl Bytes {
    ghost use Rattle.std.specs.Prelude.{◌≡◌};

    /// Makes them from a `Vec`.
    pub fn new(bytes: Vec<u8>) -> Self
        ensures { result ≡ bytes.items }
    {
        Bytes { bytes }
    }

    /// Returns all of them.
    pub fn as_slice(&self) -> &[u8]
        ensures { result.now ≡ self.now }
    {
        &self.bytes
    }

    /// Returns the `Vec` from which they were made.
    pub fn into_vec(self) -> Vec<u8>
        ensures { result.items ≡ self }
    {
        let Bytes { bytes } = self;
        bytes
    }
}

/// The notices of an arrival, in their order.
#[derive(Drop)]
pub struct Notices {
    notices: Vec<Notice>,
}

impl Model for Notices {
    ghost use Rattle.std.specs.Prelude.{List};
    ghost use Rattle.ddcmp_core.specs.declared.notice.Notice.{Notice as NoticeValue};

    ghost Value = { List NoticeValue };

    ghost view = { λ n. n.notices.items };
}

impl Notices {
    ghost use Rattle.std.specs.Prelude.{◌≡◌};

    /// Makes them from a `Vec`.
    pub fn new(notices: Vec<Notice>) -> Self
        ensures { result ≡ notices.items }
    {
        Notices { notices }
    }

    /// Returns all of them.
    pub fn as_slice(&self) -> &[Notice]
        ensures { result.now ≡ self.now }
    {
        &self.notices
    }
}
