//! The sizes of a station.
ghost use Rattle.std.specs.Prelude.{◌≡◌};
ghost use Rattle.ddcmp_proto.specs.Config.{first_refusal};

use ddcmp_core::{MAX_COUNT, MAX_WINDOW};
use ddcmp_frame::codes::FRAME_OVERHEAD;

/// The most SYN bytes before a frame.
pub const MAX_SYN: u8 = 16;

/// The most received messages that weren't taken.
pub const MAX_INBOX: u16 = 255;

/// The sizes of a station.
#[derive(Clone, Copy, Debug, PartialEq, Eq)]
pub struct Config {
    /// The largest number of messages sent and not acknowledged: 1 to `MAX_WINDOW`.
    pub window: u16,
    /// The largest number of received messages that weren't taken: 1 to `MAX_INBOX`.
    pub inbox: u16,
    /// The largest number of bytes of a message: 1 to `MAX_COUNT`.
    pub max: u16,
    /// The number of SYN bytes before each frame: 0 to `MAX_SYN`.
    pub syn: u8,
    /// Restart when the peer restarts, if the inbox is empty.
    pub restart: bool,
}

/// The reason why no station was made: the first that applies.
#[derive(Clone, Copy, Debug, PartialEq, Eq)]
pub enum ConfigRefusal {
    /// The window isn't 1 to `MAX_WINDOW`.
    Window,
    /// The inbox isn't 1 to `MAX_INBOX`.
    Inbox,
    /// The largest message isn't 1 to `MAX_COUNT`.
    Max,
    /// The SYN fill is above `MAX_SYN`.
    Syn,
    /// An allocation failed.
    Memory,
}

impl Config {
    ghost use Rattle.std.specs.Prelude.{◌+◌};

    /// The default sizes.
    pub const DEFAULT: Config = Config {
        window: 7,
        inbox: 8,
        max: 1500,
        syn: 0,
        restart: false,
    };

    /// Returns the length of the longest frame with its SYN fill.
    pub fn frame_room(&self) -> usize
        ensures { result ≡ self.now.syn + self.now.max + 10 }
    {
        self.syn as usize + self.max as usize + FRAME_OVERHEAD as usize
    }

    /// Returns the first size that is out of range.
    pub(crate) fn first_refusal(&self) -> Option<ConfigRefusal>
        ensures { result ≡ first_refusal self.now }
    {
        if self.window == 0 || self.window > MAX_WINDOW {
            return Some(ConfigRefusal::Window);
        }
        if self.inbox == 0 || self.inbox > MAX_INBOX {
            return Some(ConfigRefusal::Inbox);
        }
        if self.max == 0 || self.max > MAX_COUNT {
            return Some(ConfigRefusal::Max);
        }
        if self.syn > MAX_SYN {
            return Some(ConfigRefusal::Syn);
        }
        None
    }
}
