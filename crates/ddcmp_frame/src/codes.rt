//! The bytes and numbers of the protocol (DDCMP 4.1, message formats).

/// The fill byte before a frame, SYN.
pub const SYN: u8 = 0x96;

/// The first byte of a numbered data message.
pub const DATA_START: u8 = 0x81;

/// The first byte of a control message.
pub const CONTROL_START: u8 = 0x05;

/// The first byte of a maintenance message.
pub const MAINT_START: u8 = 0x90;

/// The TYPE of an ACK.
pub const ACK_TYPE: u8 = 1;

/// The TYPE of a NAK.
pub const NAK_TYPE: u8 = 2;

/// The TYPE of a REP.
pub const REP_TYPE: u8 = 3;

/// The TYPE of a STRT.
pub const STRT_TYPE: u8 = 6;

/// The TYPE of a STACK.
pub const STACK_TYPE: u8 = 7;

/// The SUBTYPE of a NAK: header CRC.
pub const HEADER_CHECK_REASON: u8 = 1;

/// The SUBTYPE of a NAK: data CRC.
pub const DATA_CHECK_REASON: u8 = 2;

/// The SUBTYPE of a NAK: reply to REP.
pub const REPLY_TO_REP_REASON: u8 = 3;

/// The SUBTYPE of a NAK: buffer temporarily unavailable.
pub const NO_BUFFER_REASON: u8 = 8;

/// The SUBTYPE of a NAK: receive overrun.
pub const OVERRUN_REASON: u8 = 9;

/// The SUBTYPE of a NAK: message too long.
pub const TOO_LONG_REASON: u8 = 16;

/// The SUBTYPE of a NAK: header format error.
pub const FORMAT_REASON: u8 = 17;

/// The number of bytes of a header with its CRC.
pub const HEADER_BYTES: u8 = 8;

/// The most bytes of a frame beside its data: the header, and the CRC of the data.
pub const FRAME_OVERHEAD: u8 = 10;
