//! The reasons of a NAK.
ghost use Rattle.std.specs.Prelude.{◌≡◌};
ghost use Rattle.ddcmp_frame.specs.Naks.{subtype_of, reason_of};

use crate::codes::{
    DATA_CHECK_REASON, FORMAT_REASON, HEADER_CHECK_REASON, NO_BUFFER_REASON, OVERRUN_REASON,
    REPLY_TO_REP_REASON, TOO_LONG_REASON,
};

/// Why a message was refused (DDCMP 4.1, NAK reasons). `Overrun` is read and counted, never sent.
#[derive(Clone, Copy, Debug, PartialEq, Eq)]
pub enum Nak {
    HeaderCheck,
    DataCheck,
    ReplyToRep,
    NoBuffer,
    Overrun,
    TooLong,
    Format,
    Other(u8),
}

impl Nak {
    /// Returns the reason with this SUBTYPE of a NAK.
    pub fn of(sub: u8) -> Nak
        ensures reason { result ≡ reason_of sub }
        ensures subtype { subtype_of result ≡ sub }
    {
        match sub {
            HEADER_CHECK_REASON => Nak::HeaderCheck,
            DATA_CHECK_REASON => Nak::DataCheck,
            REPLY_TO_REP_REASON => Nak::ReplyToRep,
            NO_BUFFER_REASON => Nak::NoBuffer,
            OVERRUN_REASON => Nak::Overrun,
            TOO_LONG_REASON => Nak::TooLong,
            FORMAT_REASON => Nak::Format,
            other => Nak::Other(other),
        }
    }

    /// Returns the SUBTYPE of the reason.
    pub fn sub(self) -> u8
        ensures { result ≡ subtype_of self }
    {
        match self {
            Nak::HeaderCheck => HEADER_CHECK_REASON,
            Nak::DataCheck => DATA_CHECK_REASON,
            Nak::ReplyToRep => REPLY_TO_REP_REASON,
            Nak::NoBuffer => NO_BUFFER_REASON,
            Nak::Overrun => OVERRUN_REASON,
            Nak::TooLong => TOO_LONG_REASON,
            Nak::Format => FORMAT_REASON,
            Nak::Other(other) => other,
        }
    }
}
