//! The names of the reasons of NAKs.
ghost use Rattle.std.specs.Prelude.{◌≡◌, ◌≤◌, length};
ghost use Rattle.ddcmp_explain.specs.Json.{reason_in_words};

use ddcmp_frame::Nak;

/// Returns the name of a NAK's reason, as it is in JSON and in a trace.
pub fn reason_name(reason: Nak) -> &'static [u8]
    ensures name { result.now ≡ reason_in_words reason }
    ensures within { length result.now ≤ 30 }
{
    match reason {
        Nak::HeaderCheck => b"header check",
        Nak::DataCheck => b"data check",
        Nak::ReplyToRep => b"reply to REP",
        Nak::NoBuffer => b"buffer temporarily unavailable",
        Nak::Overrun => b"receive overrun",
        Nak::TooLong => b"message too long",
        Nak::Format => b"header format error",
        Nak::Other(_) => b"other",
    }
}
