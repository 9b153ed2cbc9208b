//! Published CRCs, and each kind of frame as bytes, computed from the definitions.
ghost use Rattle.std.specs.Prelude.{◌≡◌, ◌++◌, ℕ, true, false, [], ◌∷◌, replicate};
ghost use Rattle.ddcmp_num.specs.Check.{check_of};
ghost use Rattle.ddcmp_frame.specs.declared.header.ControlType.TheVariants.{Ack, Nak, Rep};
ghost use Rattle.ddcmp_frame.specs.declared.header.ControlType.TheVariants.{Strt as StrtType};
ghost use Rattle.ddcmp_frame.specs.declared.header.ControlType.TheVariants.{Stack as StackType};
ghost use Rattle.ddcmp_frame.specs.declared.nak.Nak.TheVariants as reason;
ghost use Rattle.ddcmp_core.specs.Table.{Data, Acked, Frame, Naked, Rep as RepFrame, Strt, Stack};
ghost use Rattle.ddcmp_core.specs.Table.{Maint};
ghost use Rattle.ddcmp_proto.specs.Bytes.{frame_on_line};
ghost use Rattle.ddcmp_laws.specs.Vectors.{nine_digits, abc, control, data_of, maintenance_of};
ghost use Rattle.ddcmp_laws.specs.Vectors.{IsHeader, IsOnLine};

/// The published values of CRC-16 for `123456789`, for `abc` and for no bytes.
pub fn published_checks()
    ensures digits { check_of nine_digits ≡ 0xBB3D }
    ensures letters { check_of abc ≡ 0x9738 }
    ensures nothing { check_of [] ≡ 0 }
{}

/// Headers in which each field has a value of its own: the bytes of the TYPE, the SUBTYPE, Q, S,
/// COUNT, RESP, NUM and ADDR, and after them the CRC with its low byte first.
pub fn headers_in_bytes()
    ensures ack { IsHeader (control Ack 0 true false 5 9 7)
        (0x05 ∷ 0x01 ∷ 0x40 ∷ 0x05 ∷ 0x09 ∷ 0x07 ∷ 0x7F ∷ 0xC6 ∷ []) }
    ensures nak { IsHeader (control Nak 63 false true 5 9 7)
        (0x05 ∷ 0x02 ∷ 0xBF ∷ 0x05 ∷ 0x09 ∷ 0x07 ∷ 0x0B ∷ 0xD2 ∷ []) }
    ensures rep { IsHeader (control Rep 0 false false 5 9 255)
        (0x05 ∷ 0x03 ∷ 0x00 ∷ 0x05 ∷ 0x09 ∷ 0xFF ∷ 0x12 ∷ 0x44 ∷ []) }
    ensures strt { IsHeader (control StrtType 0 true true 0 0 1)
        (0x05 ∷ 0x06 ∷ 0xC0 ∷ 0x00 ∷ 0x00 ∷ 0x01 ∷ 0x75 ∷ 0x95 ∷ []) }
    ensures stack { IsHeader (control StackType 0 true true 0 0 1)
        (0x05 ∷ 0x07 ∷ 0xC0 ∷ 0x00 ∷ 0x00 ∷ 0x01 ∷ 0x48 ∷ 0x55 ∷ []) }
    ensures message { IsHeader (data_of 1501 false true 5 9 7)
        (0x81 ∷ 0xDD ∷ 0x85 ∷ 0x05 ∷ 0x09 ∷ 0x07 ∷ 0x8C ∷ 0x9D ∷ []) }
    ensures longest { IsHeader (data_of 16383 true true 255 254 253)
        (0x81 ∷ 0xFF ∷ 0xFF ∷ 0xFF ∷ 0xFE ∷ 0xFD ∷ 0x8B ∷ 0xC0 ∷ []) }
    ensures maintenance { IsHeader (maintenance_of 1501 true false 5 9 7)
        (0x90 ∷ 0xDD ∷ 0x45 ∷ 0x05 ∷ 0x09 ∷ 0x07 ∷ 0xB3 ∷ 0xDC ∷ []) }
{}

/// Each kind of frame that a station sends, with each reason of a NAK that has a name, is these
/// bytes; and a station that reads these bytes reads that frame and nothing else. A frame is
/// preceded by as many bytes of fill, 0x96, as were chosen.
pub fn frames_in_bytes()
    ensures strt { IsOnLine Strt
        (0x05 ∷ 0x06 ∷ 0xC0 ∷ 0x00 ∷ 0x00 ∷ 0x01 ∷ 0x75 ∷ 0x95 ∷ []) }
    ensures stack { IsOnLine Stack
        (0x05 ∷ 0x07 ∷ 0xC0 ∷ 0x00 ∷ 0x00 ∷ 0x01 ∷ 0x48 ∷ 0x55 ∷ []) }
    ensures ack { IsOnLine (Acked 5)
        (0x05 ∷ 0x01 ∷ 0x00 ∷ 0x05 ∷ 0x00 ∷ 0x01 ∷ 0xEC ∷ 0x54 ∷ []) }
    ensures nak_header_check { IsOnLine (Naked reason.HeaderCheck 5)
        (0x05 ∷ 0x02 ∷ 0x01 ∷ 0x05 ∷ 0x00 ∷ 0x01 ∷ 0xA9 ∷ 0xA8 ∷ []) }
    ensures nak_data_check { IsOnLine (Naked reason.DataCheck 5)
        (0x05 ∷ 0x02 ∷ 0x02 ∷ 0x05 ∷ 0x00 ∷ 0x01 ∷ 0xA9 ∷ 0xEC ∷ []) }
    ensures nak_reply_to_rep { IsOnLine (Naked reason.ReplyToRep 5)
        (0x05 ∷ 0x02 ∷ 0x03 ∷ 0x05 ∷ 0x00 ∷ 0x01 ∷ 0xA8 ∷ 0x10 ∷ []) }
    ensures nak_no_buffer { IsOnLine (Naked reason.NoBuffer 5)
        (0x05 ∷ 0x02 ∷ 0x08 ∷ 0x05 ∷ 0x00 ∷ 0x01 ∷ 0xAA ∷ 0x34 ∷ []) }
    ensures nak_overrun { IsOnLine (Naked reason.Overrun 5)
        (0x05 ∷ 0x02 ∷ 0x09 ∷ 0x05 ∷ 0x00 ∷ 0x01 ∷ 0xAB ∷ 0xC8 ∷ []) }
    ensures nak_too_long { IsOnLine (Naked reason.TooLong 5)
        (0x05 ∷ 0x02 ∷ 0x10 ∷ 0x05 ∷ 0x00 ∷ 0x01 ∷ 0xAC ∷ 0x94 ∷ []) }
    ensures nak_format { IsOnLine (Naked reason.Format 5)
        (0x05 ∷ 0x02 ∷ 0x11 ∷ 0x05 ∷ 0x00 ∷ 0x01 ∷ 0xAD ∷ 0x68 ∷ []) }
    ensures rep { IsOnLine (RepFrame 7)
        (0x05 ∷ 0x03 ∷ 0x00 ∷ 0x00 ∷ 0x07 ∷ 0x01 ∷ 0x87 ∷ 0xA5 ∷ []) }
    ensures message { IsOnLine (Data 5 7 abc)
        (0x81 ∷ 0x03 ∷ 0x00 ∷ 0x05 ∷ 0x07 ∷ 0x01 ∷ 0x89 ∷ 0xE0
        ∷ 0x61 ∷ 0x62 ∷ 0x63 ∷ 0x38 ∷ 0x97 ∷ []) }
    ensures maintenance { IsOnLine (Maint abc)
        (0x90 ∷ 0x03 ∷ 0xC0 ∷ 0x00 ∷ 0x00 ∷ 0x01 ∷ 0xA4 ∷ 0x90
        ∷ 0x61 ∷ 0x62 ∷ 0x63 ∷ 0x38 ∷ 0x97 ∷ []) }
    ensures fill { frame_on_line 2 (Acked 5) ≡ 0x96 ∷ 0x96
        ∷ 0x05 ∷ 0x01 ∷ 0x00 ∷ 0x05 ∷ 0x00 ∷ 0x01 ∷ 0xEC ∷ 0x54 ∷ [] }
    ensures fill_of_each { (syn : ℕ) (frame : Frame)
        → frame_on_line syn frame ≡ replicate syn 0x96 ++ frame_on_line 0 frame }
{}
