//! Damage on the line is detected, and frames that are damaged or too long are skipped.
ghost use Rattle.std.specs.Prelude.{◌≡◌, ◌+◌, ◌%◌, ◌<◌, ◌≤◌, ◌⊎◌, ℕ, List, [], ◌∷◌, ◌++◌, length};
ghost use Rattle.std.specs.Prelude.{take, drop, replicate, true, false, Some, Ok, Err};
ghost use Rattle.ddcmp_frame.specs.declared.codes.TheConstants.{SYN};
ghost use Rattle.ddcmp_frame.specs.declared.header.Header.{Header as HeaderValue};
ghost use Rattle.ddcmp_frame.specs.declared.header.HeaderFault.TheVariants.{Check, NotAStart};
ghost use Rattle.ddcmp_frame.specs.declared.header.HeaderFault.TheVariants.{CountZero};
ghost use Rattle.ddcmp_frame.specs.declared.item.Item.TheVariants.{TooLong, DataCheck, Format};
ghost use Rattle.ddcmp_frame.specs.Spelling.{IsInRange, parsed};
ghost use Rattle.ddcmp_frame.specs.Wire.{wire, IsFrame};
ghost use Rattle.ddcmp_frame.specs.Reading.{items, open_at_end, is_data_right, count_of};
ghost use Rattle.ddcmp_laws.specs.Damage.{DiffersInABurst, DiffersInOneByte, with_check};

/// Eight bytes that are a header are no longer one once up to 16 bits in a row of them have
/// changed, in fields, CRC or both: their CRC is wrong, or they don't begin as a header. The same
/// holds if one byte has changed.
pub fn damaged_headers_are_detected()
    ensures burst { (h : HeaderValue) (old new : List ℕ) → length old ≡ 8 → length new ≡ 8
        → parsed old ≡ Ok h → DiffersInABurst old new
        → (parsed new ≡ Err Check) ⊎ (parsed new ≡ Err NotAStart) }
    ensures one_byte { (h : HeaderValue) (old new : List ℕ) → length old ≡ 8 → length new ≡ 8
        → parsed old ≡ Ok h → DiffersInOneByte old new
        → (parsed new ≡ Err Check) ⊎ (parsed new ≡ Err NotAStart) }
{}

/// Data with a right CRC have a wrong one once up to 16 bits in a row of them or of their CRC have
/// changed, or one byte.
pub fn damaged_data_are_detected()
    ensures burst { (n : ℕ) (old new : List ℕ) → length old ≡ n + 10 → length new ≡ n + 10
        → is_data_right n old ≡ true → DiffersInABurst (drop 8 old) (drop 8 new)
        → is_data_right n new ≡ false }
    ensures one_byte { (n : ℕ) (old new : List ℕ) → length old ≡ n + 10 → length new ≡ n + 10
        → is_data_right n old ≡ true → DiffersInOneByte (drop 8 old) (drop 8 new)
        → is_data_right n new ≡ false }
{}

/// A frame whose data are too long is reported once and skipped whole: no frame is unfinished after
/// it, so that the next frame is read.
pub fn too_long_is_skipped()
    ensures told { (max fill : ℕ) (text message : List ℕ) (h : HeaderValue)
        → open_at_end max text ≡ 0 → IsInRange h → IsFrame h message → max < length message
        → items max (text ++ (replicate fill SYN ++ wire h message))
        ≡ items max text ++ (TooLong (length text + fill) h, []) ∷ [] }
    ensures closed { (max fill : ℕ) (text message : List ℕ) (h : HeaderValue)
        → open_at_end max text ≡ 0 → IsInRange h → IsFrame h message → max < length message
        → open_at_end max (text ++ (replicate fill SYN ++ wire h message)) ≡ 0 }
{}

/// A frame whose data are damaged is reported once and skipped whole: reading resumes after it and
/// not at its second byte, so that nothing inside its data is taken for a frame.
pub fn damaged_frames_are_skipped()
    ensures reported { (max fill n : ℕ) (text bytes : List ℕ) (h : HeaderValue)
        → open_at_end max text ≡ 0 → length bytes ≡ n + 10 → parsed (take 8 bytes) ≡ Ok h
        → count_of h ≡ Some n → n ≤ max → is_data_right n bytes ≡ false
        → items max (text ++ (replicate fill SYN ++ bytes))
        ≡ items max text ++ (DataCheck (length text + fill) h, []) ∷ [] }
    ensures closed { (max fill n : ℕ) (text bytes : List ℕ) (h : HeaderValue)
        → open_at_end max text ≡ 0 → length bytes ≡ n + 10 → parsed (take 8 bytes) ≡ Ok h
        → count_of h ≡ Some n → n ≤ max → is_data_right n bytes ≡ false
        → open_at_end max (text ++ (replicate fill SYN ++ bytes)) ≡ 0 }
{}

/// A header of a data or maintenance message with COUNT 0 is reported as a format error, and no
/// frame is unfinished after it.
pub fn headers_without_data_are_reported()
    ensures reported { (max fill first flags resp num addr : ℕ) (text : List ℕ)
        → open_at_end max text ≡ 0 → (first ≡ 0x81) ⊎ (first ≡ 0x90) → flags % 64 ≡ 0
        → items max (text ++ (replicate fill SYN
        ++ with_check (first ∷ 0 ∷ flags ∷ resp ∷ num ∷ addr ∷ [])))
        ≡ items max text ++ (Format (length text + fill) CountZero, []) ∷ [] }
    ensures closed { (max fill first flags resp num addr : ℕ) (text : List ℕ)
        → open_at_end max text ≡ 0 → (first ≡ 0x81) ⊎ (first ≡ 0x90) → flags % 64 ≡ 0
        → open_at_end max (text ++ (replicate fill SYN
        ++ with_check (first ∷ 0 ∷ flags ∷ resp ∷ num ∷ addr ∷ []))) ≡ 0 }
{}
