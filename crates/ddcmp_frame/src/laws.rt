//! Laws of frames and of the reading of texts, for the crates above: functions without an effect,
//! whose contracts are the laws.
ghost use Rattle.std.specs.Prelude.{◌≡◌, ◌+◌, ◌<◌, ◌≤◌, ◌↔◌, ℕ, Bool, true, false, List, [], ◌∷◌};
ghost use Rattle.std.specs.Prelude.{◌++◌, length, take, drop, slice_index, replicate};
ghost use Rattle.std.specs.Prelude.{if◌then◌else◌, Some, None, Result, Ok, Err};
ghost use Rattle.ddcmp_frame.specs.declared.codes.TheConstants.{SYN};
ghost use Rattle.ddcmp_frame.specs.Spelling.{IsInRange, IsBytes, Spells, Says, is_start, parsed};
ghost use Rattle.ddcmp_frame.specs.Wire.{six_bytes, wire, IsFrame};
ghost use Rattle.ddcmp_frame.specs.Reading.{items, ending, beginning, read, with_more};
ghost use Rattle.ddcmp_frame.specs.Reading.{good_frames_in, good_frames, open_at_end, count_of};
ghost use Rattle.ddcmp_frame.specs.Reading.{data_after_header, is_data_right};
ghost use Rattle.ddcmp_frame.specs.Rows.{outcome_after, outcome_at_end};
ghost use Rattle.ddcmp_frame.specs.Step.{place_untold};
ghost use Rattle.ddcmp_frame.specs.Reader.{frame_length};
ghost use Rattle.ddcmp_frame.specs.declared.header.Header.{Header as HeaderValue};
ghost use Rattle.ddcmp_frame.specs.declared.header.HeaderFault.{HeaderFault as HeaderFaultValue};
ghost use Rattle.ddcmp_frame.specs.declared.item.Item.TheVariants.{Good, HeaderCheck, DataCheck};
ghost use Rattle.ddcmp_frame.specs.declared.item.Item.TheVariants.{TooLong, Format};

use crate::header::HeaderFault;

/// The empty text has no items, and its reading ends where it begins.
pub fn items_of_nothing()
    ensures items { (max : ℕ) → items max [] ≡ [] }
    ensures ending { (max : ℕ) → ending max [] ≡ beginning [] }
{}

/// If a text is continued, reading resumes where it ended: the items yielded before stay.
pub fn items_of_longer()
    ensures items { (max : ℕ) (text more_text : List ℕ)
        → items max (text ++ more_text) ≡ items max text
        ++ (read max (with_more (ending max text) more_text)).items }
    ensures ending { (max : ℕ) (text more_text : List ℕ)
        → ending max (text ++ more_text)
        ≡ (read max (with_more (ending max text) more_text)).place }
{}

/// The table of reading, row by row: the items that a text yields at an offset, and where reading
/// resumes. If the text is too short for its row, reading ends there.
pub fn reading_table()
    ensures nothing { (max o : ℕ) (lost : Bool)
        → read max (place_untold o lost []) ≡ outcome_at_end (place_untold o lost []) }
    ensures skipped { (max o b : ℕ) (lost : Bool) (t : List ℕ) → is_start b ≡ false
        → read max (place_untold o lost (b ∷ t)) ≡ read max (place_untold (o + 1) lost t) }

    // From a start byte eight bytes are a candidate.
    ensures short { (max o : ℕ) (lost : Bool) (t : List ℕ)
        → is_start (slice_index t 0) ≡ true → length t < 8
        → read max (place_untold o lost t) ≡ outcome_at_end (place_untold o lost t) }
    ensures failed { (max o : ℕ) (lost : Bool) (t : List ℕ)
        → is_start (slice_index t 0) ≡ true → 8 ≤ length t → parsed (take 8 t)
        ≡ Err HeaderFault.Check
        → read max (place_untold o lost t) ≡ outcome_after
        (if lost then []
        else (HeaderCheck o, []) ∷ []) (read max (place_untold (o + 1) true (drop 1 t))) }
    ensures bad_type { (max o code : ℕ) (lost : Bool) (t : List ℕ)
        → is_start (slice_index t 0) ≡ true → 8 ≤ length t
        → parsed (take 8 t) ≡ Err (HeaderFault.BadType code)
        → read max (place_untold o lost t) ≡ outcome_after
        ((Format o (HeaderFault.BadType code), []) ∷ []) (read max (place_untold
        (o + 8) false (drop 8 t))) }
    ensures count_zero { (max o : ℕ) (lost : Bool) (t : List ℕ)
        → is_start (slice_index t 0) ≡ true → 8 ≤ length t
        → parsed (take 8 t) ≡ Err HeaderFault.CountZero
        → read max (place_untold o lost t) ≡ outcome_after
        ((Format o HeaderFault.CountZero, []) ∷ []) (read max (place_untold (o + 8) false
        (drop 8 t))) }

    // A control header is a whole frame; any other has data, and their CRC.
    ensures control { (max o : ℕ) (lost : Bool) (t : List ℕ) (h : HeaderValue)
        → is_start (slice_index t 0) ≡ true → 8 ≤ length t
        → parsed (take 8 t) ≡ Ok h → count_of h ≡ None
        → read max (place_untold o lost t) ≡ outcome_after
        ((Good o h, []) ∷ []) (read max (place_untold (o + 8) false (drop 8 t))) }
    ensures too_long { (max o n : ℕ) (lost : Bool) (t : List ℕ) (h : HeaderValue)
        → is_start (slice_index t 0) ≡ true → 8 ≤ length t
        → parsed (take 8 t) ≡ Ok h → count_of h ≡ Some n → max < n → n + 10 ≤ length t
        → read max (place_untold o lost t) ≡ outcome_after
        ((TooLong o h, []) ∷ []) (read max (place_untold (o + (n + 10)) false (drop
        (n + 10) t))) }
    ensures too_long_open { (max o n : ℕ) (lost : Bool) (t : List ℕ) (h : HeaderValue)
        → is_start (slice_index t 0) ≡ true → 8 ≤ length t
        → parsed (take 8 t) ≡ Ok h → count_of h ≡ Some n → max < n → length t < n + 10
        → read max (place_untold o lost t) ≡ outcome_after ((TooLong o h, []) ∷ [])
        (outcome_at_end (record (place_untold o lost t) { told = true })) }
    ensures unfinished { (max o n : ℕ) (lost : Bool) (t : List ℕ) (h : HeaderValue)
        → is_start (slice_index t 0) ≡ true → 8 ≤ length t
        → parsed (take 8 t) ≡ Ok h → count_of h ≡ Some n → n ≤ max → length t < n + 10
        → read max (place_untold o lost t) ≡ outcome_at_end (place_untold o lost t) }
    ensures good { (max o n : ℕ) (lost : Bool) (t : List ℕ) (h : HeaderValue)
        → is_start (slice_index t 0) ≡ true → 8 ≤ length t
        → parsed (take 8 t) ≡ Ok h → count_of h ≡ Some n → n ≤ max → n + 10 ≤ length t
        → is_data_right n t ≡ true
        → read max (place_untold o lost t) ≡ outcome_after ((Good o h, data_after_header n t) ∷ [])
        (read max (place_untold (o + (n + 10)) false (drop (n + 10) t))) }
    ensures damaged { (max o n : ℕ) (lost : Bool) (t : List ℕ) (h : HeaderValue)
        → is_start (slice_index t 0) ≡ true → 8 ≤ length t
        → parsed (take 8 t) ≡ Ok h → count_of h ≡ Some n → n ≤ max → n + 10 ≤ length t
        → is_data_right n t ≡ false
        → read max (place_untold o lost t) ≡ outcome_after ((DataCheck o h, []) ∷ [])
        (read max (place_untold (o + (n + 10)) false (drop (n + 10) t))) }
{}

/// Eight bytes are parsed as the encoding of headers defines.
pub fn parsed_is_the_spelling()
    ensures { (verdict : Result HeaderValue HeaderFaultValue) (bytes : List ℕ) → length bytes ≡ 8
        → (parsed bytes ≡ verdict) ↔ Says verdict bytes }
{}

/// If a text is continued, its good frames only grow at their end.
pub fn good_frames_of_longer()
    ensures { (max : ℕ) (text more_text : List ℕ)
        → good_frames max (text ++ more_text) ≡ good_frames max text
        ++ good_frames_in (read max (with_more (ending max text) more_text)).items }
{}

/// The offset where reading ends counts the bytes that were read.
pub fn ending_counts()
    ensures { (max : ℕ) (text : List ℕ) → (ending max text).offset + length (ending max text).rest
        ≡ length text }
{}

/// If no frame is unfinished, fill and a whole frame are one good item and leave none unfinished,
/// whether synchronism was lost or not.
pub fn whole_frame()
    ensures item { (max fill : ℕ) (text message : List ℕ) (h : HeaderValue)
        → open_at_end max text ≡ 0 → IsInRange h → IsFrame h message → length message ≤ max
        → items max (text ++ (replicate fill SYN ++ wire h message)) ≡ items max text
        ++ (Good (length text + fill) h, message) ∷ [] }
    ensures closed { (max fill : ℕ) (text message : List ℕ) (h : HeaderValue)
        → open_at_end max text ≡ 0 → IsInRange h → IsFrame h message → length message ≤ max
        → open_at_end max (text ++ (replicate fill SYN ++ wire h message)) ≡ 0 }
{}

/// A header has one encoding, its six bytes, and no six bytes encode two headers.
pub fn spellings()
    ensures spelled { (h : HeaderValue) → IsInRange h → Spells h (six_bytes h) }
    ensures one { (h : HeaderValue) (bytes : List ℕ) → IsBytes bytes → Spells h bytes → bytes
        ≡ six_bytes h }
    ensures same { (g h : HeaderValue) (bytes : List ℕ) → Spells g bytes → Spells h bytes → g ≡ h }
{}

/// The number of bytes of a frame on the line.
pub fn wire_length()
    ensures { (h : HeaderValue) (message : List ℕ) → IsFrame h message → length (wire h message)
        ≡ frame_length h }
{}
