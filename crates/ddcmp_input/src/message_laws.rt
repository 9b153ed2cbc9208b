//! Laws of messages: functions without an effect.
ghost use Rattle.std.specs.Prelude.{◌≡◌, ◌≢◌, ℕ, ◌<◌, Bool, List, [], ◌∷◌, ◌++◌, length, map};
ghost use Rattle.std.specs.List.{All};
ghost use Rattle.hex.specs.Hex.{encode_lower, encode_upper, IsBytes};
ghost use Rattle.ddcmp_input.specs.declared.entry.Entry.{Entry as EntryValue};
ghost use Rattle.ddcmp_input.specs.declared.entry.Entry.TheVariants.{Message, TooLong, Empty};
ghost use Rattle.ddcmp_input.specs.declared.lengths.LengthPlace.TheVariants.{Start};
ghost use Rattle.ddcmp_input.specs.Lengths.{LengthsView, after_bytes, entries_of_bytes};
ghost use Rattle.ddcmp_input.specs.HexLines.{HexView, in_line, after_bytes as after_digits};
ghost use Rattle.ddcmp_input.specs.HexLines.{entries_of_bytes as entries_of_digits};
ghost use Rattle.ddcmp_input.specs.Told.{Got, Refused};
ghost use Rattle.ddcmp_input.specs.InBinary.{told_by_byte, told_in, behind_length, in_binary};
ghost use Rattle.ddcmp_input.specs.InBinary.{Fits};
ghost use Rattle.ddcmp_input.specs.InLines.{told_by_byte as told_by_digit};
ghost use Rattle.ddcmp_input.specs.InLines.{told_in as told_in_lines, line_at, next_number};
ghost use Rattle.ddcmp_input.specs.InLines.{line_end, Spells, IsNone, Line, IsLine, in_lines};
ghost use Rattle.ddcmp_input.specs.InLines.{messages_of};

/// A chunk of an input has the effect of its parts, one after another: it doesn't matter where the
/// input is cut.
pub fn pieces()
    ensures lengths { (u w : List ℕ) (v : LengthsView)
        → (after_bytes (u ++ w) v ≡ after_bytes w (after_bytes u v))
        × (entries_of_bytes (u ++ w) v
        ≡ entries_of_bytes u v ++ entries_of_bytes w (after_bytes u v)) }
    ensures lines { (u w : List ℕ) (v : HexView)
        → (after_digits (u ++ w) v ≡ after_digits w (after_digits u v))
        × (entries_of_digits (u ++ w) v
        ≡ entries_of_digits u v ++ entries_of_digits w (after_digits u v)) }
{}

/// The meaning of bytes is what `push_all` returns for them, with the message that is then
/// complete: nothing if nothing is completed, and else what the last byte completes. It doesn't
/// matter where the input is cut.
pub fn told_is_answered()
    ensures cut { (u w : List ℕ) (v : LengthsView)
        → told_in (u ++ w) v ≡ told_in u v ++ told_in w (after_bytes u v) }
    ensures cut_lines { (u w : List ℕ) (v : HexView)
        → told_in_lines (u ++ w) v ≡ told_in_lines u v ++ told_in_lines w (after_digits u v) }
    ensures answer { (u : List ℕ) (byte : ℕ) (v : LengthsView) → entries_of_bytes u v ≡ []
        → (told_in u v ≡ [])
        × (told_in (u ++ byte ∷ []) v ≡ told_by_byte byte (after_bytes u v)) }
    ensures answer_lines { (u : List ℕ) (byte : ℕ) (v : HexView) → entries_of_digits u v ≡ []
        → (told_in_lines u v ≡ [])
        × (told_in_lines (u ++ byte ∷ []) v ≡ told_by_digit byte (after_digits u v)) }
{}

/// Between two messages in binary: a message after its length yields that message; messages one
/// after another yield these in order, and nothing else. An empty message, or one longer than the
/// maximum, is refused, and what follows is read as if it hadn't been there.
pub fn binary_messages()
    ensures message { (message rest : List ℕ) (v : LengthsView)
        → v.place ≡ Start → Fits v.max message
        → told_in (behind_length message ++ rest) v ≡ Got message ∷ told_in rest v }
    ensures messages { (messages : List (List ℕ)) (v : LengthsView)
        → v.place ≡ Start → All (Fits v.max) messages
        → (told_in (in_binary messages) v ≡ map Got messages)
        × ((after_bytes (in_binary messages) v).place ≡ Start) }
    ensures empty { (rest : List ℕ) (v : LengthsView) → v.place ≡ Start
        → told_in (behind_length [] ++ rest) v ≡ Refused Empty ∷ told_in rest v }
    ensures long { (message rest : List ℕ) (v : LengthsView)
        → v.place ≡ Start → v.max < length message
        → told_in (behind_length message ++ rest) v ≡ Refused TooLong ∷ told_in rest v }
{}

/// At the beginning of a line: the digits of a message, of either case, and a line end, LF or CR
/// LF, yield that message with the number of the line. Lines one after another yield their messages
/// in order, and nothing else. An empty line yields nothing. A line that isn't a message yields one
/// refusal with its number. After each, the next line begins.
pub fn messages_in_lines()
    ensures line { (digits message rest : List ℕ) (returns : Bool) (max number : ℕ)
        → Spells digits message → Fits max message
        → told_in_lines (digits ++ (line_end returns ++ rest)) (line_at max number)
        ≡ (number, Got message) ∷ told_in_lines rest (line_at max (next_number number)) }
    ensures lines { (lines : List Line) (returns : Bool) (max number : ℕ)
        → All (IsLine max) lines
        → told_in_lines (in_lines returns lines) (line_at max number) ≡ messages_of number lines }
    ensures empty { (rest : List ℕ) (returns : Bool) (max number : ℕ)
        → told_in_lines (line_end returns ++ rest) (line_at max number)
        ≡ told_in_lines rest (line_at max (next_number number)) }
    ensures none { (line rest : List ℕ) (max number : ℕ)
        → All (λ byte. byte ≢ 10) line → IsNone max line
        → (why : EntryValue) × (why ≢ Message)
        × (told_in_lines (line ++ 10 ∷ rest) (line_at max number)
        ≡ (number, Refused why) ∷ told_in_lines rest (line_at max (next_number number))) }
    ensures rests { (line : List ℕ) (max number : ℕ) → All (λ byte. byte ≢ 10) line
        → in_line (after_digits (line ++ 10 ∷ []) (line_at max number))
        ≡ line_at max (next_number number) }
    ensures digits { (message : List ℕ) → IsBytes message
        → Spells (encode_lower message) message × Spells (encode_upper message) message }
{}
