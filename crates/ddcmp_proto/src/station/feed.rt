//! How a station handles the bytes of its line.
ghost use Rattle.std.specs.Prelude.{◌≡◌};

use crate::station::Station;
use ddcmp_core::{Header, Input, Notice};
use ddcmp_frame::{Item, Pushed};

/// The result of feeding a piece of the line to a station.
#[derive(Clone, Copy, Debug, PartialEq, Eq)]
pub struct Fed {
    /// How many bytes were used. The caller feeds the rest.
    pub used: usize,
    /// The notice that the last of these bytes yielded. Without one all bytes were used.
    pub notice: Option<Notice>,
}

impl Station {
    ghost use Rattle.std.specs.Prelude.{◌≡◌, ℕ, ◌+◌, ◌<◌, ◌≤◌, ◌^◌, List, [], ◌++◌, length, take};
    ghost use Rattle.std.specs.Prelude.{option_to_list, Some, None};
    ghost use Rattle.ddcmp_frame.specs.Reader.{StandsFor, LentBeside};
    ghost use Rattle.ddcmp_core.specs.Table.{acknowledged_by};
    ghost use Rattle.ddcmp_proto.specs.Bytes.{after_piece, notices_of_piece, after_item};
    ghost use Rattle.ddcmp_proto.specs.Bytes.{notices_of_item};
    ghost use Rattle.ddcmp_proto.specs.Inside.OnePart.{TakesPart};

    /// Handles received bytes, up to the first that yields a notice.
    pub fn feed(&mut self, piece: &[u8]) -> Fed
        requires { self.old.line.offset + length piece.now < 2 ^ 64 }
        // The reader stands for the text followed by the bytes used, whatever the chunks of the
        // text.
        ensures stands { (text : List ℕ) → StandsFor self.old.line text
            → StandsFor self.new.line (text ++ take result.used piece.now) }
        ensures state { (text : List ℕ) → StandsFor self.old.line text
            → self.new.core ≡ after_piece text (take result.used piece.now) self.old.core }
        // The last byte used yielded the notice, and no byte before it yielded one.
        ensures told { (text : List ℕ) → StandsFor self.old.line text
            → notices_of_piece text (take result.used piece.now) self.old.core
            ≡ option_to_list result.notice }
        ensures first { (text : List ℕ) (n : ℕ) → StandsFor self.old.line text → n < result.used
            → notices_of_piece text (take n piece.now) self.old.core ≡ [] }
        ensures used { result.used ≤ length piece.now }
        ensures whole { result.notice ≡ None → result.used ≡ length piece.now }
        ensures some { 0 < length piece.now → 0 < result.used }
        // Messages that are reported acknowledged have left the queue.
        ensures leaves { acknowledged_by result.notice + length self.new.core.station.out
            ≤ length self.old.core.station.out }
        // Whatever the text.
        ensures offset { self.new.line.offset ≡ self.old.line.offset + result.used }
        ensures limits { self.new.core.limits ≡ self.old.core.limits }
        ensures syn { self.new.syn ≡ self.old.syn }
    {
        let mut used = 0;
        while used < piece.len() {
            let (part, notice) = self.take_part(&piece[used..]);
            used += part;
            match notice {
                None => {}
                Some(_) => return Fed { used, notice },
            }
        }
        Fed { used, notice: None }
    }

    /// Handles bytes of the line up to the first that completes an item; returns how many they are,
    /// and the notice of the item.
    fn take_part(&mut self, piece: &[u8]) -> (usize, Option<Notice>)
        requires some { 0 < length piece.now }
        requires fits { self.old.line.offset + length piece.now < 2 ^ 64 }
        ensures used { result.0 ≤ length piece.now }
        ensures some { 0 < result.0 }
        ensures takes { TakesPart self.old (take result.0 piece.now) self.new result.1 }
    {
        // The data of a frame that is whole in the piece are copied only to the inbox.
        if let Some(fields) = self.reader.push_frame(piece) {
            let end = fields.count as usize + 8;
            let input = Input::Good(Header::Data(fields), &piece[8..end]);
            return (end + 2, self.core.on(&input));
        }
        let Pushed { used, item } = self.reader.push_all(piece);
        match item {
            None => (used, None),
            Some(item) => (used, self.take_item(item)),
        }
    }

    /// Handles an item of the line, whose data the reader lends; returns its notice.
    fn take_item(&mut self, item: Item) -> Option<Notice>
        requires lent { LentBeside (Some item) self.old.line.lent }
        requires within { length self.old.line.lent ≤ self.old.core.limits.longest }
        ensures state { self.new
            ≡ record self.old { core = after_item (item, self.old.line.lent) self.old.core } }
        ensures told { option_to_list result
            ≡ notices_of_item (item, self.old.line.lent) self.old.core }
        ensures leaves { acknowledged_by result + length self.new.core.station.out
            ≤ length self.old.core.station.out }
    {
        match item {
            Item::Good(_at, header) => self.core.on(&Input::Good(header, self.reader.data())),
            Item::HeaderCheck(_at) => self.core.on(&Input::HeaderCheck),
            Item::DataCheck(_at, header) => self.core.on(&Input::DataCheck(header)),
            Item::TooLong(_at, header) => self.core.on(&Input::TooLong(header)),
            Item::Format(_at, _fault) => self.core.on(&Input::Format),
        }
    }
}
