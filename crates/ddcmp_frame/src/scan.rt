//! A scan of a line for frames, step by step. Callers see it as `Reader`.
ghost use Rattle.std.specs.Prelude.{◌≡◌, ◌+◌, ◌<◌, ◌≤◌, ◌^◌, ◌++◌, ℕ, true, false, length};
ghost use Rattle.std.specs.Prelude.{slice_index, take, List, Some, None, IsSome, IfSome, vec_len};
ghost use Rattle.std.specs.Prelude.{vec_capacity};
ghost use Rattle.ddcmp_frame.specs.Fields.{CountedFields};
ghost use Rattle.ddcmp_frame.specs.Spelling.{IsBytes, is_start as is_start_byte};
ghost use Rattle.ddcmp_frame.specs.Reading.{is_data_right};
ghost use Rattle.ddcmp_frame.specs.Reader.{open_of, kept_of, BeginsWith};
ghost use Rattle.ddcmp_frame.specs.Inside.Scan.{IsSoundScan, IsReady, IsCandidate, Takes, TakesAll};
ghost use Rattle.ddcmp_frame.specs.Inside.Scan.{view_of, IsDataFrame, TakesFrame};

use crate::codes::{CONTROL_START, DATA_START, MAINT_START};
use crate::header::{Counted, Header, HeaderFault, is_start};
use crate::held::{count_of, data_right, loss, resume};
use crate::item::{Item, Pushed};
use memchr::memchr3;

/// The phase of a scan: what the next byte belongs to.
#[derive(Clone, Copy)]
pub(crate) enum Phase {
    /// A header, if it is a start byte. The frame in the buffer was read whole.
    Seeking,
    /// The header that begins in the buffer.
    Header,
    /// The data, or their CRC, of the frame that begins in the buffer with this header.
    Frame { header: Header, count: usize },
    /// A frame that is too long: how many of its bytes were received, and how many are still to
    /// come.
    TooLong { skipped: usize, left: usize },
}

/// The meaning of eight bytes from a start byte on.
#[derive(Clone, Copy)]
enum Candidate {
    /// Their CRC is wrong.
    Fails,
    /// A whole frame, or a header of no known form.
    Gives(Item),
    /// The header of a frame with this COUNT.
    Begins(Header, usize),
    /// The header of a frame with this COUNT, which is more than the reader accepts.
    Announces(Header, usize),
}

/// The bytes of the last frame so far, and the state of the scan.
#[derive(Drop)]
pub(crate) struct Scan {
    pub(crate) max: u16,
    pub(crate) offset: u64,
    pub(crate) lost: bool,
    pub(crate) buffer: Vec<u8>,
    pub(crate) phase: Phase,
    // How many bytes of data after the header are lent.
    pub(crate) lent: usize,
}

impl Scan {
    /// Handles bytes of a chunk, up to the first that completes an item.
    #[inline(always)]
    pub(crate) fn take_all(&mut self, piece: &[u8]) -> Pushed
        requires sound { IsSoundScan self.old }
        requires fits { self.old.offset + length piece.now < 2 ^ 64 }
        requires lent { self.old.lent ≡ 0 }
        ensures sound { IsSoundScan self.new }
        ensures takes { TakesAll (view_of self.old) piece.now result.used result.item
            (view_of self.new) }
    {
        let mut used = 0;
        while used < piece.len() {
            let taken = self.take(&piece[used..]);
            used += taken.used;
            match taken.item {
                None => {}
                Some(_) => {
                    return Pushed {
                        used,
                        item: taken.item,
                    };
                }
            }
        }
        Pushed { used, item: None }
    }

    /// Handles the data frame at the front of a chunk, if none is unfinished and this one is whole
    /// and right; returns its fields.
    #[inline(always)]
    pub(crate) fn take_frame(&mut self, piece: &[u8]) -> Option<Counted>
        requires sound { IsSoundScan self.old }
        requires fits { self.old.offset + length piece.now < 2 ^ 64 }
        ensures sound { IsSoundScan self.new }
        ensures none { result ≡ None → self.new ≡ self.old }
        ensures unlent { IsSome result → self.new.lent ≡ 0 }
        ensures takes { IfSome result (λ h. TakesFrame self.old piece.now h self.new) }
        ensures found { (h : CountedFields) (message rest : List ℕ) → self.old.phase ≡ Phase.Seeking
            → BeginsWith self.old.max piece.now h message rest → result ≡ Some h }
    {
        // For any other frame this test is the only cost.
        if piece.is_empty() || piece[0] != DATA_START {
            return None;
        }
        match self.phase {
            Phase::Seeking => {}
            Phase::Header | Phase::Frame { .. } | Phase::TooLong { .. } => return None,
        }
        match data_frame(piece, self.max) {
            Some(fields) => {
                self.offset += fields.count as u64 + 10;
                self.lost = false;
                self.lent = 0;
                Some(fields)
            }
            None => None,
        }
    }

    /// Handles at least one byte of a piece, and at most those that belong to the same phase.
    #[inline(always)]
    pub(crate) fn take(&mut self, piece: &[u8]) -> Pushed
        requires ready { IsReady self.old piece.now }
        ensures sound { IsSoundScan self.new }
        ensures lent { result.item ≡ None → self.new.lent ≡ 0 }
        ensures takes { Takes self.old piece.now result self.new }
    {
        match self.phase {
            Phase::Seeking => match piece.first_chunk::<8>() {
                Some(front) if is_start(front[0]) => self.take_whole_header(piece, front),
                _ => self.seek(piece),
            },
            Phase::Header => self.take_header(piece),
            Phase::Frame { header, count } => self.take_data(piece, header, count),
            Phase::TooLong { skipped, left } => self.pass(piece, skipped, left),
        }
    }

    /// Skips bytes up to the next start byte, or buffers the one at the front as the first of a
    /// header that is incomplete here, or is none.
    fn seek(&mut self, piece: &[u8]) -> Pushed
        requires ready { IsReady self.old piece.now }
        requires phase { self.old.phase ≡ Phase.Seeking }
        ensures sound { IsSoundScan self.new }
        ensures lent { self.new.lent ≡ 0 }
        ensures takes { Takes self.old piece.now result self.new }
    {
        let other = before_start(piece);
        if other > 0 {
            self.offset += other as u64;
            return Pushed {
                used: other,
                item: None,
            };
        }
        self.buffer.clear();
        keep(&mut self.buffer, &piece[..1]);
        self.offset += 1;
        self.phase = Phase::Header;
        Pushed {
            used: 1,
            item: None,
        }
    }

    /// Handles a header that is whole at the front of a chunk. One that is a frame isn't copied.
    #[inline(always)]
    fn take_whole_header(&mut self, piece: &[u8], front: &[u8; 8]) -> Pushed
        requires ready { IsReady self.old piece.now }
        requires phase { self.old.phase ≡ Phase.Seeking }
        requires front { front.now ≡ take 8 piece.now }
        requires start { is_start_byte (slice_index front.now 0) ≡ true }
        ensures sound { IsSoundScan self.new }
        ensures lent { self.new.lent ≡ 0 }
        ensures takes { Takes self.old piece.now result self.new }
    {
        let at = self.offset;
        match candidate_at(front, self.max, at) {
            Candidate::Fails => self.seek(piece),
            Candidate::Gives(item) => {
                self.offset += 8;
                self.lost = false;
                Pushed {
                    used: 8,
                    item: Some(item),
                }
            }
            Candidate::Begins(header, count) => {
                self.buffer.clear();
                keep(&mut self.buffer, front);
                self.offset += 8;
                self.phase = Phase::Frame { header, count };
                Pushed {
                    used: 8,
                    item: None,
                }
            }
            Candidate::Announces(header, count) => {
                self.offset += 8;
                let left = count + 2;
                self.phase = Phase::TooLong { skipped: 8, left };
                Pushed {
                    used: 8,
                    item: Some(Item::TooLong(at, header)),
                }
            }
        }
    }

    /// Handles bytes of a header. The eighth decides what follows.
    #[inline(always)]
    fn take_header(&mut self, piece: &[u8]) -> Pushed
        requires ready { IsReady self.old piece.now }
        requires phase { self.old.phase ≡ Phase.Header }
        ensures sound { IsSoundScan self.new }
        ensures lent { self.new.lent ≡ 0 }
        ensures takes { Takes self.old piece.now result self.new }
    {
        let used = piece.len().min(8 - self.buffer.len());
        keep(&mut self.buffer, &piece[..used]);
        self.offset += used as u64;
        let Some(front) = self.buffer.first_chunk::<8>() else {
            return Pushed { used, item: None };
        };
        let at = self.offset - 8;
        match candidate_at(front, self.max, at) {
            Candidate::Fails => {
                let item = loss(self.lost, at);
                self.lost = true;
                resume(&mut self.buffer);
                self.phase = phase_of(&self.buffer);
                Pushed { used, item }
            }
            Candidate::Gives(item) => {
                self.lost = false;
                self.phase = Phase::Seeking;
                Pushed {
                    used,
                    item: Some(item),
                }
            }
            Candidate::Begins(header, count) => {
                self.phase = Phase::Frame { header, count };
                Pushed { used, item: None }
            }
            Candidate::Announces(header, count) => {
                self.phase = Phase::TooLong {
                    skipped: 8,
                    left: count + 2,
                };
                Pushed {
                    used,
                    item: Some(Item::TooLong(at, header)),
                }
            }
        }
    }

    /// Handles bytes of the data and their CRC. The last one completes the item of the frame.
    #[inline(always)]
    fn take_data(&mut self, piece: &[u8], header: Header, count: usize) -> Pushed
        requires ready { IsReady self.old piece.now }
        requires phase { self.old.phase ≡ Phase.Frame header count }
        ensures sound { IsSoundScan self.new }
        ensures lent { result.item ≡ None → self.new.lent ≡ 0 }
        ensures takes { Takes self.old piece.now result self.new }
    {
        let used = piece.len().min(count + 10 - self.buffer.len());
        keep(&mut self.buffer, &piece[..used]);
        self.offset += used as u64;
        if self.buffer.len() < count + 10 {
            return Pushed { used, item: None };
        }
        self.lost = false;
        self.phase = Phase::Seeking;
        let at = self.offset - self.buffer.len() as u64;
        if !data_right(&self.buffer, count) {
            return Pushed {
                used,
                item: Some(Item::DataCheck(at, header)),
            };
        }
        self.lent = count;
        Pushed {
            used,
            item: Some(Item::Good(at, header)),
        }
    }

    /// Skips bytes of a frame that is too long.
    fn pass(&mut self, piece: &[u8], skipped: usize, left: usize) -> Pushed
        requires ready { IsReady self.old piece.now }
        requires phase { self.old.phase ≡ Phase.TooLong skipped left }
        ensures sound { IsSoundScan self.new }
        ensures lent { self.new.lent ≡ 0 }
        ensures takes { Takes self.old piece.now result self.new }
    {
        let used = piece.len().min(left);
        self.offset += used as u64;
        if used < left {
            self.phase = Phase::TooLong {
                skipped: skipped + used,
                left: left - used,
            };
            return Pushed { used, item: None };
        }
        self.lost = false;
        self.phase = Phase::Seeking;
        Pushed { used, item: None }
    }

    /// Returns the number of buffered bytes of the unfinished frame.
    pub(crate) fn kept(&self) -> usize
        requires sound { IsSoundScan self.now }
        ensures value { result ≡ kept_of (view_of self.now) }
        ensures within { result ≤ self.now.max + 10 }
    {
        match self.phase {
            Phase::Header | Phase::Frame { .. } => self.buffer.len(),
            Phase::Seeking | Phase::TooLong { .. } => 0,
        }
    }

    /// Returns the number of bytes of the unfinished frame.
    pub(crate) fn open(&self) -> usize
        requires sound { IsSoundScan self.now }
        ensures value { result ≡ open_of (view_of self.now) }
    {
        match self.phase {
            Phase::TooLong { skipped, .. } => skipped,
            Phase::Seeking | Phase::Header | Phase::Frame { .. } => self.kept(),
        }
    }
}

/// Returns the number of bytes before the first start byte. Inlined, it would have each item
/// prepare for the search, which few need.
#[inline(never)]
fn before_start(piece: &[u8]) -> usize
    ensures within { result ≤ length piece.now }
    ensures other { (i : ℕ) → i < result → is_start_byte (slice_index piece.now i) ≡ false }
    ensures start { result < length piece.now
        → is_start_byte (slice_index piece.now result) ≡ true }
{
    memchr3(CONTROL_START, DATA_START, MAINT_START, piece).unwrap_or(piece.len())
}

/// Returns the phase of a scan that holds these bytes, which begin with a start byte.
fn phase_of(held: &[u8]) -> Phase
    ensures none { length held.now ≡ 0 → result ≡ Phase.Seeking }
    ensures some { 0 < length held.now → result ≡ Phase.Header }
{
    if held.is_empty() {
        Phase::Seeking
    } else {
        Phase::Header
    }
}

/// Appends bytes for which there is room. Inlined, it would have each item prepare for a copy,
/// which few need.
#[inline(never)]
fn keep(buffer: &mut Vec<u8>, bytes: &[u8])
    requires room { vec_len buffer.old + length bytes.now ≤ vec_capacity buffer.old }
    ensures items { buffer.new.items ≡ buffer.old.items ++ bytes.now }
    ensures room { vec_capacity buffer.old ≤ vec_capacity buffer.new }
{
    match buffer.extend_from_slice(bytes) {
        Ok(()) => {}
        Err(_) => unreachable!(),
    }
}

/// Returns the fields of the data frame at the front of a chunk, if it is whole and right and has
/// at most `max` bytes of data.
#[inline(always)]
fn data_frame(piece: &[u8], max: u16) -> Option<Counted>
    ensures is { IfSome result (λ h. IsDataFrame max h (take (h.count + 10) piece.now)) }
    ensures found { (h : CountedFields) (message rest : List ℕ)
        → BeginsWith max piece.now h message rest → result ≡ Some h }
{
    let Some(front) = piece.first_chunk::<8>() else {
        return None;
    };
    if front[0] != DATA_START {
        return None;
    }
    let Ok(header) = Header::parse(front) else {
        return None;
    };
    match &header {
        Header::Data(fields) if is_whole(piece, fields.count, max) => Some(*fields),
        _ => None,
    }
}

/// Returns whether the frame at the front of a chunk, whose header has this COUNT, is whole, with
/// at most `max` bytes of data and a right CRC of these.
#[inline(always)]
fn is_whole(piece: &[u8], count: u16, max: u16) -> bool
    ensures bytes { result ≡ true → IsBytes (take (count + 10) piece.now) }
    ensures fits { result ≡ true → (count ≤ max) × (count + 10 ≤ length piece.now) }
    ensures right { result ≡ true → is_data_right count (take (count + 10) piece.now) ≡ true }
    ensures found { count ≤ max → count + 10 ≤ length piece.now
        → is_data_right count (take (count + 10) piece.now) ≡ true → result ≡ true }
{
    let end = count as usize + 10;
    count <= max && end <= piece.len() && data_right(&piece[..end], count as usize)
}

/// Returns the meaning of eight bytes that begin with a start byte, at the offset `at`.
#[inline(always)]
fn candidate_at(front: &[u8; 8], max: u16, at: u64) -> Candidate
    requires start { is_start_byte (slice_index front.now 0) ≡ true }
    ensures { IsCandidate max at front.now result }
{
    match Header::parse(front) {
        Ok(header) => match count_of(&header) {
            None => Candidate::Gives(Item::Good(at, header)),
            Some(count) if count > max as usize => Candidate::Announces(header, count),
            Some(count) => Candidate::Begins(header, count),
        },
        Err(HeaderFault::Check) => Candidate::Fails,
        Err(HeaderFault::BadType(code)) => {
            Candidate::Gives(Item::Format(at, HeaderFault::BadType(code)))
        }
        Err(HeaderFault::CountZero) => Candidate::Gives(Item::Format(at, HeaderFault::CountZero)),
        Err(HeaderFault::NotAStart) => unreachable!(),
    }
}
