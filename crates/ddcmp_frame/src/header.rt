//! Headers and their encoding.
ghost use Rattle.std.specs.Prelude.{◌≡◌, ◌≢◌, ◌/◌, ◌%◌, ℕ, ◌<◌, ◌≤◌, ◌↔◌, IfOk, IfSome, IsSome};
ghost use Rattle.std.specs.Prelude.{List, take, length, slice_index, true, false};
ghost use Rattle.ddcmp_frame.specs.Spelling.{Spells, SpellsCounted, HasCheck, IsNoType, IsBytes};
ghost use Rattle.ddcmp_frame.specs.Spelling.{parsed, count_field, is_start as is_start_byte};
ghost use Rattle.ddcmp_frame.specs.Spelling.{kind_of as kind_of_code};
ghost use Rattle.ddcmp_frame.specs.Spelling.{is_check_right as check_holds_in, flags_of, short_of};
ghost use Rattle.ddcmp_frame.specs.Spelling.{counted_or_none, type_code as type_code_of};
ghost use Rattle.ddcmp_frame.specs.Reader.{frame_length as length_of_frame};
ghost use Rattle.ddcmp_frame.specs.Wire.{six_bytes, counted_bytes, eight_bytes};
ghost use Rattle.ddcmp_frame.specs.Wire.{flag_bits as flag_bits_of};
ghost use Rattle.ddcmp_frame.specs.declared.header.Header.{Header as HeaderValue};

use crate::codes::{
    ACK_TYPE, CONTROL_START, DATA_START, MAINT_START, NAK_TYPE, REP_TYPE, STACK_TYPE, STRT_TYPE,
};
use ddcmp_num::{MAX_COUNT, check_bytes, check_six};
use std::marker::Model;

/// The two flags of a header, Q (quick sync) and S (select).
#[derive(Clone, Copy, Debug, PartialEq, Eq)]
pub struct Flags {
    pub q: bool,
    pub s: bool,
}

/// The TYPE of a control message.
#[derive(Clone, Copy, Debug, PartialEq, Eq)]
pub enum ControlType {
    Ack,
    Nak,
    Rep,
    Strt,
    Stack,
}

/// The fields of a control header. `sub` is below 64.
#[derive(Clone, Copy, Debug, PartialEq, Eq)]
pub struct Short {
    pub kind: ControlType,
    pub sub: u8,
    pub flags: Flags,
    pub resp: u8,
    pub num: u8,
    pub addr: u8,
}

impl Model for Short {
    ghost use Rattle.std.specs.Prelude.{◌<◌};
    ghost use Rattle.ddcmp_frame.specs.Fields.{ShortFields, short_fields, short_struct};

    ghost Value = { ShortFields };

    ghost view = { short_fields };

    ghost invariant = { λ h. h.sub < 64 };

    ghost inverse = { short_struct };
}

impl Short {
    /// Makes one of these fields, in this order; None if `sub` is above 63.
    pub fn new(
        kind: ControlType,
        sub: u8,
        flags: Flags,
        resp: u8,
        num: u8,
        addr: u8,
    ) -> Option<Self>
        ensures valid { IsSome result ↔ (sub < 64) }
        ensures value { IfSome result (λ h. h
            ≡ record {
              kind = kind;
              sub = sub;
              flags = flags;
              resp = resp;
              num = num;
              addr = addr;
            }) }
    {
        if sub < 64 {
            Some(Short {
                kind,
                sub,
                flags,
                resp,
                num,
                addr,
            })
        } else {
            None
        }
    }
}

/// The fields of a data or maintenance header. `count` is 1 to 16383. A maintenance header doesn't
/// use `resp` and `num`.
#[derive(Clone, Copy, Debug, PartialEq, Eq)]
pub struct Counted {
    pub count: u16,
    pub flags: Flags,
    pub resp: u8,
    pub num: u8,
    pub addr: u8,
}

impl Model for Counted {
    ghost use Rattle.std.specs.Prelude.{◌<◌, ◌≤◌};
    ghost use Rattle.ddcmp_num.specs.declared.limits.TheConstants.{MAX_COUNT};
    ghost use Rattle.ddcmp_frame.specs.Fields.{CountedFields, counted_fields, counted_struct};

    ghost Value = { CountedFields };

    ghost view = { counted_fields };

    ghost invariant = { λ h. (0 < h.count) × (h.count ≤ MAX_COUNT) };

    ghost inverse = { counted_struct };
}

impl Counted {
    /// Makes one of these fields, in this order; None if `count` is 0 or above `MAX_COUNT`.
    pub fn new(count: u16, flags: Flags, resp: u8, num: u8, addr: u8) -> Option<Self>
        ensures valid { IsSome result ↔ ((0 < count) × (count ≤ MAX_COUNT)) }
        ensures value { IfSome result (λ h. h
            ≡ record { count = count; flags = flags; resp = resp; num = num; addr = addr }) }
    {
        if 0 < count && count <= MAX_COUNT {
            Some(Counted {
                count,
                flags,
                resp,
                num,
                addr,
            })
        } else {
            None
        }
    }
}

/// A header, by its start byte.
#[derive(Clone, Copy, Debug, PartialEq, Eq)]
pub enum Header {
    /// 0x81, a numbered data message.
    Data(Counted),
    /// 0x90, a maintenance message.
    Maint(Counted),
    /// 0x05, a control message.
    Control(Short),
}

/// The reason why eight bytes are no header.
#[derive(Clone, Copy, Debug, PartialEq, Eq)]
pub enum HeaderFault {
    /// The first byte is none of the three start bytes.
    NotAStart,
    /// The last two bytes aren't the CRC of the first six.
    Check,
    /// A control header with this TYPE, which no control message has.
    BadType(u8),
    /// A data or maintenance header with COUNT 0.
    CountZero,
}

#[inline(always)]
pub(crate) fn is_start(byte: u8) -> bool
    ensures { result ≡ is_start_byte byte }
{
    byte == CONTROL_START || byte == DATA_START || byte == MAINT_START
}

#[inline(always)]
fn kind_of(code: u8) -> Option<ControlType>
    ensures { result ≡ kind_of_code code }
{
    match code {
        ACK_TYPE => Some(ControlType::Ack),
        NAK_TYPE => Some(ControlType::Nak),
        REP_TYPE => Some(ControlType::Rep),
        STRT_TYPE => Some(ControlType::Strt),
        STACK_TYPE => Some(ControlType::Stack),
        _ => None,
    }
}

/// Returns whether the last two of eight bytes are the CRC of the first six.
#[tactic(auto, unfolding(crate::specs::Spelling::is_check_right))]
#[inline(always)]
fn check_holds(bytes: &[u8; 8]) -> bool
    ensures { result ≡ check_holds_in bytes.now }
{
    let Some(six) = bytes.first_chunk::<6>() else {
        unreachable!()
    };
    let right = check_bytes(check_six(six));
    bytes[6] == right[0] && bytes[7] == right[1]
}

#[inline(always)]
fn flags_in(bytes: &[u8; 8]) -> Flags
    ensures { result ≡ flags_of bytes.now }
{
    Flags {
        q: bytes[2] / 64 % 2 == 1,
        s: bytes[2] / 128 % 2 == 1,
    }
}

#[inline(always)]
fn short_in(kind: ControlType, bytes: &[u8; 8]) -> Short
    ensures { result ≡ short_of kind bytes.now }
{
    Short {
        kind,
        sub: bytes[2] % 64,
        flags: flags_in(bytes),
        resp: bytes[3],
        num: bytes[4],
        addr: bytes[5],
    }
}

#[inline(always)]
fn counted_in(bytes: &[u8; 8]) -> Option<Counted>
    ensures { result ≡ counted_or_none bytes.now }
{
    let count = bytes[1] as u16 + 256 * (bytes[2] % 64) as u16;
    if count == 0 {
        return None;
    }
    Some(Counted {
        count,
        flags: flags_in(bytes),
        resp: bytes[3],
        num: bytes[4],
        addr: bytes[5],
    })
}

impl Header {
    /// Returns the header that eight bytes encode, or the first fault.
    #[inline(always)]
    pub fn parse(bytes: &[u8; 8]) -> Result<Header, HeaderFault>
        // A header and its CRC are read as this header, and nothing else is read as one.
        ensures found { IfOk result (λ h. Spells h (take 6 bytes.now) × HasCheck bytes.now) }
        ensures only { (h : HeaderValue) → Spells h (take 6 bytes.now) → HasCheck bytes.now
            → result ≡ Ok h }
        // Which fault is returned.
        ensures not_a_start { (result ≡ Err HeaderFault.NotAStart)
            ↔ (is_start_byte (slice_index bytes.now 0) ≡ false) }
        ensures check { (result ≡ Err HeaderFault.Check)
            ↔ ((is_start_byte (slice_index bytes.now 0) ≡ true) × (¬ HasCheck bytes.now)) }
        ensures bad_type { (c : ℕ) → (result ≡ Err (HeaderFault.BadType c))
            ↔ ((slice_index bytes.now 0 ≡ CONTROL_START) × HasCheck bytes.now
            × (slice_index bytes.now 1 ≡ c) × IsNoType c) }
        ensures count_zero { (result ≡ Err HeaderFault.CountZero)
            ↔ ((is_start_byte (slice_index bytes.now 0) ≡ true)
            × (slice_index bytes.now 0 ≢ CONTROL_START) × HasCheck bytes.now
            × (count_field bytes.now ≡ 0)) }
        ensures exact { result ≡ parsed bytes.now }
    {
        Header::parse_exactly(bytes)
    }

    #[tactic(auto, unfolding(crate::specs::Spelling::parsed))]
    #[inline(always)]
    fn parse_exactly(bytes: &[u8; 8]) -> Result<Header, HeaderFault>
        ensures { result ≡ parsed bytes.now }
    {
        if !is_start(bytes[0]) {
            return Err(HeaderFault::NotAStart);
        }
        if !check_holds(bytes) {
            return Err(HeaderFault::Check);
        }
        if bytes[0] == CONTROL_START {
            return match kind_of(bytes[1]) {
                Some(kind) => Ok(Header::Control(short_in(kind, bytes))),
                None => Err(HeaderFault::BadType(bytes[1])),
            };
        }
        match counted_in(bytes) {
            None => Err(HeaderFault::CountZero),
            Some(fields) if bytes[0] == DATA_START => Ok(Header::Data(fields)),
            Some(fields) => Ok(Header::Maint(fields)),
        }
    }

    /// Returns the eight bytes of the header.
    pub fn write(&self) -> [u8; 8]
        ensures spelled { Spells self.now (take 6 result) }
        ensures check { HasCheck result }
        ensures read { parsed result ≡ Ok self.now }
        ensures only { (bytes : List ℕ) → length bytes ≡ 8 → IsBytes bytes → parsed bytes
            ≡ Ok self.now → result ≡ bytes }
        ensures exact { result ≡ eight_bytes self.now }
    {
        self.write_exactly()
    }

    /// Returns the number of bytes of a frame with this header, with its data and their CRC.
    pub fn frame_length(&self) -> usize
        ensures { result ≡ length_of_frame self.now }
    {
        match self {
            Header::Data(h) => h.count as usize + 10,
            Header::Maint(h) => h.count as usize + 10,
            Header::Control(_h) => 8,
        }
    }

    fn write_exactly(&self) -> [u8; 8]
        ensures spelled { Spells self.now (take 6 result) }
        ensures check { HasCheck result }
        ensures exact { result ≡ eight_bytes self.now }
    {
        let six = self.write_six();
        let [low, high] = check_bytes(check_six(&six));
        [six[0], six[1], six[2], six[3], six[4], six[5], low, high]
    }

    #[tactic(auto, unfolding(crate::specs::Wire::six_bytes))]
    fn write_six(&self) -> [u8; 6]
        ensures spelled { Spells self.now result }
        ensures exact { result ≡ six_bytes self.now }
    {
        match self {
            Header::Data(h) => h.write_from(DATA_START),
            Header::Maint(h) => h.write_from(MAINT_START),
            Header::Control(h) => [
                CONTROL_START,
                type_code(h.kind),
                h.sub + flag_bits(h.flags),
                h.resp,
                h.num,
                h.addr,
            ],
        }
    }
}

impl Counted {
    /// Returns the six bytes of a header that begins with `first`.
    fn write_from(&self, first: u8) -> [u8; 6]
        ensures spelled { SpellsCounted first self.now result }
        ensures exact { result ≡ counted_bytes first self.now }
    {
        [
            first,
            (self.count % 256) as u8,
            (self.count / 256) as u8 + flag_bits(self.flags),
            self.resp,
            self.num,
            self.addr,
        ]
    }
}

/// Returns the flags as bits 6 and 7 of the third byte.
fn flag_bits(flags: Flags) -> u8
    ensures value { result ≡ flag_bits_of flags }
    ensures high { result % 64 ≡ 0 }
    ensures small { result ≤ 192 }
{
    let q = if flags.q { 64 } else { 0 };
    let s = if flags.s { 128 } else { 0 };
    q + s
}

fn type_code(kind: ControlType) -> u8
    ensures { result ≡ type_code_of kind }
{
    match kind {
        ControlType::Ack => ACK_TYPE,
        ControlType::Nak => NAK_TYPE,
        ControlType::Rep => REP_TYPE,
        ControlType::Strt => STRT_TYPE,
        ControlType::Stack => STACK_TYPE,
    }
}
