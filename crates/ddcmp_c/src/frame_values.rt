//! Headers and items, for C.
ghost use Rattle.std.specs.Prelude.{◌≡◌, Some, None, option_map};
ghost use Rattle.ddcmp_frame.specs.declared.header.Header.TheVariants.{Data, Maint};
ghost use Rattle.ddcmp_c.specs.Frames.{given_kind, given_counted, given_header, given_with};
ghost use Rattle.ddcmp_c.specs.Frames.{given_without, given_item, taken_flags, taken_counted};
ghost use Rattle.ddcmp_c.specs.Frames.{taken_short, taken_header, taken_item};

use ddcmp_frame::{ControlType, Counted, Flags, Header, HeaderFault, Item, MAX_COUNT, Short};

/// A header, for C: its kind, 0 if there is none, and its fields. A control header has no count,
/// others have no sub.
#[repr(C)]
#[derive(Clone, Copy)]
pub struct CHeader {
    pub count: u16,
    pub kind: u8,
    pub sub: u8,
    /// Not 0: the flag is set.
    pub q: u8,
    pub s: u8,
    pub resp: u8,
    pub num: u8,
    pub addr: u8,
}

/// An item, for C: its kind, 0 if there is none, and the offset of its start byte.
#[repr(C)]
#[derive(Clone, Copy)]
pub struct CItem {
    pub offset: u64,
    pub header: CHeader,
    pub kind: u8,
    /// The fault of a header whose CRC (block check) is right.
    pub fault: u8,
    /// The TYPE, if no control message has it.
    pub bad_type: u8,
}

const NO_HEADER: CHeader = CHeader {
    count: 0,
    kind: 0,
    sub: 0,
    q: 0,
    s: 0,
    resp: 0,
    num: 0,
    addr: 0,
};

/// Returns the number of a TYPE of control messages.
fn kind_code(kind: ControlType) -> u8
    ensures { result ≡ given_kind kind }
{
    match kind {
        ControlType::Ack => 3,
        ControlType::Nak => 4,
        ControlType::Rep => 5,
        ControlType::Strt => 6,
        ControlType::Stack => 7,
    }
}

/// Converts a header with COUNT for C.
fn counted_for_c(kind: u8, fields: Counted) -> CHeader
    ensures { result ≡ given_counted kind fields }
{
    CHeader {
        count: fields.count,
        kind,
        sub: 0,
        q: fields.flags.q as u8,
        s: fields.flags.s as u8,
        resp: fields.resp,
        num: fields.num,
        addr: fields.addr,
    }
}

/// Converts a header for C.
fn header_for_c(header: Header) -> CHeader
    ensures given { result ≡ given_header header }
    ensures taken { taken_header result ≡ Some header }
{
    match header {
        Header::Data(fields) => counted_for_c(1, fields),
        Header::Maint(fields) => counted_for_c(2, fields),
        Header::Control(fields) => CHeader {
            count: 0,
            kind: kind_code(fields.kind),
            sub: fields.sub,
            q: fields.flags.q as u8,
            s: fields.flags.s as u8,
            resp: fields.resp,
            num: fields.num,
            addr: fields.addr,
        },
    }
}

/// Returns an item with a header, for C.
fn item_with(kind: u8, offset: u64, header: Header) -> CItem
    ensures given { result ≡ given_with kind offset header }
    ensures taken { taken_header result.header ≡ Some header }
{
    CItem {
        offset,
        header: header_for_c(header),
        kind,
        fault: 0,
        bad_type: 0,
    }
}

/// Returns an item without a header, for C.
fn item_without(kind: u8, offset: u64, fault: u8, bad_type: u8) -> CItem
    ensures { result ≡ given_without kind offset fault bad_type }
{
    CItem {
        offset,
        header: NO_HEADER,
        kind,
        fault,
        bad_type,
    }
}

/// Converts an item for C.
pub(crate) fn item_for_c(item: Option<Item>) -> CItem
    ensures given { result ≡ given_item item }
    ensures taken { taken_item result ≡ item }
    ensures none { result.kind ≡ 0 → item ≡ None }
{
    match item {
        None => item_without(0, 0, 0, 0),
        Some(Item::Good(offset, header)) => item_with(1, offset, header),
        Some(Item::HeaderCheck(offset)) => item_without(2, offset, 0, 0),
        Some(Item::DataCheck(offset, header)) => item_with(3, offset, header),
        Some(Item::TooLong(offset, header)) => item_with(4, offset, header),
        Some(Item::Format(offset, HeaderFault::BadType(code))) => item_without(5, offset, 1, code),
        Some(Item::Format(offset, HeaderFault::CountZero)) => item_without(5, offset, 2, 0),
        Some(Item::Format(offset, HeaderFault::NotAStart)) => item_without(5, offset, 3, 0),
        Some(Item::Format(offset, HeaderFault::Check)) => item_without(5, offset, 4, 0),
    }
}

/// Returns the flags that C passed.
fn flags_of_c(header: &CHeader) -> Flags
    ensures { result ≡ taken_flags header.now }
{
    Flags {
        q: header.q != 0,
        s: header.s != 0,
    }
}

/// Returns the fields of a header with COUNT that C passed, if the count is in range.
fn counted_of_c(header: &CHeader) -> Option<Counted>
    ensures data { option_map Data result ≡ taken_counted Data header.now }
    ensures maintenance { option_map Maint result ≡ taken_counted Maint header.now }
{
    if 0 < header.count && header.count <= MAX_COUNT {
        Some(Counted {
            count: header.count,
            flags: flags_of_c(header),
            resp: header.resp,
            num: header.num,
            addr: header.addr,
        })
    } else {
        None
    }
}

/// Returns the control header that C passed, if its sub is in range.
fn short_of_c(kind: ControlType, header: &CHeader) -> Option<Header>
    ensures { result ≡ taken_short kind header.now }
{
    if header.sub < 64 {
        Some(Header::Control(Short {
            kind,
            sub: header.sub,
            flags: flags_of_c(header),
            resp: header.resp,
            num: header.num,
            addr: header.addr,
        }))
    } else {
        None
    }
}

/// Returns the header that C passed, if it is one.
pub(crate) fn header_of_c(header: &CHeader) -> Option<Header>
    ensures { result ≡ taken_header header.now }
{
    match header.kind {
        1 => match counted_of_c(header) {
            Some(fields) => Some(Header::Data(fields)),
            None => None,
        },
        2 => match counted_of_c(header) {
            Some(fields) => Some(Header::Maint(fields)),
            None => None,
        },
        3 => short_of_c(ControlType::Ack, header),
        4 => short_of_c(ControlType::Nak, header),
        5 => short_of_c(ControlType::Rep, header),
        6 => short_of_c(ControlType::Strt, header),
        7 => short_of_c(ControlType::Stack, header),
        _ => None,
    }
}
