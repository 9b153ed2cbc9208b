//! The lines as JSON.
ghost use Rattle.std.specs.Prelude.{◌≡◌, ◌+◌, ◌≤◌, ◌++◌, codes, decimal, length};
ghost use Rattle.std.specs.Prelude.{if◌then◌else◌};
ghost use Rattle.ddcmp_explain.specs.Inside.Putting.{Puts};
ghost use Rattle.ddcmp_explain.specs.Text.{flag_text, kind_text, lends as lends_data};
ghost use Rattle.ddcmp_explain.specs.Json.{json_counted, json_fault, json_fields, json_header};
ghost use Rattle.ddcmp_explain.specs.Json.{json_front, json_item, json_reason, json_start};
ghost use Rattle.ddcmp_explain.specs.Json.{json_totals, member, quoted, reason_in_words};

use crate::notation::Totals;
use crate::put::{LINE, put, put_byte, put_number, put_slice};
use crate::reasons::reason_name;
use crate::text::lends;
use ddcmp_frame::{ControlType, Counted, Flags, Header, HeaderFault, Item, Nak, Short};

/// Puts a member whose value is a number of one byte; `name` is its text before the number.
fn put_member(line: &mut [u8; LINE], at: usize, name: &[u8], number: u8) -> usize
    requires { at + length name.now + 3 ≤ LINE }
    ensures puts { Puts line.old at line.new result (name.now ++ decimal number) }
    ensures within { result ≤ at + length name.now + 3 }
{
    let at_number = put_slice(line, at, name);
    put_byte(line, at_number, number)
}

fn flag_members(flags: Flags) -> &'static [u8; 12]
    ensures { result.now
        ≡ member (codes "q") (flag_text flags.q) ++ member (codes "s") (flag_text flags.s) }
{
    match (flags.q, flags.s) {
        (false, false) => b",\"q\":0,\"s\":0",
        (false, true) => b",\"q\":0,\"s\":1",
        (true, false) => b",\"q\":1,\"s\":0",
        (true, true) => b",\"q\":1,\"s\":1",
    }
}

/// Puts the fields that all headers have; returns where they end.
fn put_fields(line: &mut [u8; LINE], at: usize, flags: Flags, resp: u8, num: u8, addr: u8) -> usize
    requires { at + 44 ≤ LINE }
    ensures puts { Puts line.old at line.new result (json_fields flags resp num addr) }
    ensures within { result ≤ at + 44 }
{
    let after_flags = put(line, at, flag_members(flags));
    let after_resp = put_member(line, after_flags, b",\"resp\":", resp);
    let after_num = put_member(line, after_resp, b",\"num\":", num);
    put_member(line, after_num, b",\"addr\":", addr)
}

fn kind_value(kind: ControlType) -> &'static [u8]
    ensures value { result.now ≡ quoted (kind_text kind) }
    ensures within { length result.now ≤ 7 }
{
    match kind {
        ControlType::Ack => b"\"ACK\"",
        ControlType::Nak => b"\"NAK\"",
        ControlType::Rep => b"\"REP\"",
        ControlType::Strt => b"\"STRT\"",
        ControlType::Stack => b"\"STACK\"",
    }
}

/// Puts the member for the reason of a NAK.
fn put_reason_member(line: &mut [u8; LINE], at: usize, reason: Nak) -> usize
    requires { at + 42 ≤ LINE }
    ensures puts { Puts line.old at line.new result
        (member (codes "reason") (quoted (reason_in_words reason))) }
    ensures within { result ≤ at + 42 }
{
    let at_name = put(line, at, b",\"reason\":\"");
    let after_name = put_slice(line, at_name, reason_name(reason));
    put(line, after_name, b"\"")
}

/// Puts the reason of a NAK, from its SUBTYPE.
fn put_reason(line: &mut [u8; LINE], at: usize, kind: ControlType, sub: u8) -> usize
    requires { at + 42 ≤ LINE }
    ensures puts { Puts line.old at line.new result (json_reason kind sub) }
    ensures within { result ≤ at + 42 }
{
    match kind {
        ControlType::Nak => put_reason_member(line, at, Nak::of(sub)),
        ControlType::Ack | ControlType::Rep | ControlType::Strt | ControlType::Stack => {
            put_slice(line, at, b"")
        }
    }
}

fn put_control(line: &mut [u8; LINE], at: usize, h: &Short) -> usize
    requires { at + 103 ≤ LINE }
    ensures puts { Puts line.old at line.new result
        (quoted (kind_text h.now.kind) ++ member (codes "sub") (decimal h.now.sub)
        ++ json_reason h.now.kind h.now.sub
        ++ json_fields h.now.flags h.now.resp h.now.num h.now.addr) }
    ensures within { result ≤ at + 103 }
{
    let after_kind = put_slice(line, at, kind_value(h.kind));
    let after_sub = put_member(line, after_kind, b",\"sub\":", h.sub);
    let after_reason = put_reason(line, after_sub, h.kind, h.sub);
    put_fields(line, after_reason, h.flags, h.resp, h.num, h.addr)
}

/// Puts a name as a value, and the fields of a header with COUNT.
fn put_counted<const N: usize>(
    line: &mut [u8; LINE],
    at: usize,
    name: &[u8; N],
    h: &Counted,
) -> usize
    requires name { N ≤ 7 }
    requires room { at + 80 ≤ LINE }
    ensures puts { Puts line.old at line.new result (name.now ++ json_counted h.now) }
    ensures within { result ≤ at + 80 }
{
    let after_name = put(line, at, name);
    let at_count = put(line, after_name, b",\"count\":");
    let after_count = put_number(line, at_count, h.count as u64);
    put_fields(line, after_count, h.flags, h.resp, h.num, h.addr)
}

/// Puts the name of a header as a value, and its fields; returns where they end.
pub(crate) fn put_header(line: &mut [u8; LINE], at: usize, header: &Header) -> usize
    requires { at + 103 ≤ LINE }
    ensures puts { Puts line.old at line.new result (json_header header.now) }
    ensures within { result ≤ at + 103 }
{
    match header {
        Header::Data(h) => put_counted(line, at, b"\"DATA\"", h),
        Header::Maint(h) => put_counted(line, at, b"\"MAINT\"", h),
        Header::Control(h) => put_control(line, at, h),
    }
}

fn put_fault(line: &mut [u8; LINE], at: usize, fault: &HeaderFault) -> usize
    requires { at + 16 ≤ LINE }
    ensures puts { Puts line.old at line.new result (json_fault fault.now) }
    ensures within { result ≤ at + 16 }
{
    match fault {
        HeaderFault::BadType(code) => put_member(line, at, b",\"type\":", *code),
        HeaderFault::CountZero => put(line, at, b",\"count\":0"),
        HeaderFault::NotAStart => put(line, at, b",\"fault\":\"start\""),
        HeaderFault::Check => put(line, at, b",\"fault\":\"check\""),
    }
}

/// Puts the beginning of an object: the offset, and a text after it.
pub(crate) fn put_start(line: &mut [u8; LINE], offset: u64, text: &[u8]) -> usize
    requires { length text.now ≤ 22 }
    ensures puts { Puts line.old 0 line.new result (json_start offset ++ text.now) }
    ensures some { 1 ≤ result }
    ensures within { result ≤ 30 + length text.now }
{
    let at_offset = put(line, 0, b"{\"offset\":");
    let after_offset = put_number(line, at_offset, offset);
    put_slice(line, after_offset, text)
}

/// Puts the header of a frame that was damaged or too long; returns where it ends.
fn put_damaged(line: &mut [u8; LINE], at: usize, header: &Header) -> usize
    requires { at + 109 ≤ LINE }
    ensures puts { Puts line.old at line.new result
        (member (codes "of") (json_header header.now)) }
    ensures within { result ≤ at + 109 }
{
    let at_header = put(line, at, b",\"of\":");
    put_header(line, at_header, header)
}

/// Puts an item, without the end of its object.
#[tactic(auto, unfolding(crate::specs::Json::json_item))]
fn put_item(line: &mut [u8; LINE], item: &Item) -> usize
    ensures puts { Puts line.old 0 line.new result (json_item item.now) }
    ensures some { 1 ≤ result }
    ensures within { result ≤ 161 }
{
    match item {
        Item::Good(offset, header) => {
            let at_header = put_start(line, *offset, b",\"item\":");
            put_header(line, at_header, header)
        }
        Item::HeaderCheck(offset) => put_start(line, *offset, b",\"item\":\"header check\""),
        Item::DataCheck(offset, header) => {
            let after_item = put_start(line, *offset, b",\"item\":\"data check\"");
            put_damaged(line, after_item, header)
        }
        Item::TooLong(offset, header) => {
            let after_item = put_start(line, *offset, b",\"item\":\"too long\"");
            put_damaged(line, after_item, header)
        }
        Item::Format(offset, fault) => {
            let after_item = put_start(line, *offset, b",\"item\":\"format\"");
            put_fault(line, after_item, fault)
        }
    }
}

/// Returns what follows an item: the name of its data, or the end of the object.
fn item_end(item: &Item) -> &'static [u8]
    ensures value { result.now
        ≡ (if lends_data item.now then codes ",\"data\":\"" else codes "}\n") }
    ensures within { length result.now ≤ 9 }
{
    if lends(item) { b",\"data\":\"" } else { b"}\n" }
}

/// Puts the line of an item, up to its data; returns where it ends.
#[inline(never)]
pub(crate) fn put_json_front(line: &mut [u8; LINE], item: &Item) -> usize
    ensures puts { Puts line.old 0 line.new result (json_front item.now) }
    ensures some { 1 ≤ result }
    ensures within { result ≤ 170 }
{
    let after_item = put_item(line, item);
    put_slice(line, after_item, item_end(item))
}

/// Puts the last line; returns where it ends.
#[inline(never)]
pub(crate) fn put_json_totals(line: &mut [u8; LINE], totals: Totals) -> usize
    ensures puts { Puts line.old 0 line.new result
        (json_totals totals.items totals.bytes totals.left_open) }
    ensures some { 1 ≤ result }
    ensures within { result ≤ 90 }
{
    let at_items = put(line, 0, b"{\"items\":");
    let after_items = put_number(line, at_items, totals.items);
    let at_bytes = put(line, after_items, b",\"bytes\":");
    let after_bytes = put_number(line, at_bytes, totals.bytes);
    let at_open = put(line, after_bytes, b",\"open\":");
    let after_open = put_number(line, at_open, totals.left_open);
    put(line, after_open, b"}\n")
}
