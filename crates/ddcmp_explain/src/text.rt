//! The text of items.
ghost use Rattle.std.specs.Prelude.{◌≡◌, ◌+◌, ◌≤◌, ◌++◌, codes, decimal, length, take};
ghost use Rattle.std.specs.Prelude.{if◌then◌else◌};
ghost use Rattle.ddcmp_explain.specs.Inside.Putting.{Puts};
ghost use Rattle.ddcmp_explain.specs.Text.{kind_text, flags_text, fields_text, counted_text};
ghost use Rattle.ddcmp_explain.specs.Text.{header_text, fault_text, item_text, lends as lends_data};
ghost use Rattle.ddcmp_explain.specs.Text.{front_text, totals as totals_text};

use crate::notation::Totals;
use crate::put::{LINE, put, put_byte, put_number};
use ddcmp_frame::{ControlType, Counted, Flags, Header, HeaderFault, Item, Short};

/// Returns the name of a control frame, up to the number that follows it, padded with blanks to ten
/// bytes, and its length. The compiler makes a table of it, since no branch predictor could foresee
/// the kinds.
#[inline(always)]
fn kind_name(kind: ControlType) -> (&'static [u8; 10], usize)
    ensures name { take result.1 result.0.now ≡ kind_text kind ++ codes " sub=" }
    ensures long { length result.0.now ≡ 10 }
    ensures within { result.1 ≤ 10 }
{
    match kind {
        ControlType::Ack => (b"ACK sub=  ", 8),
        ControlType::Nak => (b"NAK sub=  ", 8),
        ControlType::Rep => (b"REP sub=  ", 8),
        ControlType::Strt => (b"STRT sub= ", 9),
        ControlType::Stack => (b"STACK sub=", 10),
    }
}

/// Puts the name of a control frame, up to the number that follows it.
#[inline(always)]
fn put_kind(line: &mut [u8; LINE], at: usize, kind: ControlType) -> usize
    requires { at + 10 ≤ LINE }
    ensures puts { Puts line.old at line.new result (kind_text kind ++ codes " sub=") }
    ensures within { result ≤ at + 10 }
{
    let (name, length) = kind_name(kind);
    let _after_ten = put(line, at, name);
    at + length
}

/// Returns the text of both flags, up to the number that follows them.
#[inline(always)]
fn flags_name(flags: Flags) -> &'static [u8; 14]
    ensures { result.now ≡ flags_text flags }
{
    match (flags.q, flags.s) {
        (false, false) => b" q=0 s=0 resp=",
        (false, true) => b" q=0 s=1 resp=",
        (true, false) => b" q=1 s=0 resp=",
        (true, true) => b" q=1 s=1 resp=",
    }
}

/// Puts the fields that all headers have; returns where they end.
#[inline(always)]
fn put_fields(line: &mut [u8; LINE], at: usize, flags: Flags, resp: u8, num: u8, addr: u8) -> usize
    requires { at + 34 ≤ LINE }
    ensures puts { Puts line.old at line.new result (fields_text flags resp num addr) }
    ensures within { result ≤ at + 34 }
{
    let at_resp = put(line, at, flags_name(flags));
    let after_resp = put_byte(line, at_resp, resp);
    let at_num = put(line, after_resp, b" num=");
    let after_num = put_byte(line, at_num, num);
    let at_addr = put(line, after_num, b" addr=");
    put_byte(line, at_addr, addr)
}

#[inline(always)]
fn put_control(line: &mut [u8; LINE], at: usize, h: &Short) -> usize
    requires { at + 47 ≤ LINE }
    ensures puts { Puts line.old at line.new result
        (kind_text h.now.kind ++ codes " sub=" ++ decimal h.now.sub
        ++ fields_text h.now.flags h.now.resp h.now.num h.now.addr) }
    ensures within { result ≤ at + 47 }
{
    let at_sub = put_kind(line, at, h.kind);
    let after_sub = put_byte(line, at_sub, h.sub);
    put_fields(line, after_sub, h.flags, h.resp, h.num, h.addr)
}

fn put_counted(line: &mut [u8; LINE], at: usize, h: &Counted) -> usize
    requires { at + 61 ≤ LINE }
    ensures puts { Puts line.old at line.new result (counted_text h.now) }
    ensures within { result ≤ at + 61 }
{
    let at_count = put(line, at, b" count=");
    let after_count = put_number(line, at_count, h.count as u64);
    put_fields(line, after_count, h.flags, h.resp, h.num, h.addr)
}

#[inline(always)]
pub(crate) fn put_header(line: &mut [u8; LINE], at: usize, header: &Header) -> usize
    requires { at + 66 ≤ LINE }
    ensures puts { Puts line.old at line.new result (header_text header.now) }
    ensures within { result ≤ at + 66 }
{
    match header {
        Header::Data(h) => {
            let after_name = put(line, at, b"DATA");
            put_counted(line, after_name, h)
        }
        Header::Maint(h) => {
            let after_name = put(line, at, b"MAINT");
            put_counted(line, after_name, h)
        }
        Header::Control(h) => put_control(line, at, h),
    }
}

pub(crate) fn put_fault(line: &mut [u8; LINE], at: usize, fault: &HeaderFault) -> usize
    requires { at + 8 ≤ LINE }
    ensures puts { Puts line.old at line.new result (fault_text fault.now) }
    ensures within { result ≤ at + 8 }
{
    match fault {
        HeaderFault::BadType(code) => {
            let at_code = put(line, at, b"type=");
            put_byte(line, at_code, *code)
        }
        HeaderFault::CountZero => put(line, at, b"count=0"),
        HeaderFault::NotAStart => put(line, at, b"start"),
        HeaderFault::Check => put(line, at, b"check"),
    }
}

/// Puts an offset, a label and a header.
#[inline(always)]
fn put_labelled<const N: usize>(
    line: &mut [u8; LINE],
    offset: u64,
    label: &[u8; N],
    header: &Header,
) -> usize
    requires { N ≤ 12 }
    ensures puts { Puts line.old 0 line.new result
        (decimal offset ++ label.now ++ header_text header.now) }
    ensures within { result ≤ 98 }
{
    let after_offset = put_number(line, 0, offset);
    let at_header = put(line, after_offset, label);
    put_header(line, at_header, header)
}

/// Puts the text of an item, without its data.
#[tactic(auto, unfolding(crate::specs::Text::item_text))]
#[inline(always)]
pub(crate) fn put_item(line: &mut [u8; LINE], item: &Item) -> usize
    ensures puts { Puts line.old 0 line.new result (item_text item.now) }
    ensures within { result ≤ 98 }
{
    match item {
        Item::Good(offset, header) => put_labelled(line, *offset, b" ", header),
        Item::HeaderCheck(offset) => {
            let after_offset = put_number(line, 0, *offset);
            put(line, after_offset, b" header check")
        }
        Item::DataCheck(offset, header) => put_labelled(line, *offset, b" data check ", header),
        Item::TooLong(offset, header) => put_labelled(line, *offset, b" too long ", header),
        Item::Format(offset, fault) => {
            let after_offset = put_number(line, 0, *offset);
            let at_fault = put(line, after_offset, b" format ");
            put_fault(line, at_fault, fault)
        }
    }
}

/// Returns whether the line of an item shows data.
#[inline(always)]
pub(crate) fn lends(item: &Item) -> bool
    ensures { result ≡ lends_data item.now }
{
    match item {
        Item::Good(_, Header::Data(_) | Header::Maint(_)) => true,
        Item::Good(_, Header::Control(_))
        | Item::HeaderCheck(_)
        | Item::DataCheck(_, _)
        | Item::TooLong(_, _)
        | Item::Format(_, _) => false,
    }
}

/// Returns what follows an item: a blank before its data, or the end of its line.
#[inline(always)]
fn item_end(item: &Item) -> &'static [u8; 1]
    ensures { result.now ≡ (if lends_data item.now then codes " " else codes "\n") }
{
    if lends(item) { b" " } else { b"\n" }
}

/// Puts the line of an item, up to its data; returns where it ends.
#[inline(always)]
pub(crate) fn put_front(line: &mut [u8; LINE], item: &Item) -> usize
    ensures puts { Puts line.old 0 line.new result (front_text item.now) }
    ensures some { 1 ≤ result }
    ensures within { result ≤ 99 }
{
    let after_item = put_item(line, item);
    put(line, after_item, item_end(item))
}

/// Puts the last line; returns where it ends.
pub(crate) fn put_totals(line: &mut [u8; LINE], totals: Totals) -> usize
    ensures puts { Puts line.old 0 line.new result
        (totals_text totals.items totals.bytes totals.left_open) }
    ensures some { 1 ≤ result }
    ensures within { result ≤ 80 }
{
    let at_items = put(line, 0, b"items=");
    let after_items = put_number(line, at_items, totals.items);
    let at_bytes = put(line, after_items, b" bytes=");
    let after_bytes = put_number(line, at_bytes, totals.bytes);
    let at_open = put(line, after_bytes, b" open=");
    let after_open = put_number(line, at_open, totals.left_open);
    put(line, after_open, b"\n")
}
