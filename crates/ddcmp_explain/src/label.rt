//! The short labels of frames, for pictures.
ghost use Rattle.std.specs.Prelude.{◌+◌, ◌≤◌, ◌++◌, codes, decimal, if◌then◌else◌, ◌==◌};
ghost use Rattle.ddcmp_frame.specs.Naks.{reason_of};
ghost use Rattle.ddcmp_explain.specs.Json.{reason_in_words};
ghost use Rattle.ddcmp_explain.specs.Label.{control_label, count_label, frame_label, item_label};
ghost use Rattle.ddcmp_explain.specs.Inside.Putting.{Puts};

use crate::put::{LINE, put, put_byte, put_number, put_slice};
use crate::reasons::reason_name;
use crate::text::put_fault;
use ddcmp_frame::{ControlType, Header, Item, Nak};

/// Room for the label of an item, and to spare.
pub const LABEL_ROOM: usize = 192;

/// Puts a NAK with its reason, from its SUBTYPE.
fn put_nak_label(line: &mut [u8; LINE], at: usize, sub: u8, resp: u8) -> usize
    requires { at + 49 ≤ LINE }
    ensures puts { Puts line.old at line.new result
        (codes "NAK " ++ decimal sub ++ codes " (" ++ reason_in_words (reason_of sub)
        ++ codes ") resp=" ++ decimal resp) }
    ensures within { result ≤ at + 49 }
{
    let at_sub = put(line, at, b"NAK ");
    let after_sub = put_byte(line, at_sub, sub);
    let at_reason = put(line, after_sub, b" (");
    let after_reason = put_slice(line, at_reason, reason_name(Nak::of(sub)));
    let at_resp = put(line, after_reason, b") resp=");
    put_byte(line, at_resp, resp)
}

/// Puts the fields of a control frame that have a meaning.
fn put_control_label(
    line: &mut [u8; LINE],
    at: usize,
    kind: ControlType,
    sub: u8,
    resp: u8,
    num: u8,
) -> usize
    requires { at + 49 ≤ LINE }
    ensures puts { Puts line.old at line.new result (control_label kind sub resp num) }
    ensures within { result ≤ at + 49 }
{
    match kind {
        ControlType::Ack => {
            let at_resp = put(line, at, b"ACK resp=");
            put_byte(line, at_resp, resp)
        }
        ControlType::Nak => put_nak_label(line, at, sub, resp),
        ControlType::Rep => {
            let at_num = put(line, at, b"REP ");
            put_byte(line, at_num, num)
        }
        ControlType::Strt => put(line, at, b"STRT"),
        ControlType::Stack => put(line, at, b"STACK"),
    }
}

/// Puts the unit of a number of bytes; returns where it ends.
fn put_unit(line: &mut [u8; LINE], at: usize, count: u16) -> usize
    requires { at + 7 ≤ LINE }
    ensures puts { Puts line.old at line.new result
        (if count == 1 then codes " byte)" else codes " bytes)") }
    ensures within { result ≤ at + 7 }
{
    if count == 1 {
        put(line, at, b" byte)")
    } else {
        put(line, at, b" bytes)")
    }
}

/// Puts how many bytes of data a frame has; returns where it ends.
fn put_count_label(line: &mut [u8; LINE], at: usize, count: u16) -> usize
    requires { at + 29 ≤ LINE }
    ensures puts { Puts line.old at line.new result (count_label count) }
    ensures within { result ≤ at + 29 }
{
    let at_count = put(line, at, b" (");
    let after_count = put_number(line, at_count, count as u64);
    put_unit(line, after_count, count)
}

fn put_data_label(line: &mut [u8; LINE], at: usize, num: u8, resp: u8, count: u16) -> usize
    requires { at + 46 ≤ LINE }
    ensures puts { Puts line.old at line.new result
        (codes "DATA " ++ decimal num ++ codes " resp=" ++ decimal resp ++ count_label count) }
    ensures within { result ≤ at + 46 }
{
    let at_num = put(line, at, b"DATA ");
    let after_num = put_byte(line, at_num, num);
    let at_resp = put(line, after_num, b" resp=");
    let after_resp = put_byte(line, at_resp, resp);
    put_count_label(line, after_resp, count)
}

/// Puts the label of a frame, by its header; returns where it ends.
fn put_frame_label(line: &mut [u8; LINE], at: usize, header: &Header) -> usize
    requires { at + 49 ≤ LINE }
    ensures puts { Puts line.old at line.new result (frame_label header.now) }
    ensures within { result ≤ at + 49 }
{
    match header {
        Header::Data(h) => put_data_label(line, at, h.num, h.resp, h.count),
        Header::Maint(h) => {
            let after_name = put(line, at, b"MAINT");
            put_count_label(line, after_name, h.count)
        }
        Header::Control(h) => put_control_label(line, at, h.kind, h.sub, h.resp, h.num),
    }
}

/// Puts the label of a frame; returns where it ends.
pub fn label_frame(line: &mut [u8; LABEL_ROOM], header: &Header) -> usize
    ensures puts { Puts line.old 0 line.new result (frame_label header.now) }
    ensures within { result ≤ 49 }
{
    put_frame_label(line, 0, header)
}

/// Puts the label of an item, good or not; returns where it ends.
#[tactic(auto, unfolding(crate::specs::Label::item_label))]
pub fn label_item(line: &mut [u8; LABEL_ROOM], item: &Item) -> usize
    ensures puts { Puts line.old 0 line.new result (item_label item.now) }
    ensures within { result ≤ 60 }
{
    match item {
        Item::Good(_, header) => put_frame_label(line, 0, header),
        Item::HeaderCheck(_) => put(line, 0, b"header check"),
        Item::DataCheck(_, header) => {
            let at_header = put(line, 0, b"data check ");
            put_frame_label(line, at_header, header)
        }
        Item::TooLong(_, header) => {
            let at_header = put(line, 0, b"too long ");
            put_frame_label(line, at_header, header)
        }
        Item::Format(_, fault) => {
            let at_fault = put(line, 0, b"format ");
            put_fault(line, at_fault, fault)
        }
    }
}
