//! The labels of frames, and the texts about ends.
ghost use Rattle.std.specs.Prelude.{◌≡◌, ◌≤◌, ◌<◌, length, take, drop, MatchOption};
ghost use Rattle.ddcmp_picture.specs.Labels.{after_fill, header_in, label_of as label, line_of};
ghost use Rattle.ddcmp_picture.specs.Labels.{faults_label, notice_label, numbers_label};
ghost use Rattle.ddcmp_picture.specs.Labels.{holding_label, with_fault};

use crate::short_text::ShortText;
use ddcmp_explain::{LABEL_ROOM, label_frame};
use ddcmp_frame::Header;
use ddcmp_frame::codes::SYN;
use ddcmp_pair::{Notice, Station};
use ddcmp_proto::Counters;
use ddcmp_station::{notice_name, notice_number, state_name};

/// Returns how many SYN bytes there are before a frame.
#[tactic(auto, using(crate::proofs::LabelLaws::fill_step, crate::proofs::LabelLaws::fill_ends, crate::proofs::LabelLaws::fill_all))]
fn fill_before(bytes: &[u8]) -> usize
    ensures within { result ≤ length bytes.now }
    ensures fill { drop result bytes.now ≡ after_fill bytes.now }
{
    for i in 0..bytes.len() {
        if bytes[i] != SYN {
            return i;
        }
    }
    bytes.len()
}

/// Returns the eight bytes after the SYN fill.
fn header_bytes(bytes: &[u8]) -> Option<[u8; 8]>
    ensures { MatchOption result (length (after_fill bytes.now) < 8)
        (λ header. header ≡ take 8 (after_fill bytes.now)) }
{
    let frame = &bytes[fill_before(bytes)..];
    if frame.len() < 8 {
        return None;
    }
    let mut header = [0; 8];
    header.copy_from_slice(&frame[..8]);
    Some(header)
}

/// Returns the header that bytes of a line begin with, if they do.
fn header_of(bytes: &[u8]) -> Option<Header>
    ensures { result ≡ header_in bytes.now }
{
    let header = header_bytes(bytes)?;
    match Header::parse(&header) {
        Ok(header) => Some(header),
        Err(_fault) => None,
    }
}

/// Returns the label of a frame, by its header; for other bytes their digits.
pub(crate) fn label_of(bytes: &[u8]) -> ShortText
    ensures { result ≡ label bytes.now }
{
    match header_of(bytes) {
        Some(header) => {
            let mut label = [0; LABEL_ROOM];
            let end = label_frame(&mut label, &header);
            ShortText::new().with(&label[..end])
        }
        None => ShortText::new().with(b"bytes: ").with_bytes(bytes),
    }
}

/// Returns the text of a notice, as in the text of a script.
pub(crate) fn notice_text(notice: Notice) -> ShortText
    ensures { result ≡ notice_label notice }
{
    let text = ShortText::new().with(b"notice ").with(notice_name(notice));
    match notice_number(notice) {
        Some(number) => text.with_number(number as u64),
        None => text,
    }
}

/// Returns the text, with a fault appended if it is there.
#[tactic(auto, unfolding(crate::specs::Labels::with_fault))]
fn with_fault_text(text: ShortText, is_there: bool, fault: &[u8]) -> ShortText
    ensures { result ≡ with_fault is_there fault.now text }
{
    if !is_there {
        return text;
    }
    let front = if text.is_blank() {
        text
    } else {
        text.with(b", ")
    };
    front.with(fault)
}

/// Returns the faults in received bytes, by an end's counters before and now.
pub(crate) fn faults_text(before: &Counters, now: &Counters) -> ShortText
    ensures { result ≡ faults_label before.now now.now }
{
    let is_header = before.header_checks < now.header_checks;
    let is_data = before.data_checks < now.data_checks;
    let is_long = before.too_longs < now.too_longs;
    let is_format = before.formats < now.formats;
    let header = with_fault_text(ShortText::new(), is_header, b"header check wrong");
    let data = with_fault_text(header, is_data, b"data check wrong");
    let long = with_fault_text(data, is_long, b"message too long");
    with_fault_text(long, is_format, b"header format error")
}

/// Returns the state of a station and its numbers.
pub(crate) fn numbers_text(station: &Station) -> ShortText
    ensures { result ≡ numbers_label station.now.core.station }
{
    let numbers = station.numbers();
    ShortText::new()
        .with(state_name(station.state()))
        .with(b" R=")
        .with_number(numbers.r.0 as u64)
        .with(b" N=")
        .with_number(numbers.n.0 as u64)
        .with(b" A=")
        .with_number(numbers.a.0 as u64)
        .with(b" T=")
        .with_number(numbers.t.0 as u64)
}

/// Returns how many messages are in a station's send queue and in its inbox, and whether its timer
/// is on.
pub(crate) fn holding_text(station: &Station) -> ShortText
    ensures { result ≡ holding_label station.now.core.station }
{
    let text = ShortText::new()
        .with(b"out=")
        .with_number(station.outgoing() as u64)
        .with(b" in=")
        .with_number(station.waiting() as u64);
    if station.timer_on() {
        text.with(b" timer=on")
    } else {
        text.with(b" timer=off")
    }
}

/// Returns a line without the LF at its end.
pub(crate) fn without_lf(line: &[u8]) -> &[u8]
    ensures { result.now ≡ line_of line.now }
{
    if !line.is_empty() && line[line.len() - 1] == b'\n' {
        &line[..line.len() - 1]
    } else {
        line
    }
}
