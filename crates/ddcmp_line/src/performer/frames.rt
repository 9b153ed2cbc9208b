//! The frames between the ends: they arrive, are lost or are damaged.
ghost use Rattle.std.specs.Prelude.{◌≡◌, ◌<◌, [], false, length, Some, None, Ok, Err, IsOk, OnErr};
ghost use Rattle.std.specs.Prelude.{IsTrue};
ghost use Rattle.ddcmp_io.specs.Written.{HandsOver, output_of};
ghost use Rattle.ddcmp_io.specs.Ends.{other};
ghost use Rattle.ddcmp_pair.specs.Run.{PairState, at, after_event, asks_memory};
ghost use Rattle.ddcmp_line.specs.ScriptText.{end_name};
ghost use Rattle.ddcmp_line.specs.Script.{frames_of, part_of, outcome_of_lose, outcome_of_damage};
ghost use Rattle.ddcmp_line.specs.Script.{arrival_text};
ghost use Rattle.ddcmp_line.specs.Inside.ScriptSteps.{scene_of, Comes, LineEnds, TellsDevices};
ghost use Rattle.ddcmp_pair.specs.declared.event.Event.TheVariants as event_value;

use crate::command::{ParsedLine, ScriptCommand};
use crate::performer::{Stage, Undone};
use crate::reply_text::{damage_name, end_name, write_counted, write_plain, write_reply};
use crate::view::View;
use ddcmp_io::{Page, Sink, WriteFailed};
use ddcmp_pair::{Bytes, Carrier, End, Event, Pair};
use ddcmp_station::Memory;

/// Bytes that arrive at an end, and the end that the text names.
pub(super) struct Arrival {
    pub(super) who: End,
    pub(super) to: End,
    pub(super) bytes: Bytes,
}

/// The first bytes of the first frame on the line of an end: at most `most`, or all.
#[derive(Clone, Copy)]
pub(super) struct FramePart {
    pub(super) from: End,
    pub(super) most: Option<u32>,
}

/// Returns at most this many of the first bytes, or all.
fn first_of(bytes: &[u8], most: Option<u32>) -> &[u8]
    ensures { result.now ≡ part_of most bytes.now }
{
    match most {
        Some(n) if (n as usize) < bytes.len() => &bytes[..n as usize],
        _ => bytes,
    }
}

/// Writes what is buffered before a carry that may fail, so that at most one device has failed.
fn flush_before<W: Sink, C: Carrier>(
    page: &mut Page,
    writer: &mut W,
    carrier: &C,
) -> Result<(), WriteFailed>
    ensures sends { HandsOver (output_of W.broken W.contents writer.old page.old)
        (output_of W.broken W.contents writer.new page.new) [] }
    ensures broken { OnErr result (IsTrue (W.broken writer.new)) }
    ensures whole { IsOk result → C.sure carrier.now ≡ false
        → (W.broken writer.new ≡ false) × (page.new ≡ []) }
{
    if carrier.is_sure() {
        return Ok(());
    }
    page.flush(writer)
}

impl Stage {
    /// Has bytes arrive: writes a line with these words and their number, then the notices.
    pub(super) fn arrive<W: Sink, V: View>(
        &mut self,
        pair: &mut Pair,
        view: &mut V,
        writer: &mut W,
        words: &[u8],
        arrival: Arrival,
    ) -> Result<(), Memory>
        ensures pair { IsOk result
            → pair.new ≡ after_event (event_value.Arrive arrival.to arrival.bytes) pair.old }
        ensures lines { self.new.lines ≡ self.old.lines }
        ensures text { IsOk result
            → HandsOver (output_of W.broken W.contents writer.old self.old.page)
            (output_of W.broken W.contents writer.new self.new.page)
            (arrival_text arrival.who words.now arrival.to arrival.bytes pair.old) }
        ensures memory { OnErr result ((pair.new ≡ pair.old)
            × (self.new.page ≡ self.old.page) × (writer.new ≡ writer.old)) }
        ensures asks { asks_memory (event_value.Arrive arrival.to arrival.bytes) pair.old ≡ false
            → IsOk result }
    {
        let Arrival { who, to, bytes } = arrival;
        let length = bytes.as_slice().len();
        let reply = pair.step_watched(view, Event::Arrive(to, bytes))?;
        write_counted(&mut self.page, writer, end_name(who), words, length as u64);
        write_reply(&mut self.page, writer, end_name(to), &reply);
        Ok(())
    }

    /// Has the first frame of an end's line arrive at the other end, as the carrier returns it.
    pub(super) fn carry<W: Sink, C: Carrier, V: View>(
        &mut self,
        pair: &mut Pair,
        view: &mut V,
        writer: &mut W,
        carrier: &mut C,
        part: FramePart,
    ) -> Result<(), Undone>
        requires whole { C.broken carrier.old ≡ false }
        ensures devices { TellsDevices (output_of W.broken W.contents writer.new self.new.page)
            (C.broken carrier.new) result }
        ensures ends { LineEnds (C.direct carrier.old) (C.told carrier.old) (C.told carrier.new)
            (ParsedLine.Asks (ScriptCommand.Carry part.from part.most))
            (scene_of pair.old self.old.lines) (scene_of pair.new self.new.lines)
            (output_of W.broken W.contents writer.old self.old.page)
            (output_of W.broken W.contents writer.new self.new.page) result }
        ensures direct { C.direct carrier.new ≡ C.direct carrier.old }
    {
        let FramePart { from, most } = part;
        let Some(front) = self.lines.front(from) else {
            write_plain(&mut self.page, writer, end_name(from), b"empty\n");
            return Ok(());
        };
        let bytes = first_of(front, most);
        let length = bytes.len();
        let Ok(mut out) = Vec::from_elem(self.alloc, 0u8, length) else {
            return Err(Undone::Memory);
        };
        if flush_before(&mut self.page, writer, carrier).is_err() {
            return Err(Undone::Write);
        }
        match carrier.carry(from, bytes, &mut out) {
            Ok(came) => out.truncate(came),
            Err(_fault) => return Err(Undone::Carrier),
        }
        let came = Bytes::new(out);
        let arrival = Arrival {
            who: from,
            to: from.other(),
            bytes: came,
        };
        match self.arrive(pair, view, writer, b"passed ", arrival) {
            Ok(()) => {
                self.lines.take_off(from, length);
                Ok(())
            }
            Err(_refused) => Err(Undone::Memory),
        }
    }

    /// Drops the first frame of an end's line.
    pub(super) fn lose<W: Sink>(&mut self, writer: &mut W, from: End)
        ensures { (p : PairState) → Comes (outcome_of_lose from (frames_of from self.old.lines)
            (scene_of p self.old.lines)) (scene_of p self.old.lines) (scene_of p self.new.lines)
            (output_of W.broken W.contents writer.old self.old.page)
            (output_of W.broken W.contents writer.new self.new.page) }
    {
        match self.lines.pop(from) {
            Some(front) => {
                let length = front.as_slice().len() as u64;
                write_counted(&mut self.page, writer, end_name(from), b"lost ", length);
            }
            None => write_plain(&mut self.page, writer, end_name(from), b"empty\n"),
        }
    }

    /// Changes a byte of the first frame of an end's line.
    pub(super) fn damage<W: Sink>(&mut self, writer: &mut W, from: End, at: u32, by: u8)
        ensures { (p : PairState) → Comes (outcome_of_damage from at by
            (frames_of from self.old.lines) (scene_of p self.old.lines))
            (scene_of p self.old.lines) (scene_of p self.new.lines)
            (output_of W.broken W.contents writer.old self.old.page)
            (output_of W.broken W.contents writer.new self.new.page) }
    {
        let is_empty = self.lines.is_empty(from);
        let is_there = self.lines.change_front(from, at as usize, by);
        write_plain(
            &mut self.page,
            writer,
            end_name(from),
            damage_name(is_empty, is_there),
        );
    }
}
