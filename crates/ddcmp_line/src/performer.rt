//! Runs the commands of a script.
ghost use Rattle.std.specs.Prelude.{◌≡◌, ◌<◌, [], false, Some, None, Ok, Err, IsOk, OnErr};
ghost use Rattle.std.specs.VecDeque.{deque_capacity, deque_len};
ghost use Rattle.ddcmp_io.specs.Written.{HandsOver, output_of};
ghost use Rattle.ddcmp_pair.specs.Run.{at, end_of, after_event, reply_to};
ghost use Rattle.ddcmp_pair.specs.Settle.{settling, WantsMemory};
ghost use Rattle.ddcmp_pair.specs.Recovery.{recovering};
ghost use Rattle.ddcmp_line.specs.ScriptWords.{reading_of};
ghost use Rattle.ddcmp_line.specs.ScriptText.{end_name, name_before, reply_text};
ghost use Rattle.ddcmp_line.specs.Script.{nothing_between, frames_after, outcome_of_event};
ghost use Rattle.ddcmp_line.specs.Script.{outcome_of_settle, outcome_of_recover};
ghost use Rattle.ddcmp_line.specs.Inside.ScriptSteps.{scene_of, stopped_of, Comes, LineEnds};
ghost use Rattle.ddcmp_line.specs.Inside.ScriptSteps.{TellsDevices};
ghost use Rattle.ddcmp_pair.specs.declared.event.Event.TheVariants as event_value;

mod frames;

use crate::command::{ParsedLine, ScriptCommand, read_line};
use crate::frame_lines::{FrameLeft, FrameLines};
use crate::reply_text::{
    answerer_name, end_name, write_recovered, write_reply, write_settled, write_station,
};
use crate::view::View;
use ddcmp_io::{Page, Sink};
use ddcmp_pair::{Carrier, End, Event, Pair, Reply};
use ddcmp_station::Memory;
use frames::{Arrival, FramePart};
use std::alloc::Global;
use std::collections::VecDeque;

/// Why a line wasn't done.
#[derive(Clone, Copy, PartialEq, Eq)]
pub(crate) enum Undone {
    NoCommand,
    NotHex,
    Write,
    Memory,
    Carrier,
}

/// The lines between the ends, and the buffered output.
#[derive(Drop)]
pub(crate) struct Stage {
    pub(crate) alloc: Global,
    pub(crate) lines: FrameLines,
    pub(crate) page: Page,
}

/// Polls an end; a frame that it writes is the last one on its line.
fn poll<W: Sink, V: View>(
    pair: &mut Pair,
    view: &mut V,
    frames: &mut VecDeque<FrameLeft>,
    page: &mut Page,
    writer: &mut W,
    end: End,
) -> Result<(), Memory>
    ensures pair { IsOk result → pair.new ≡ after_event (event_value.Poll end) pair.old }
    ensures frames { IsOk result → frames.new.items
        ≡ frames_after (reply_to (event_value.Poll end) pair.old) frames.old.items }
    ensures text { IsOk result → HandsOver (output_of W.broken W.contents writer.old page.old)
        (output_of W.broken W.contents writer.new page.new)
        (reply_text (end_name end) (reply_to (event_value.Poll end) pair.old)) }
    ensures memory { OnErr result ((pair.new ≡ pair.old) × (frames.new.items ≡ frames.old.items)
        × (page.new ≡ page.old) × (writer.new ≡ writer.old)) }
{
    frames.reserve(1)?;
    let reply = pair.step_watched(view, Event::Poll(end))?;
    write_reply(page, writer, end_name(end), &reply);
    put_last(frames, reply);
    Ok(())
}

/// Appends a frame that was written to its line, which has room.
fn put_last(frames: &mut VecDeque<FrameLeft>, reply: Reply)
    requires { deque_len frames.old < deque_capacity frames.old }
    ensures { frames.new.items ≡ frames_after reply frames.old.items }
{
    match reply {
        Reply::Wrote(bytes) => frames.push_back_reserved(FrameLeft::new(bytes)),
        _ => {}
    }
}

/// Returns why a line wasn't done, for an allocation failure.
fn stopped(done: Result<(), Memory>) -> Result<(), Undone>
    ensures { result ≡ stopped_of done }
{
    match done {
        Ok(()) => Ok(()),
        Err(_refused) => Err(Undone::Memory),
    }
}

impl Stage {
    /// Returns empty lines without buffered output.
    pub(crate) fn new(alloc: Global) -> Self
        ensures lines { result.lines ≡ nothing_between }
        ensures page { result.page ≡ [] }
    {
        Stage {
            alloc,
            lines: FrameLines::new(alloc),
            page: Page::new(),
        }
    }

    /// Polls an end, and writes the reply.
    fn poll<W: Sink, V: View>(
        &mut self,
        pair: &mut Pair,
        view: &mut V,
        writer: &mut W,
        end: End,
    ) -> Result<(), Memory>
        ensures comes { IsOk result
            → Comes (outcome_of_event (event_value.Poll end) (scene_of pair.old self.old.lines))
            (scene_of pair.old self.old.lines) (scene_of pair.new self.new.lines)
            (output_of W.broken W.contents writer.old self.old.page)
            (output_of W.broken W.contents writer.new self.new.page) }
        ensures memory { OnErr result ((pair.new ≡ pair.old)
            × (self.new.page ≡ self.old.page) × (writer.new ≡ writer.old)) }
    {
        match end {
            End::A => poll(pair, view, &mut self.lines.a, &mut self.page, writer, end),
            End::B => poll(pair, view, &mut self.lines.b, &mut self.page, writer, end),
        }
    }

    /// Clears the pair; if that is done, empties both lines.
    fn clear<W: Sink, V: View>(
        &mut self,
        pair: &mut Pair,
        view: &mut V,
        writer: &mut W,
    ) -> Result<(), Memory>
        ensures comes { IsOk result
            → Comes (outcome_of_event event_value.Clear (scene_of pair.old self.old.lines))
            (scene_of pair.old self.old.lines) (scene_of pair.new self.new.lines)
            (output_of W.broken W.contents writer.old self.old.page)
            (output_of W.broken W.contents writer.new self.new.page) }
        ensures memory { OnErr result ((pair.new ≡ pair.old)
            × (self.new.page ≡ self.old.page) × (writer.new ≡ writer.old)) }
    {
        let reply = pair.step_watched(view, Event::Clear)?;
        write_reply(&mut self.page, writer, b"", &reply);
        self.lines.clear_after(&reply);
        Ok(())
    }

    /// Applies an event that puts no frame on a line and takes none off, and writes its reply.
    fn step<W: Sink, V: View>(
        &mut self,
        pair: &mut Pair,
        view: &mut V,
        writer: &mut W,
        event: Event,
    ) -> Result<(), Memory>
        ensures pair { IsOk result → pair.new ≡ after_event event pair.old }
        ensures lines { self.new.lines ≡ self.old.lines }
        ensures text { IsOk result
            → HandsOver (output_of W.broken W.contents writer.old self.old.page)
            (output_of W.broken W.contents writer.new self.new.page)
            (reply_text (name_before (end_of event)) (reply_to event pair.old)) }
        ensures memory { OnErr result ((pair.new ≡ pair.old)
            × (self.new.page ≡ self.old.page) × (writer.new ≡ writer.old)) }
    {
        let who = answerer_name(event.end());
        let reply = pair.step_watched(view, event)?;
        write_reply(&mut self.page, writer, who, &reply);
        Ok(())
    }

    /// Applies an event.
    fn happen<W: Sink, V: View>(
        &mut self,
        pair: &mut Pair,
        view: &mut V,
        writer: &mut W,
        event: Event,
    ) -> Result<(), Memory>
        ensures comes { IsOk result
            → Comes (outcome_of_event event (scene_of pair.old self.old.lines))
            (scene_of pair.old self.old.lines) (scene_of pair.new self.new.lines)
            (output_of W.broken W.contents writer.old self.old.page)
            (output_of W.broken W.contents writer.new self.new.page) }
        ensures memory { OnErr result ((pair.new ≡ pair.old)
            × (self.new.page ≡ self.old.page) × (writer.new ≡ writer.old)) }
    {
        match event {
            Event::Poll(end) => self.poll(pair, view, writer, end),
            Event::Clear => self.clear(pair, view, writer),
            event => self.step(pair, view, writer, event),
        }
    }

    /// Drops all frames on both lines, and then has both ends settle.
    fn settle<W: Sink, V: View>(
        &mut self,
        pair: &mut Pair,
        view: &mut V,
        writer: &mut W,
    ) -> Result<(), Memory>
        ensures comes { IsOk result → Comes (outcome_of_settle (scene_of pair.old self.old.lines))
            (scene_of pair.old self.old.lines) (scene_of pair.new self.new.lines)
            (output_of W.broken W.contents writer.old self.old.page)
            (output_of W.broken W.contents writer.new self.new.page) }
        ensures memory { OnErr result (WantsMemory (settling pair.old).events pair.old pair.new
            × (self.new.page ≡ self.old.page) × (writer.new ≡ writer.old)) }
    {
        let settled = pair.settle_watched(view)?;
        self.lines.clear();
        write_settled(&mut self.page, writer, settled.exchanges, settled.quiet);
        view.settled(&settled);
        Ok(())
    }

    /// Drops all frames on both lines, and then has the line recover.
    fn recover<W: Sink, V: View>(
        &mut self,
        pair: &mut Pair,
        view: &mut V,
        writer: &mut W,
    ) -> Result<(), Memory>
        ensures comes { IsOk result → Comes (outcome_of_recover (scene_of pair.old self.old.lines))
            (scene_of pair.old self.old.lines) (scene_of pair.new self.new.lines)
            (output_of W.broken W.contents writer.old self.old.page)
            (output_of W.broken W.contents writer.new self.new.page) }
        ensures memory { OnErr result (WantsMemory (recovering pair.old).events pair.old pair.new
            × (self.new.page ≡ self.old.page) × (writer.new ≡ writer.old)) }
    {
        let recovered = pair.recover_watched(view)?;
        self.lines.clear();
        let done = pair.done();
        write_recovered(&mut self.page, writer, &recovered.exchanges, done);
        view.recovered(&recovered, done);
        Ok(())
    }

    /// Returns how many bytes are left of the first frame on the line that a command names.
    fn front_length(&self, command: &ScriptCommand) -> Option<usize> {
        let from = match command {
            ScriptCommand::Carry(from, _) | ScriptCommand::Lose(from) => *from,
            ScriptCommand::Damage(from, _, _) => *from,
            _ => return None,
        };
        match self.lines.front(from) {
            Some(front) => Some(front.len()),
            None => None,
        }
    }

    /// Runs a command, and writes its text.
    fn perform<W: Sink, C: Carrier, V: View>(
        &mut self,
        pair: &mut Pair,
        view: &mut V,
        writer: &mut W,
        carrier: &mut C,
        command: ScriptCommand,
    ) -> Result<(), Undone>
        requires whole { C.broken carrier.old ≡ false }
        ensures devices { TellsDevices (output_of W.broken W.contents writer.new self.new.page)
            (C.broken carrier.new) result }
        ensures ends { LineEnds (C.direct carrier.old) (C.told carrier.old) (C.told carrier.new)
            (ParsedLine.Asks command) (scene_of pair.old self.old.lines)
            (scene_of pair.new self.new.lines)
            (output_of W.broken W.contents writer.old self.old.page)
            (output_of W.broken W.contents writer.new self.new.page) result }
        ensures direct { C.direct carrier.new ≡ C.direct carrier.old }
    {
        view.begins(pair, &command, self.front_length(&command));
        match command {
            ScriptCommand::Carry(from, most) => {
                self.carry(pair, view, writer, carrier, FramePart { from, most })
            }
            ScriptCommand::Happens(event) => stopped(self.happen(pair, view, writer, event)),
            ScriptCommand::Lose(from) => {
                self.lose(writer, from);
                Ok(())
            }
            ScriptCommand::Damage(from, at, by) => {
                self.damage(writer, from, at, by);
                Ok(())
            }
            ScriptCommand::Raw(to, bytes) => {
                let arrival = Arrival { who: to, to, bytes };
                stopped(self.arrive(pair, view, writer, b"got ", arrival))
            }
            ScriptCommand::Settle => stopped(self.settle(pair, view, writer)),
            ScriptCommand::Recover => stopped(self.recover(pair, view, writer)),
            ScriptCommand::State(end) => {
                write_station(&mut self.page, writer, end_name(end), pair.station(end));
                Ok(())
            }
        }
    }

    /// Runs a line.
    pub(crate) fn do_line<W: Sink, C: Carrier, V: View>(
        &mut self,
        pair: &mut Pair,
        view: &mut V,
        writer: &mut W,
        carrier: &mut C,
        line: &[u8],
    ) -> Result<(), Undone>
        requires whole { C.broken carrier.old ≡ false }
        ensures devices { TellsDevices (output_of W.broken W.contents writer.new self.new.page)
            (C.broken carrier.new) result }
        ensures ends { LineEnds (C.direct carrier.old) (C.told carrier.old) (C.told carrier.new)
            (reading_of line.now) (scene_of pair.old self.old.lines)
            (scene_of pair.new self.new.lines)
            (output_of W.broken W.contents writer.old self.old.page)
            (output_of W.broken W.contents writer.new self.new.page) result }
        ensures direct { C.direct carrier.new ≡ C.direct carrier.old }
    {
        match read_line(self.alloc, line) {
            Ok(ParsedLine::Skipped) => Ok(()),
            Ok(ParsedLine::Asks(command)) => self.perform(pair, view, writer, carrier, command),
            Ok(ParsedLine::NoCommand) => Err(Undone::NoCommand),
            Ok(ParsedLine::NotHex) => Err(Undone::NotHex),
            Err(_refused) => Err(Undone::Memory),
        }
    }
}
