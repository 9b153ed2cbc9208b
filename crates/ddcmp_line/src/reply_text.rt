//! What a script writes for replies.
ghost use Rattle.std.specs.Prelude.{◌≡◌, ◌++◌};
ghost use Rattle.std.specs.List.{flat_map};
ghost use Rattle.ddcmp_io.specs.Written.{HandsOver, output_of};
ghost use Rattle.ddcmp_station.specs.StationText.{notice_line};
ghost use Rattle.ddcmp_line.specs.ScriptText.{end_name, name_before, start_refusal_text};
ghost use Rattle.ddcmp_line.specs.ScriptText.{clear_refusal_text, send_refusal_text};
ghost use Rattle.ddcmp_line.specs.ScriptText.{expired_text, counted_line, bytes_line};
ghost use Rattle.ddcmp_line.specs.ScriptText.{reply_text, timer_text, numbers_text};
ghost use Rattle.ddcmp_line.specs.ScriptText.{station_line, quiet_text, settled_text};
ghost use Rattle.ddcmp_line.specs.ScriptText.{done_text, count_text, recovered_text};
ghost use Rattle.ddcmp_line.specs.ScriptText.{damage_text};

use ddcmp_io::text::{write_hex, write_number};
use ddcmp_io::{Page, Sink};
use ddcmp_pair::{End, Reply};
use ddcmp_proto::{Notice, SendRefusal, StartRefusal, Station};
use ddcmp_station::{state_name, write_notice};

/// Returns the name of the end that replies, for the beginning of a line.
pub fn end_name(end: End) -> &'static [u8]
    ensures { result.now ≡ end_name end }
{
    match end {
        End::A => b"A ",
        End::B => b"B ",
    }
}

/// Returns the same; empty, if the reply is for both ends.
pub fn answerer_name(end: Option<End>) -> &'static [u8]
    ensures { result.now ≡ name_before end }
{
    match end {
        Some(end) => end_name(end),
        None => b"",
    }
}

/// Returns why a start is refused, as a line.
pub fn start_refusal_name(refusal: StartRefusal) -> &'static [u8]
    ensures { result.now ≡ start_refusal_text refusal }
{
    match refusal {
        StartRefusal::NotHalted => b"start refused NotHalted\n",
        StartRefusal::Untaken => b"start refused Untaken\n",
    }
}

/// Returns why the line isn't cleared, as a line.
pub fn clear_refusal_name(refusal: StartRefusal) -> &'static [u8]
    ensures { result.now ≡ clear_refusal_text refusal }
{
    match refusal {
        StartRefusal::NotHalted => b"not halted\n",
        StartRefusal::Untaken => b"untaken\n",
    }
}

/// Returns why a message isn't accepted, as a line.
pub fn send_refusal_name(refusal: SendRefusal) -> &'static [u8]
    ensures { result.now ≡ send_refusal_text refusal }
{
    match refusal {
        SendRefusal::WrongState => b"send refused WrongState\n",
        SendRefusal::Empty => b"send refused Empty\n",
        SendRefusal::TooLong => b"send refused TooLong\n",
        SendRefusal::WindowFull => b"send refused WindowFull\n",
    }
}

/// Returns whether a timer expired, as a line.
pub fn expired_name(was_on: bool) -> &'static [u8]
    ensures { result.now ≡ expired_text was_on }
{
    if was_on { b"expired\n" } else { b"timer off\n" }
}

fn write_notices<W: Sink>(page: &mut Page, writer: &mut W, who: &[u8], notices: &[Notice])
    ensures { HandsOver (output_of W.broken W.contents writer.old page.old)
        (output_of W.broken W.contents writer.new page.new)
        (flat_map (notice_line who.now) notices.now) }
{
    for notice in notices {
        write_notice(page, writer, who, *notice);
    }
}

/// Writes a line with a number at its end.
pub fn write_counted<W: Sink>(
    page: &mut Page,
    writer: &mut W,
    who: &[u8],
    words: &[u8],
    number: u64,
)
    ensures { HandsOver (output_of W.broken W.contents writer.old page.old)
        (output_of W.broken W.contents writer.new page.new)
        (counted_line who.now words.now number) }
{
    page.write(writer, who);
    page.write(writer, words);
    write_number(page, writer, number);
    page.write(writer, b"\n");
}

/// Writes a line of words only, with its end.
pub fn write_plain<W: Sink>(page: &mut Page, writer: &mut W, who: &[u8], words: &[u8])
    ensures { HandsOver (output_of W.broken W.contents writer.old page.old)
        (output_of W.broken W.contents writer.new page.new) (who.now ++ words.now) }
{
    page.write(writer, who);
    page.write(writer, words);
}

/// Writes a line with bytes at its end.
pub fn write_bytes<W: Sink>(page: &mut Page, writer: &mut W, who: &[u8], words: &[u8], bytes: &[u8])
    ensures { HandsOver (output_of W.broken W.contents writer.old page.old)
        (output_of W.broken W.contents writer.new page.new)
        (bytes_line who.now words.now bytes.now) }
{
    page.write(writer, who);
    page.write(writer, words);
    write_hex(page, writer, bytes);
    page.write(writer, b"\n");
}

/// Writes the text of a reply.
#[tactic(auto, unfolding(crate::specs::ScriptText::reply_text))]
pub fn write_reply<W: Sink>(page: &mut Page, writer: &mut W, who: &[u8], reply: &Reply)
    ensures { HandsOver (output_of W.broken W.contents writer.old page.old)
        (output_of W.broken W.contents writer.new page.new) (reply_text who.now reply.now) }
{
    match reply {
        Reply::Started(dropped) => {
            write_counted(page, writer, who, b"started dropped=", *dropped as u64);
        }
        Reply::StartRefused(refusal) => {
            write_plain(page, writer, who, start_refusal_name(*refusal));
        }
        Reply::Halted => write_plain(page, writer, who, b"halted\n"),
        Reply::Accepted(number) => {
            write_counted(page, writer, who, b"accepted ", number.0 as u64);
        }
        Reply::SendRefused(refusal) => write_plain(page, writer, who, send_refusal_name(*refusal)),
        Reply::Wrote(bytes) => write_bytes(page, writer, who, b"wrote ", bytes.as_slice()),
        Reply::Idle => write_plain(page, writer, who, b"idle\n"),
        Reply::Notices(notices) => write_notices(page, writer, who, notices.as_slice()),
        Reply::Expired(was_on) => write_plain(page, writer, who, expired_name(*was_on)),
        Reply::Took(message) => write_bytes(page, writer, who, b"took ", message.as_slice()),
        Reply::Nothing => write_plain(page, writer, who, b"nothing\n"),
        Reply::Cleared => write_plain(page, writer, who, b"cleared\n"),
        Reply::ClearRefused(refusal) => {
            write_plain(page, writer, who, clear_refusal_name(*refusal));
        }
    }
}

fn timer_name(on: bool) -> &'static [u8]
    ensures { result.now ≡ timer_text on }
{
    if on { b" timer=on\n" } else { b" timer=off\n" }
}

/// Writes the state and the numbers of a station.
fn write_numbers<W: Sink>(page: &mut Page, writer: &mut W, station: &Station)
    ensures { HandsOver (output_of W.broken W.contents writer.old page.old)
        (output_of W.broken W.contents writer.new page.new)
        (numbers_text station.now.core.station) }
{
    let numbers = station.numbers();
    page.write(writer, state_name(station.state()));
    page.write(writer, b" R=");
    write_number(page, writer, numbers.r.0);
    page.write(writer, b" N=");
    write_number(page, writer, numbers.n.0);
    page.write(writer, b" A=");
    write_number(page, writer, numbers.a.0);
    page.write(writer, b" T=");
    write_number(page, writer, numbers.t.0);
}

/// Writes the line of a station.
pub fn write_station<W: Sink>(page: &mut Page, writer: &mut W, who: &[u8], station: &Station)
    ensures { HandsOver (output_of W.broken W.contents writer.old page.old)
        (output_of W.broken W.contents writer.new page.new)
        (station_line who.now station.now.core.station) }
{
    page.write(writer, who);
    write_numbers(page, writer, station);
    page.write(writer, b" out=");
    write_number(page, writer, station.outgoing());
    page.write(writer, b" in=");
    write_number(page, writer, station.waiting());
    page.write(writer, timer_name(station.timer_on()));
}

/// Returns how a settle ended, as the end of its line.
fn settled_name(quiet: bool) -> &'static [u8]
    ensures { result.now ≡ quiet_text quiet }
{
    if quiet { b" quiet\n" } else { b" busy\n" }
}

/// Writes the line of a settle.
pub fn write_settled<W: Sink>(page: &mut Page, writer: &mut W, exchanges: u32, quiet: bool)
    ensures { HandsOver (output_of W.broken W.contents writer.old page.old)
        (output_of W.broken W.contents writer.new page.new) (settled_text exchanges quiet) }
{
    page.write(writer, b"settled ");
    write_number(page, writer, exchanges);
    page.write(writer, settled_name(quiet));
}

/// Returns how a recovery ended, as the end of its line.
fn done_name(is_done: bool) -> &'static [u8]
    ensures { result.now ≡ done_text is_done }
{
    if is_done { b"done\n" } else { b"unfinished\n" }
}

fn write_count<W: Sink>(page: &mut Page, writer: &mut W, exchanges: u32)
    ensures { HandsOver (output_of W.broken W.contents writer.old page.old)
        (output_of W.broken W.contents writer.new page.new) (count_text exchanges) }
{
    write_number(page, writer, exchanges);
    page.write(writer, b" ");
}

/// Writes the exchanges of each settle of a recovery.
fn write_counts<W: Sink>(page: &mut Page, writer: &mut W, counts: &[u32])
    ensures { HandsOver (output_of W.broken W.contents writer.old page.old)
        (output_of W.broken W.contents writer.new page.new) (flat_map count_text counts.now) }
{
    for exchanges in counts {
        write_count(page, writer, *exchanges);
    }
}

/// Writes the line of a recovery.
pub fn write_recovered<W: Sink>(page: &mut Page, writer: &mut W, exchanges: &[u32], is_done: bool)
    ensures { HandsOver (output_of W.broken W.contents writer.old page.old)
        (output_of W.broken W.contents writer.new page.new)
        (recovered_text exchanges.now is_done) }
{
    page.write(writer, b"recovered ");
    write_counts(page, writer, exchanges);
    page.write(writer, done_name(is_done));
}

/// Returns the result of damaging a byte.
pub fn damage_name(is_empty: bool, is_there: bool) -> &'static [u8]
    ensures { result.now ≡ damage_text is_empty is_there }
{
    if is_empty {
        b"empty\n"
    } else if is_there {
        b"damaged\n"
    } else {
        b"no byte\n"
    }
}
