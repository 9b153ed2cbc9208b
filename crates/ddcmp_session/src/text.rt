//! The text that a session writes.
ghost use Rattle.std.specs.Prelude.{◌≡◌, ◌+◌, ◌*◌, ◌<◌, ◌≤◌, ◌++◌, [], codes, length};
ghost use Rattle.hex.specs.Hex.{encode_lower};
ghost use Rattle.ddcmp_io.specs.Written.{HandsOver};
ghost use Rattle.ddcmp_session.specs.EndText.{totals_text, end_line, end_text};
ghost use Rattle.ddcmp_streams.specs.Queued.{queued, paged};
ghost use Rattle.ddcmp_session.specs.Reports.{bytes_words, report_members, report_text};
ghost use Rattle.ddcmp_session.specs.Reports.{silence_at_start};
ghost use Rattle.ddcmp_session.specs.Text.{Puts, event_text, mail_text, line_end_text};
ghost use Rattle.ddcmp_session.specs.Text.{line_end_words, lost_line, lost_words, notice_words};
ghost use Rattle.ddcmp_station.specs.CountersText.{counters_line};
ghost use Rattle.ddcmp_station.specs.StationText.{notice_line, number_text};

use crate::line_end::LineEnd;
use ddcmp_io::text::{put_digits, write_number};
use ddcmp_io::{ByteQueue, Page};
use ddcmp_station::{
    Layout, Link, Notice, notice_name, notice_number, state_name, write_counter, write_counters,
    write_counts, write_notice,
};
use ddcmp_streams::MessageForm;
use itoa::Buffer;

/// The longest line of a notice, in bytes.
pub(crate) const NOTICE_ROOM: usize = 48;

/// The longest line that reports a loss, in bytes.
pub(crate) const LOST_ROOM: usize = 16;

/// The room for a notice, for a report of what it drops, and for one of what is lost if the line
/// ends then.
pub(crate) const LINE_ROOM: usize = NOTICE_ROOM + 2 * LOST_ROOM;

/// The room that received messages leave for the notices of what is received after them.
pub(crate) const NOTICES_ROOM: usize = 65536;

/// The room for the last lines, with all counters.
pub(crate) const END_ROOM: usize = 4096;

/// Returns the room that the text of a message of at most `max` bytes needs.
pub(crate) fn text_room(max: u16) -> usize
    ensures { result ≡ 2 * max + LINE_ROOM }
{
    2 * max as usize + LINE_ROOM
}

/// Returns the room in which a message of at most `max` bytes is delivered: that of its text, and
/// what it leaves for notices.
pub(crate) fn mail_room(max: u16) -> usize
    ensures { result ≡ 2 * max + LINE_ROOM + NOTICES_ROOM }
{
    text_room(max) + NOTICES_ROOM
}

/// Appends bytes for which there is room.
fn put(out: &mut ByteQueue, bytes: &[u8])
    ensures { Puts bytes.now out.old out.new }
{
    if bytes.len() <= out.room() {
        out.push(bytes);
    }
}

/// How many bytes are converted to digits at once.
const CHUNK: usize = 512;

/// Appends the digits of at most `CHUNK` bytes.
fn put_chunk(out: &mut ByteQueue, bytes: &[u8])
    requires { length bytes.now ≤ CHUNK }
    ensures { Puts (encode_lower bytes.now) out.old out.new }
{
    let mut chunk = [0; 2 * CHUNK];
    let digits = &mut chunk[..2 * bytes.len()];
    put_digits(bytes, digits);
    put(out, digits);
}

/// Appends the digits of bytes.
fn put_hex(out: &mut ByteQueue, bytes: &[u8])
    ensures { Puts (encode_lower bytes.now) out.old out.new }
{
    let mut at = 0;
    while at < bytes.len() {
        let end = at + CHUNK.min(bytes.len() - at);
        put_chunk(out, &bytes[at..end]);
        at = end;
    }
}

/// Writes a received message as a line of its digits.
fn write_mail_line(out: &mut ByteQueue, message: &[u8])
    ensures { Puts (codes "mail " ++ encode_lower message.now ++ codes "\n") out.old out.new }
{
    put(out, b"mail ");
    put_hex(out, message);
    put(out, b"\n");
}

/// Writes a received message: a line of its digits, or its bytes after its length.
pub(crate) fn write_mail(out: &mut ByteQueue, form: MessageForm, message: &[u8])
    requires { length message.now < 65536 }
    ensures puts { Puts (mail_text form message.now) out.old out.new }
    ensures short { length (mail_text form message.now) ≤ 2 * length message.now + LINE_ROOM }
{
    match form {
        MessageForm::Digits | MessageForm::EventLines => write_mail_line(out, message),
        MessageForm::Binary | MessageForm::Events => {
            let length = u16::try_from(message.len()).unwrap_or(u16::MAX);
            put(out, &length.to_be_bytes());
            put(out, message);
        }
    }
}

/// Appends a number, if there is one.
fn put_number(out: &mut ByteQueue, number: Option<u8>)
    ensures puts { Puts (number_text number) out.old out.new }
    ensures short { length (number_text number) ≤ 3 }
{
    if let Some(number) = number {
        let mut digits = Buffer::new();
        put(out, digits.format(number).as_bytes());
    }
}

/// Writes the line of a notice.
pub(crate) fn write_notice_line(out: &mut ByteQueue, notice: Notice)
    ensures puts { Puts (notice_line [] notice) out.old out.new }
    ensures short { length (notice_line [] notice) ≤ NOTICE_ROOM }
{
    put(out, b"notice ");
    put(out, notice_name(notice));
    put_number(out, notice_number(notice));
    put(out, b"\n");
}

/// Writes how many accepted messages were dropped.
pub(crate) fn write_lost(out: &mut ByteQueue, lost: u8)
    ensures puts { Puts (lost_line lost) out.old out.new }
    ensures short { length (lost_line lost) ≤ LOST_ROOM }
{
    put(out, b"lost ");
    put_number(out, Some(lost));
    put(out, b"\n");
}

/// The bit of a length that marks an event.
const EVENT: u16 = 0x8000;

/// The longest text of an event, in bytes.
const EVENT_TEXT: usize = NOTICE_ROOM - 1;

/// Writes an event among messages in binary.
fn write_event(out: &mut ByteQueue, text: &[u8], name: &[u8], number: Option<u8>)
    requires { length text.now + length name.now ≤ EVENT_TEXT }
    ensures puts { Puts (event_text (text.now ++ name.now ++ number_text number)) out.old out.new }
    ensures short { length (number_text number) ≤ 3 }
{
    let mut buffer = Buffer::new();
    let digits = match number {
        Some(number) => buffer.format(number).as_bytes(),
        None => b"",
    };
    let length = text.len() + name.len() + digits.len();
    put(out, &(EVENT + length as u16).to_be_bytes());
    put(out, text);
    put(out, name);
    put(out, digits);
}

/// Writes a notice as an event.
pub(crate) fn write_notice_event(out: &mut ByteQueue, notice: Notice)
    ensures puts { Puts (event_text (notice_words notice)) out.old out.new }
    ensures short { length (event_text (notice_words notice)) ≤ NOTICE_ROOM + 1 }
{
    write_event(out, b"notice ", notice_name(notice), notice_number(notice));
}

/// Writes how many accepted messages were dropped as an event.
pub(crate) fn write_lost_event(out: &mut ByteQueue, lost: u8)
    ensures puts { Puts (event_text (lost_words lost)) out.old out.new }
    ensures short { length (event_text (lost_words lost)) ≤ LOST_ROOM }
{
    write_event(out, b"lost ", b"", Some(lost));
}

/// What the words of how a line ended begin with.
const LINE_DOWN: &[u8] = b"line down: ";

/// Writes how a line ended, if events are among the messages.
pub(crate) fn write_line_end(out: &mut ByteQueue, form: MessageForm, how: LineEnd)
    ensures puts { Puts (line_end_text form how) out.old out.new }
    ensures short { length (line_end_text form how) + LOST_ROOM ≤ LINE_ROOM }
{
    let words = how.words().as_bytes();
    match form {
        MessageForm::Digits | MessageForm::Binary => {}
        MessageForm::Events => write_event(out, LINE_DOWN, words, None),
        MessageForm::EventLines => {
            put(out, LINE_DOWN);
            put(out, words);
            put(out, b"\n");
        }
    }
}

/// Writes the line of a notice to standard error.
pub(crate) fn report_notice(out: &mut ByteQueue, notice: Notice)
    ensures { HandsOver (queued out.old) (queued out.new) (notice_line [] notice) }
{
    let mut page = Page::new();
    write_notice(&mut page, out, b"", notice);
    let _is_whole = page.flush(out);
}

/// Writes the counters of a link.
pub(crate) fn write_counters_line(out: &mut ByteQueue, link: &Link)
    ensures { HandsOver (queued out.old) (queued out.new)
        (counters_line [] link.now.station.core.counters) }
{
    let mut page = Page::new();
    write_counters(&mut page, out, b"", link.counters());
    let _is_whole = page.flush(out);
}

/// Writes the line of the state and the totals of a link.
fn write_end_line(page: &mut Page, out: &mut ByteQueue, link: &Link)
    ensures { HandsOver (paged out.old page.old) (paged out.new page.new) (end_line link.now) }
{
    page.write(out, b"state=");
    page.write(out, state_name(link.state()));
    write_totals(page, out, Layout::Text, link);
    page.write(out, b"\n");
}

/// Writes the last lines of a run: the state and the totals, after the counters if these are asked
/// for.
pub(crate) fn write_end(out: &mut ByteQueue, link: &Link, counted: bool)
    ensures { HandsOver (queued out.old) (queued out.new) (end_text counted link.now) }
{
    let mut page = Page::new();
    if counted {
        write_counters(&mut page, out, b"", link.counters());
    }
    write_end_line(&mut page, out, link);
    let _is_whole = page.flush(out);
}

/// Writes the state, the totals, the lost messages and the counters of a link in one line.
pub(crate) fn write_report(out: &mut ByteQueue, link: &Link, lost: u64)
    ensures { HandsOver (queued out.old) (queued out.new) (report_text lost link.now) }
{
    let mut page = Page::new();
    page.write(out, b"report state=");
    page.write(out, state_name(link.state()));
    write_totals(&mut page, out, Layout::Text, link);
    write_counter(&mut page, out, Layout::Text, b"lost", lost);
    write_counters(&mut page, out, b" ", link.counters());
    let _is_whole = page.flush(out);
}

/// Writes the same as the members of a JSON object, and its end.
pub(crate) fn write_members(out: &mut ByteQueue, link: &Link, lost: u64)
    ensures { HandsOver (queued out.old) (queued out.new) (report_members lost link.now) }
{
    let mut page = Page::new();
    page.write(out, b"\"event\":\"report\",\"state\":\"");
    page.write(out, state_name(link.state()));
    page.write(out, b"\"");
    write_totals(&mut page, out, Layout::Json, link);
    write_counter(&mut page, out, Layout::Json, b"lost", lost);
    write_counts(&mut page, out, Layout::Json, link.counters());
    page.write(out, b"}\n");
    let _is_whole = page.flush(out);
}

/// Writes that next to nothing was received after this many STRTs.
pub(crate) fn write_silence(out: &mut ByteQueue, starts: u32, bytes: u64)
    ensures { HandsOver (queued out.old) (queued out.new) (silence_at_start starts bytes) }
{
    let mut page = Page::new();
    page.write(out, b"ddcmp: no reply yet: ");
    write_number(&mut page, out, starts);
    page.write(out, b" STRT sent, ");
    write_number(&mut page, out, bytes);
    page.write(out, bytes_words(bytes));
    let _is_whole = page.flush(out);
}

/// Returns the words after a number of bytes.
fn bytes_words(n: u64) -> &'static [u8]
    ensures { result.now ≡ bytes_words n }
{
    if n == 1 {
        b" byte received\n"
    } else {
        b" bytes received\n"
    }
}

/// Writes the totals of a link.
fn write_totals(page: &mut Page, out: &mut ByteQueue, layout: Layout, link: &Link)
    ensures { HandsOver (paged out.old page.old) (paged out.new page.new)
        (totals_text layout link.now) }
{
    let totals = link.totals();
    write_counter(page, out, layout, b"read", totals.read);
    write_counter(page, out, layout, b"written", totals.written);
    write_counter(page, out, layout, b"sent", totals.sent);
    write_counter(page, out, layout, b"acknowledged", totals.acknowledged);
    write_counter(page, out, layout, b"handed", totals.handed);
}
