//! How the run of a session proceeds: when its line is left, and when it is opened again.
ghost use Rattle.std.specs.Prelude.{◌≡◌, ◌<◌, true};
ghost use Rattle.ddcmp_session.specs.Course.{after_awaited, after_connecting, after_entering};
ghost use Rattle.ddcmp_session.specs.Course.{after_looked, after_moment, after_noise};
ghost use Rattle.ddcmp_session.specs.Course.{after_opening_failed, after_progress, after_state};
ghost use Rattle.ddcmp_session.specs.Course.{after_unheard};
ghost use Rattle.ddcmp_session.specs.Course.{after_writing, course_begun, expiry_counted};
ghost use Rattle.ddcmp_session.specs.Course.{lost_more, one_ready, one_unready, unready_by};
ghost use Rattle.ddcmp_session.specs.Course.{reports_at, sending_ms, silence_counted, try_counted};

mod pauses;
mod progress;
mod refusals;
mod start;

use ddcmp_frame::Nak;
use ddcmp_station::{Link, NakCounts, Notice, State};
use pauses::{naks_of, refusal_between};
use progress::{Progress, goes_on, is_at, progress_of};
pub(crate) use start::Unstarted;

/// The shortest and the longest pause before a line is opened again, in seconds.
const LEAST_SECONDS: u64 = 1;

const MOST_SECONDS: u64 = 30;

/// How many bytes written to a serial device the system holds at most.
const HELD_BYTES: u64 = 4096;

/// How many replies to frames that bring nothing new keep a line whose session is done.
const MOST_REPLIES: u8 = 7;

/// What a peer sends wrong.
#[derive(Clone, Copy, PartialEq, Eq)]
pub(crate) enum Wrong {
    /// Its messages are too long.
    TooLong,
    /// All of its frames come damaged.
    Damaged,
}

/// How the run of a session proceeds. All moments are in milliseconds since the session was made.
///
/// The line is to be left after too many tries in a row. Before the station runs a try is an expiry
/// of the reply timer without progress: no message was acknowledged, none was received and the
/// startup handshake made no step. Once it runs it is an expiry without a received byte: a peer
/// whose output isn't read acknowledges nothing new, but it replies. If the peer refuses messages,
/// a pause as long as the reply timer without progress is a try, too.
///
/// After a NAK the station retransmits its messages at once, which repairs what a line has damaged.
/// If a second NAK is received before the peer has acknowledged a message, they are held back for
/// 10 ms: a peer that is out of buffers for a moment gets them soon. Each further pause is twice as
/// long, up to the time of the reply timer, until the peer acknowledges a message: a peer that
/// refuses a message, such as one that is too long for it, gets at most a window of messages in
/// each pause. A NAK during a pause doesn't prolong it. NAKs in reply to REP don't count, since
/// REPs are sent at the pace of the reply timer anyway.
///
/// NAKs that this end sends have such pauses, too: the first one of a frame that came damaged or
/// too long repairs at once, and each further one is held back, until there is progress.
#[derive(Clone, Copy)]
pub(crate) struct Course {
    /// The last moment that was passed.
    pub(crate) moment: u64,
    /// When the next report of the counters is due.
    pub(crate) report_at: u64,
    /// The moment since when the peer seems to be done.
    pub(crate) quiet_since: u64,
    /// How many replies there were since then to frames that brought nothing new, at most 7.
    pub(crate) replies: u8,
    /// How many tries there were in a row without progress, before the station ran or since the
    /// peer refuses messages.
    pub(crate) tries: u32,
    /// Why the peer refused the last message, if that was the last try.
    pub(crate) refusal: Option<Nak>,
    /// How many tries of a running station there were since a byte was received.
    pub(crate) unheard: u32,
    /// How many times the reply timer expired since a byte was received and all of the input was
    /// read, and when it did so first.
    pub(crate) unanswered: u32,
    pub(crate) unanswered_since: u64,
    /// The progress of the link over this line.
    pub(crate) progress: Option<Progress>,
    /// How many messages had been acknowledged before the last NAK.
    pub(crate) acknowledged: u64,
    /// Whether a NAK was received since the last message was acknowledged.
    pub(crate) is_refused: bool,
    /// Until when messages are held back, if they are.
    pub(crate) pause: Option<u64>,
    /// The last such pause since a message was acknowledged, in milliseconds; 0 if there was none.
    pub(crate) pause_ms: u64,
    /// How many NAKs of frames that came damaged or too long had been sent.
    pub(crate) naks: u64,
    /// Until when the next such NAK is held back, if it is.
    pub(crate) nak_pause: Option<u64>,
    /// The last such pause since there was progress, in milliseconds; 0 if there was none.
    pub(crate) nak_pause_ms: u64,
    /// Whether it was reported that the peer's messages are too long, and that frames come damaged.
    pub(crate) told_too_long: bool,
    pub(crate) told_damaged: bool,
    /// How many STRTs were sent over this line before the reply timer expired last.
    pub(crate) starts: u32,
    /// How many bytes had been received when the link was fed last, and when it got this line.
    pub(crate) read: u64,
    pub(crate) read_before: u64,
    /// How many NAKs with reason 16 (message too long) had been received when that was reported
    /// last, and from when on it is reported again, as NAK 8 (no buffer) is.
    pub(crate) told_refused_long: u32,
    pub(crate) refused_long_at: u64,
    pub(crate) no_buffer_at: u64,
    /// From when on silence, and noise, before the peer's start are reported again.
    pub(crate) silence_at: u64,
    pub(crate) noise_at: u64,
    /// How many bytes had been written to the line at the last moment, and when the reply timer
    /// expired last.
    pub(crate) written: u64,
    pub(crate) written_then: u64,
    /// Until when bytes that a serial device took may be underway.
    pub(crate) sends_until: u64,
    /// The last pause before the line was opened again, in seconds.
    pub(crate) retry_seconds: u64,
    /// When the line may be opened.
    pub(crate) opens_at: u64,
    /// Whether the peer has begun the startup handshake over the line that is open.
    pub(crate) peer_has_started: bool,
    /// Whether the station has run over the line that is open, and over any line.
    pub(crate) has_run_here: bool,
    pub(crate) has_run: bool,
    /// Whether the line is to be left, since the peer has restarted or a restart is asked for.
    pub(crate) leaves: bool,
    /// How many events that began an incarnation the program hasn't acknowledged.
    pub(crate) unready: u64,
    /// Whether it has acknowledged the next one already, which it may while nothing runs.
    pub(crate) ready_ahead: bool,
    /// Whether a command ended the input.
    pub(crate) quits: bool,
    /// Whether a command halted the link until another one starts it.
    pub(crate) halted: bool,
    /// How many messages were read and will never be acknowledged.
    pub(crate) lost: u64,
}

impl Course {
    /// Makes that of a new session, which reports its counters every `report_ms` milliseconds, if
    /// that isn't 0.
    pub(crate) fn begun(report_ms: u64) -> Course
        ensures { result ≡ course_begun report_ms }
    {
        Course {
            moment: 0,
            report_at: if report_ms == 0 { u64::MAX } else { report_ms },
            quiet_since: 0,
            replies: 0,
            tries: 0,
            refusal: None,
            unheard: 0,
            unanswered: 0,
            unanswered_since: 0,
            progress: None,
            acknowledged: 0,
            is_refused: false,
            pause: None,
            pause_ms: 0,
            naks: 0,
            nak_pause: None,
            nak_pause_ms: 0,
            told_too_long: false,
            told_damaged: false,
            starts: 0,
            read: 0,
            read_before: 0,
            told_refused_long: 0,
            refused_long_at: 0,
            no_buffer_at: 0,
            silence_at: 0,
            noise_at: 0,
            written: 0,
            written_then: 0,
            sends_until: 0,
            retry_seconds: 0,
            opens_at: 0,
            peer_has_started: false,
            has_run_here: false,
            has_run: false,
            leaves: false,
            unready: 0,
            ready_ahead: false,
            quits: false,
            halted: false,
            lost: 0,
        }
    }

    /// Notes the moment, and returns whether a report is due. The next one is due a whole number of
    /// periods after this one was.
    pub(crate) fn pass(&mut self, now: u64, report_ms: u64) -> bool
        ensures state { self.new ≡ after_moment report_ms now self.old }
        ensures due { result ≡ reports_at report_ms now self.old }
    {
        self.moment = now;
        if report_ms == 0 || now < self.report_at {
            return false;
        }
        let late = (now - self.report_at) % report_ms;
        self.report_at = (now - late).saturating_add(report_ms);
        true
    }

    /// Notes how many bytes were written to a line of this speed.
    pub(crate) fn note_written(&mut self, written: u64, baud: u32)
        requires speed { 0 < baud }
        ensures { self.new ≡ after_writing baud written self.old }
    {
        let more = sending_ms(baud, written.saturating_sub(self.written));
        let until = self.sends_until.max(self.moment).saturating_add(more);
        let most = self.moment.saturating_add(sending_ms(baud, HELD_BYTES));
        self.sends_until = until.min(most);
        self.written = written;
    }

    /// Starts on a line.
    pub(crate) fn connect(&mut self)
        ensures { self.new ≡ after_connecting self.old }
    {
        self.tries = 0;
        self.refusal = None;
        self.unheard = 0;
        self.unanswered = 0;
        self.progress = None;
        self.is_refused = false;
        self.pause = None;
        self.pause_ms = 0;
        self.nak_pause = None;
        self.nak_pause_ms = 0;
        self.starts = 0;
        self.read_before = self.read;
        self.peer_has_started = false;
        self.has_run_here = false;
        self.leaves = false;
        self.quiet_since = self.moment;
    }

    /// Starts on a line in maintenance mode, if the station entered it; there is no startup
    /// handshake.
    pub(crate) fn enter(&mut self, enters: bool)
        ensures { self.new ≡ after_entering enters self.old }
    {
        self.connect();
        self.has_run |= enters;
    }

    /// Counts a try, and notes the reason if the peer refused it.
    pub(crate) fn count_try(&mut self, refusal: Option<Nak>)
        ensures { self.new ≡ try_counted refusal self.old }
    {
        self.tries = self.tries.saturating_add(1);
        self.refusal = refusal;
    }

    /// Counts a try of a running station, whose peer isn't heard.
    fn count_silence(&mut self)
        ensures { self.new ≡ silence_counted self.old }
    {
        self.unheard = self.unheard.saturating_add(1);
        self.refusal = None;
    }

    /// Counts an expiry of the reply timer as a try. `runs` means that the station runs, and
    /// `is_read` that all of the input was read.
    pub(crate) fn count_expiry(&mut self, runs: bool, is_read: bool)
        ensures { self.new ≡ expiry_counted runs is_read self.old }
    {
        if runs {
            self.count_silence();
        } else {
            self.count_try(None);
        }
        if !is_read {
            return;
        }
        if self.unanswered == 0 {
            self.unanswered_since = self.moment;
        }
        self.unanswered = self.unanswered.saturating_add(1);
    }

    /// Notes that the line isn't read: what the peer may have to send isn't heard.
    pub(crate) fn stop_hearing(&mut self)
        ensures { self.new ≡ after_unheard self.old }
    {
        self.quiet_since = self.moment;
        self.unheard = 0;
        self.unanswered = 0;
    }

    /// Notes that the peer waits for an acknowledgement: it isn't quiet.
    pub(crate) fn keep_awaited(&mut self)
        ensures { self.new ≡ after_awaited true self.old }
    {
        self.quiet_since = self.moment;
    }

    /// Looks at a link after it was fed. `before` are the NAKs that it had received before;
    /// messages that the peer refuses again are held back for `timer_ms` at most.
    #[tactic(auto, unfolding(crate::specs::Course::after_looked))]
    pub(crate) fn look(&mut self, before: &NakCounts, link: &Link, timer_ms: u32)
        ensures { self.new ≡ after_looked timer_ms before.now link.now self.old }
    {
        self.unheard = 0;
        self.unanswered = 0;
        self.read = link.totals().read;
        self.note_acknowledged(link.totals().acknowledged);
        self.note_refusal(
            refusal_between(before, &link.counters().nak_received),
            timer_ms,
        );
        let progress = progress_of(link);
        self.note_naks(naks_of(&link.counters().nak_sent), progress, timer_ms);
        self.note_noise(link, progress);
        self.note_progress(progress);
        self.note_state(link.state());
    }

    /// Notes the moment if the handshake made a step or a message was received, after the first
    /// bytes of a line, and if the peer isn't done. A peer that asks again and again counts as done
    /// after 7 replies.
    fn note_noise(&mut self, link: &Link, progress: Progress)
        ensures { self.new ≡ after_noise link.now progress self.old }
    {
        if goes_on(progress, self.progress) {
            self.quiet_since = self.moment;
            self.replies = 0;
            return;
        }
        if !link.is_needed() {
            return;
        }
        if link.lost() > 0 {
            self.quiet_since = self.moment;
            self.replies = 0;
            return;
        }
        if link.is_delivered() {
            self.quiet_since = self.moment;
            return;
        }
        if self.replies < MOST_REPLIES {
            self.quiet_since = self.moment;
            self.replies += 1;
        }
    }

    /// Resets the number of tries if there was progress.
    fn note_progress(&mut self, progress: Progress)
        ensures { self.new ≡ after_progress progress self.old }
    {
        if !is_at(progress, self.progress) {
            self.progress = Some(progress);
            self.tries = 0;
            self.refusal = None;
        }
    }

    /// Notes how far the startup handshake is.
    fn note_state(&mut self, state: State)
        ensures { self.new ≡ after_state state self.old }
    {
        match state {
            State::Running | State::Maintenance => {
                self.peer_has_started = true;
                self.has_run_here = true;
                self.has_run = true;
            }
            State::AStart => self.peer_has_started = true,
            _ => {}
        }
    }

    /// Counts messages that were read and will never be acknowledged.
    pub(crate) fn lose(&mut self, count: u64)
        ensures { self.new ≡ lost_more count self.old }
    {
        self.lost = self.lost.saturating_add(count);
    }

    /// Counts a notice if it begins an incarnation.
    pub(crate) fn note_incarnation(&mut self, notice: Notice)
        ensures { self.new ≡ unready_by notice self.old }
    {
        match notice {
            Notice::Running | Notice::RunningAndHandedUp | Notice::Restarted(_) => {
                self.begin_incarnation();
            }
            _ => {}
        }
    }

    /// Counts an event that began an incarnation, unless the program has acknowledged it ahead.
    fn begin_incarnation(&mut self)
        ensures { self.new ≡ one_unready self.old }
    {
        if !self.ready_ahead {
            self.unready = self.unready.saturating_add(1);
        }
        self.ready_ahead = false;
    }

    /// Counts an acknowledgement of such an event: of the first that has none, or, if there is
    /// none and `is_idle`, of the next one.
    pub(crate) fn make_ready(&mut self, is_idle: bool)
        ensures { self.new ≡ one_ready is_idle self.old }
    {
        self.ready_ahead = self.ready_ahead || (is_idle && self.unready == 0);
        self.unready = self.unready.saturating_sub(1);
    }

    /// Doubles the pause before the line is opened again, since it couldn't be opened, or ended
    /// before its station ran, and returns it in seconds. It is 1 second at first, and 30 at most.
    pub(crate) fn retry_later(&mut self) -> u64
        ensures state { self.new ≡ after_opening_failed self.old }
        ensures seconds { result ≡ self.new.retry_seconds }
    {
        let doubled = 2 * self.retry_seconds.min(MOST_SECONDS);
        self.retry_seconds = doubled.clamp(LEAST_SECONDS, MOST_SECONDS);
        self.opens_at = self.moment.saturating_add(1000 * self.retry_seconds);
        self.retry_seconds
    }

    /// Lets the line be opened at once, and its peer be waited for from now on.
    pub(crate) fn retry_at_once(&mut self)
        ensures { self.new ≡ record self.old {
          retry_seconds = 0;
          opens_at = 0;
          quiet_since = self.old.moment;
        } }
    {
        self.retry_seconds = 0;
        self.opens_at = 0;
        self.quiet_since = self.moment;
    }
}

/// Returns how many milliseconds a line of this speed needs for so many bytes, of which the system
/// holds at most 4096.
fn sending_ms(baud: u32, bytes: u64) -> u64
    requires speed { 0 < baud }
    ensures { result ≡ sending_ms baud bytes }
{
    10_000 * bytes.min(HELD_BYTES) / baud as u64
}
