//! Sessions over many days, by a clock of the test's own, beyond the overflow of 32 bits of
//! milliseconds: each wakes for its timers, its reports and its end, and never in between.
use crate::calls::{
    connects, delivers, end_of, ends_input, open_fails, pass_time, reads, sends, wake, wakes_at,
    wakes_without_line_at,
};
use ddcmp_session::{EndReason, LineKind, MessageForm, Options, Session};
use ddcmp_station::Config;
use std::process::Abort;

const DAY: u32 = 86_400;

const DAY_MS: u64 = 86_400_000;

/// Sixty days, in seconds and milliseconds.
const SIXTY: u32 = 60 * DAY;

const SIXTY_MS: u64 = 60 * DAY_MS;

/// When 32 bits of milliseconds overflow, after 49 days.
const WRAP_MS: u64 = 1 << 32;

/// A reply timer of a minute.
const MINUTE_MS: u32 = 60_000;

const TIMER_MS: u64 = 60_000;

/// Returns options for messages in digits over a connection.
fn options(timer_ms: u32, seconds: u32, report: u32) -> Options {
    Options {
        config: Config {
            window: 7,
            inbox: 8,
            max: 1500,
            syn: 0,
            restart: false,
        },
        timer_ms,
        attempts: 0,
        linger_ms: 500,
        baud: 0,
        seconds,
        report,
        form: MessageForm::Digits,
        maintenance: false,
        acknowledge_early: false,
        stay: false,
        awaits_end: true,
        again: true,
        counters: false,
        trace: None,
        clock: false,
        json: false,
    }
}

fn session(rt: &(impl Abort + AllocGlobal), options: Options) -> Session {
    let Ok(session) = Session::new(rt.alloc(), options, LineKind::Connect) else {
        panic!(rt; "no memory");
    };
    session
}

fn begun(rt: &(impl Abort + AllocGlobal), options: Options) -> Session {
    let mut session = session(rt, options);
    assert!(rt; connects(&mut session));
    session
}

/// Returns whether a moment is a whole number of periods after the start.
fn is_due(now: u64, period_ms: u64) -> bool {
    now > 0 && now.checked_rem(period_ms) == Some(0)
}

/// Takes what a session writes to standard error; returns whether it is a report, and whether it
/// ends with the line that there is no reply yet. Checks that there is nothing else.
fn takes_lines(rt: &impl Abort, session: &mut Session) -> (bool, bool) {
    let told = session.to_errors();
    let n = told.len();
    let is_report = told.starts_with(b"report state=");
    let is_silence = told.ends_with(b" STRT sent, 0 bytes received\n");
    let lines = told.iter().filter(|byte| **byte == b'\n').count();
    assert!(rt; lines == is_report as usize + is_silence as usize);
    session.errors_took(n);
    (is_report, is_silence)
}

/// Takes what a session writes to standard error; returns whether it is one report. Checks that
/// there is nothing else.
fn takes_report(rt: &impl Abort, session: &mut Session) -> bool {
    let (is_report, is_silence) = takes_lines(rt, session);
    assert!(rt; !is_silence);
    is_report
}

/// Wakes a session whose peer never replies at each of its moments until it ends; returns how often
/// it woke, reported, also that there is no reply, and when it ended. It sends when its timer
/// expires, and reports periodically.
fn sleeps(rt: &(impl Abort + AllocGlobal), options: Options) -> (u64, u64, u64, u64) {
    let mut session = begun(rt, options);
    let (mut wakes, mut reports, mut silences, mut now) = (0u64, 0u64, 0u64, 0u64);
    let period_ms = (options.report as u64).saturating_mul(1000);
    let timer_ms = options.timer_ms as u64;
    for _wake in 0..1_000_000u32 {
        wake(&mut session, now);
        let (has_reported, is_silence) = takes_lines(rt, &mut session);
        assert!(rt; has_reported == is_due(now, period_ms));
        reports = reports.saturating_add(has_reported as u64);
        silences = silences.saturating_add(is_silence as u64);
        if end_of(&session).is_some() {
            break;
        }
        let n = sends(&mut session);
        assert!(rt; (n > 0) == (now.checked_rem(timer_ms) == Some(0)));
        wake(&mut session, now);
        assert!(rt; wakes_at(&session) > now);
        now = wakes_at(&session);
        wakes = wakes.saturating_add(1);
    }
    assert!(rt; end_of(&session) == Some(EndReason::Time));
    (wakes, reports, silences, now)
}

/// A peer that never replies gets a STRT every three seconds, and the run ends in time. That there
/// is no reply is reported after 12 seconds, and then each minute.
#[test]
fn a_day_of_silence(rt: HostRuntime) {
    assert!(&rt; sleeps(&rt, options(3000, DAY, 0)) == (28_800, 0, 1440, DAY_MS));
    assert!(&rt; sleeps(&rt, options(3000, DAY, 3600)) == (28_800, 24, 1440, DAY_MS));
    // Every third report coincides with an expiry.
    assert!(&rt; sleeps(&rt, options(3000, DAY, 7)) == (37_028, 12_342, 1440, DAY_MS));
}

#[test]
fn sixty_days_of_silence(rt: HostRuntime) {
    let slept = sleeps(&rt, options(MINUTE_MS, SIXTY, DAY));
    // Each expiry from the fourth on is a minute after the one before.
    assert!(&rt; slept == (86_400, 60, 86_397, SIXTY_MS));
}

fn opens_at(session: &Session) -> u64 {
    session.opens_at()
}

/// Returns whether the run ends at this moment.
fn is_over(session: &Session, now: u64) -> bool {
    session.run_ends_at() <= now
}

/// Returns when the attempt of this number is made to open a line that never opens, in
/// milliseconds: with pauses of 1, 2, 4, 8, 16 and from then on 30 seconds.
fn tried_at(number: u64) -> u64 {
    let first = [0u64, 1000, 3000, 7000, 15_000];
    let at = usize::try_from(number).unwrap_or(usize::MAX);
    let later = number.saturating_sub(5).saturating_mul(30_000);
    first
        .get(at)
        .copied()
        .unwrap_or(later.saturating_add(31_000))
}

/// Attempts to open a line that never opens are made at their moments, with reports in between.
#[test]
fn sixty_days_without_a_line(rt: HostRuntime) {
    let rt = &rt;
    let mut session = session(rt, options(MINUTE_MS, SIXTY, 3600));
    let (mut wakes, mut reports, mut tries, mut now) = (0u64, 0u64, 0u64, 0u64);
    for _wake in 0..1_000_000u32 {
        pass_time(&mut session, now);
        let has_reported = takes_report(rt, &mut session);
        assert!(rt; has_reported == is_due(now, 3_600_000));
        reports = reports.saturating_add(has_reported as u64);
        if is_over(&session, now) {
            break;
        }
        let is_due = opens_at(&session) <= now;
        assert!(rt; is_due == (tried_at(tries) == now));
        if is_due {
            let _opening = open_fails(&mut session, now);
            tries = tries.saturating_add(1);
        }
        let next = wakes_without_line_at(&session, now);
        assert!(rt; next > now);
        now = next;
        wakes = wakes.saturating_add(1);
    }
    assert!(rt; (tries, reports, now) == (172_804, 1440, SIXTY_MS));
    // The last report coincides with the end.
    assert!(rt; wakes == 172_804 + 1439);
}

/// Passes what is pending for the line to the other end, which writes what it has received; returns
/// whether anything moved.
fn passes(from: &mut Session, to: &mut Session) -> bool {
    from.fill();
    let used = to.received(from.to_line());
    from.line_took(used);
    let _delivered = delivers(to);
    used > 0
}

/// Passes everything both ways.
fn settles(a: &mut Session, b: &mut Session) {
    for _turn in 0..10_000u32 {
        let there = passes(a, b);
        let back = passes(b, a);
        if !there && !back {
            break;
        }
    }
}

/// Takes what a session writes to standard output; returns how many messages that has.
fn takes_mails(session: &mut Session) -> u64 {
    let told = session.to_output();
    let n = told.len();
    let mails = told.iter().filter(|byte| **byte == b'm').count();
    session.output_took(n);
    mails as u64
}

/// Two ends of a line without loss.
#[derive(Drop)]
struct Two {
    a: Session,
    b: Session,
    /// How many messages `b` has written.
    mails: u64,
}

impl Two {
    fn new(rt: &(impl Abort + AllocGlobal), of_a: Options, of_b: Options) -> Two {
        let mut two = Two {
            a: begun(rt, of_a),
            b: begun(rt, of_b),
            mails: 0,
        };
        two.wake(0);
        two
    }

    /// Wakes both ends at this moment, and passes what they send; messages are acknowledged once
    /// they are written.
    fn wake(&mut self, now: u64) {
        wake(&mut self.a, now);
        wake(&mut self.b, now);
        settles(&mut self.a, &mut self.b);
        self.mails = self.mails.saturating_add(takes_mails(&mut self.b));
        settles(&mut self.a, &mut self.b);
        wake(&mut self.a, now);
        wake(&mut self.b, now);
    }

    /// Returns the next moment at which one of them wakes.
    fn wakes_at(&self) -> u64 {
        wakes_at(&self.a).min(wakes_at(&self.b))
    }

    /// Checks that both report at this moment, or neither does.
    fn report_if(&mut self, rt: &impl Abort, is_due: bool) {
        assert!(rt; takes_report(rt, &mut self.a) == is_due);
        assert!(rt; takes_report(rt, &mut self.b) == is_due);
    }
}

/// Two ends with a message every six hours wake only for their reports. One message is lost just
/// before 32 bits of milliseconds overflow: its timer expires just after that. The last one is
/// acknowledged; then its sender, which has received no message, ends at once, and the other end
/// after it has lingered.
#[test]
fn sixty_days_of_little_traffic(rt: HostRuntime) {
    let rt = &rt;
    let both = options(MINUTE_MS, SIXTY, DAY);
    let mut two = Two::new(rt, both, both);
    let every_ms = DAY_MS / 4;
    let (mut sent, mut next) = (0u64, 1u64);
    for _wake in 0..10_000u32 {
        let now = two.wakes_at().min(next);
        assert!(rt; now == next || is_due(now, DAY_MS));
        if now > 59 * DAY_MS {
            break;
        }
        two.wake(now);
        two.report_if(rt, is_due(now, DAY_MS));
        if now == next {
            assert!(rt; reads(&mut two.a, b"6162\n") == 5);
            next = next.saturating_add(every_ms);
            sent = sent.saturating_add(1);
            two.wake(now);
        }
        if now < WRAP_MS && next >= WRAP_MS && now.saturating_add(every_ms) == next {
            loses_one(rt, &mut two);
            sent = sent.saturating_add(1);
        }
        assert!(rt; two.mails == sent);
    }
    assert!(rt; sent == 59 * 4 + 1);
    ends(rt, &mut two, next);
    assert!(rt; two.mails == sent.saturating_add(1));
}

/// Loses a message a second before 32 bits of milliseconds overflow; it is retransmitted when its
/// timer expires.
fn loses_one(rt: &impl Abort, two: &mut Two) {
    let before = WRAP_MS - 1000;
    assert!(rt; before < two.wakes_at());
    two.wake(before);
    assert!(rt; reads(&mut two.a, b"63\n") == 3);
    assert!(rt; sends(&mut two.a) > 0);
    two.wake(before);
    assert!(rt; two.wakes_at() == before + TIMER_MS);
    two.wake(before + TIMER_MS);
}

/// Ends both inputs after a last message.
fn ends(rt: &impl Abort, two: &mut Two, now: u64) {
    assert!(rt; reads(&mut two.a, b"64\n") == 3);
    two.wake(now);
    ends_input(&mut two.a);
    ends_input(&mut two.b);
    two.wake(now);
    assert!(rt; end_of(&two.a) == Some(EndReason::Done));
    assert!(rt; end_of(&two.b).is_none());
    assert!(rt; wakes_at(&two.b) == now.saturating_add(500));
    wake(&mut two.b, now.saturating_add(499));
    assert!(rt; end_of(&two.b).is_none());
    wake(&mut two.b, now.saturating_add(500));
    assert!(rt; end_of(&two.b) == Some(EndReason::Done));
}

/// A message that the peer refuses is retransmitted after each pause: these double from 10 ms on,
/// up to the reply timer. The peer holds its NAKs back, too: for its own reply timer, of a
/// millisecond.
#[test]
fn thirty_days_of_refusals(rt: HostRuntime) {
    let rt = &rt;
    let long = options(MINUTE_MS, SIXTY / 2, 0);
    let mut short = long;
    short.config.max = 1;
    short.timer_ms = 1;
    let mut two = Two::new(rt, long, short);
    assert!(rt; reads(&mut two.a, b"6162\n") == 5);
    let (mut wakes, mut now) = (0u64, 0u64);
    for _wake in 0..1_000_000u32 {
        two.wake(now);
        if end_of(&two.a).is_some() {
            break;
        }
        now = two.wakes_at();
        wakes = wakes.saturating_add(1);
    }
    // There are 13 pauses that double and 43,198 or 43,199 of a minute, with two wakes for each.
    assert!(rt; 86_400 < wakes && wakes < 86_440);
    assert!(rt; (now, two.mails) == (SIXTY_MS / 2, 0));
    assert!(rt; end_of(&two.a) == Some(EndReason::Time));
    assert!(rt; end_of(&two.b) == Some(EndReason::Time));
}
