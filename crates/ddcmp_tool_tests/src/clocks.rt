//! A link over devices in memory: what it asks of them and when, and what it writes, also while the
//! clock of the day is set.
use crate::sessions::{append, options};
use ddcmp_io::Got;
use ddcmp_log::LogNotation;
use ddcmp_session::{
    Buffers, Devices, Down, LineKind, MessageForm, Options, Session, Transfer, Wanted, run_link,
};
use std::fmt::InlineText;
use std::process::Abort;

/// 10^9 seconds after 1970, in milliseconds: 2001-09-09T01:46:40Z.
const BEGAN: u64 = 1_000_000_000_000;

const HOUR_MS: u64 = 3_600_000;

/// What the devices do.
#[derive(Clone, Copy)]
struct Plan {
    /// The line isn't open before this moment.
    opens_at: u64,
    /// Whether each opening then succeeds; those after the last do.
    opens: &'static [bool],
    /// What is received over a line at once, and whether the line ends then.
    line: &'static [u8],
    line_ends: bool,
    /// How many bytes the output takes at once, or none if it is closed.
    output: Option<usize>,
    /// From when on standard error takes a line, and how long it is blocked after each.
    errors_at: u64,
    errors_ms: u64,
    /// When the clock of the day is set one hour forward, and two hours back.
    forward: u64,
    back: u64,
}

const PLAN: Plan = Plan {
    opens_at: 0,
    opens: &[],
    line: b"",
    line_ends: false,
    output: Some(usize::MAX),
    errors_at: 0,
    errors_ms: 0,
    forward: u64::MAX,
    back: u64::MAX,
};

/// The devices of a link whose input has no bytes and no end. Each wait lasts until a device is
/// ready that is wanted, or as long as it may.
#[derive(Drop)]
struct Clocks {
    plan: Plan,
    now: u64,
    /// How often the time of day was asked for, and a line was opened or not.
    asked: u64,
    tries: usize,
    /// Whether the line that is open was read.
    is_read: bool,
    /// From when on standard error takes a line.
    errors_at: u64,
    errors: Vec<u8>,
    output: Vec<u8>,
    /// The calls that open or close a line or wait, each in a line after its moment.
    calls: Vec<u8>,
}

impl Clocks {
    fn new(rt: &impl AllocGlobal, plan: Plan) -> Clocks {
        Clocks {
            plan,
            now: 0,
            asked: 0,
            tries: 0,
            is_read: false,
            errors_at: plan.errors_at,
            errors: Vec::new(rt.alloc()),
            output: Vec::new(rt.alloc()),
            calls: Vec::new(rt.alloc()),
        }
    }

    /// Notes a call, and a number of it.
    fn note(&mut self, call: &str, number: u64) {
        let now = InlineText::<20>::of(self.now);
        let number = InlineText::<20>::of(number);
        for text in [now.as_str(), call, number.as_str(), "\n"] {
            let _has_memory = self.calls.extend_from_slice(text.as_bytes());
        }
    }
}

impl Devices for Clocks {
    ghost use Rattle.std.specs.Prelude.{None};

    ghost traffic = { λ _. None };

    type Refusal = ();

    fn open_line(&mut self, _session: &mut Session) -> Result<bool, ()> {
        if self.now < self.plan.opens_at {
            return Ok(false);
        }
        let opens = self.plan.opens.get(self.tries).copied().unwrap_or(true);
        self.tries = self.tries.saturating_add(1);
        self.is_read = false;
        self.note(" opening ", self.tries as u64);
        if opens { Ok(true) } else { Err(()) }
    }

    fn report_retry(&mut self, _session: &mut Session, _refusal: (), seconds: u64) {
        self.note(" failed, retry in s: ", seconds);
    }

    fn close_line(&mut self) {
        self.note(" closing ", self.tries as u64);
    }

    fn read_input(&mut self, _space: &mut [u8]) -> Got {
        Got::Idle
    }

    fn may_read_line(&self) -> bool {
        true
    }

    fn read_line(&mut self, space: &mut [u8]) -> Transfer {
        if self.is_read || self.plan.line.is_empty() {
            return if self.plan.line_ends {
                Transfer::Ended(Down::Closed)
            } else {
                Transfer::Nothing
            };
        }
        self.is_read = true;
        let n = self.plan.line.len().min(space.len());
        space[..n].copy_from_slice(&self.plan.line[..n]);
        Transfer::Bytes(n)
    }

    fn report_read(&mut self, _session: &mut Session) {}

    fn write_line(&mut self, bytes: &[u8]) -> Transfer {
        Transfer::Bytes(bytes.len())
    }

    fn write_output(&mut self, bytes: &[u8]) -> Transfer {
        match self.plan.output {
            None => Transfer::Ended(Down::Closed),
            Some(0) => Transfer::Nothing,
            Some(most) => {
                let n = bytes.len().min(most);
                let _has_memory = self.output.extend_from_slice(&bytes[..n]);
                Transfer::Bytes(n)
            }
        }
    }

    fn write_errors(&mut self, bytes: &[u8]) -> Transfer {
        if self.now < self.errors_at {
            return Transfer::Nothing;
        }
        self.errors_at = self.now.saturating_add(self.plan.errors_ms);
        let line = bytes.split(|byte| *byte == b'\n').next().unwrap_or(bytes);
        let n = line.len().saturating_add(1).min(bytes.len());
        self.note(" error bytes ", n as u64);
        let _has_memory = self.errors.extend_from_slice(&bytes[..n]);
        Transfer::Bytes(n)
    }

    fn rest(&mut self, session: &Session, buffers: &Buffers, most_ms: u64) -> bool {
        self.wait(buffers.wanted(session), most_ms)
    }

    fn wait(&mut self, wanted: Wanted, most_ms: u64) -> bool {
        let call = match (wanted.output, wanted.errors) {
            (false, false) => " wait ",
            (true, false) => " wait for output ",
            (false, true) => " wait for errors ",
            (true, true) => " wait for both ",
        };
        self.note(call, most_ms);
        let until = self.now.saturating_add(most_ms);
        self.now = if wanted.errors {
            until.min(self.errors_at.max(self.now))
        } else {
            until
        };
        true
    }

    fn now(&mut self) -> u64 {
        self.now
    }

    fn time_of_day(&mut self) -> Option<u64> {
        self.asked = self.asked.saturating_add(1);
        let time = BEGAN.saturating_add(self.now);
        Some(match self.now {
            now if now < self.plan.forward => time,
            now if now < self.plan.back => time.saturating_add(HOUR_MS),
            _ => time.saturating_sub(HOUR_MS),
        })
    }
}

/// Runs a link over such devices, of which it doesn't end well.
fn ran(rt: &(impl Abort + AllocGlobal), options: Options, plan: Plan) -> Clocks {
    let options = Options {
        form: MessageForm::Digits,
        ..options
    };
    let mut devices = Clocks::new(rt, plan);
    assert!(rt; run_link(rt.alloc(), options, LineKind::Connect, &mut devices).is_err());
    devices
}

/// Checks the calls of a link, and what it wrote to standard error and to its output.
fn has_done(rt: &impl Abort, devices: &Clocks, calls: &[u8], errors: &[u8], output: &[u8]) {
    assert!(rt; devices.calls.as_slice() == calls);
    assert!(rt; devices.errors.as_slice() == errors);
    assert!(rt; devices.output.as_slice() == output);
}

/// Runs a link for three seconds, with a report each second, over a line that opens once the clock
/// was set for the first time; returns its devices.
fn reported(rt: &(impl Abort + AllocGlobal), clock: bool) -> Clocks {
    let options = Options {
        report: 1,
        clock,
        ..options(500, 3)
    };
    let plan = Plan {
        opens_at: 1501,
        forward: 1500,
        back: 2500,
        ..PLAN
    };
    ran(rt, options, plan)
}

/// Checks the beginnings of the three reports.
fn reports_begin(rt: &impl Abort, errors: &[u8], expected: [&str; 3]) {
    let Ok(text) = str::from_utf8(errors) else {
        panic!(rt; "no text");
    };
    let mut lines = text.split('\n');
    for begins in expected {
        let line = lines.next().unwrap_or("");
        assert!(rt; line.starts_with(begins));
    }
    assert!(rt; lines.next() == Some("") && lines.next().is_none());
}

#[test]
fn the_clock_is_set(rt: HostRuntime) {
    let devices = reported(&rt, true);
    let expected = [
        "2001-09-09T01:46:41.000Z report state=Halted ",
        "2001-09-09T02:46:42.000Z report state=Halted ",
        "2001-09-09T00:46:43.000Z report state=IStart ",
    ];
    reports_begin(&rt, devices.errors.as_slice(), expected);
}

/// The clock of the day isn't asked for in vain.
#[test]
fn no_clock(rt: HostRuntime) {
    let devices = reported(&rt, false);
    let expected = [
        "report state=Halted ",
        "report state=Halted ",
        "report state=IStart ",
    ];
    reports_begin(&rt, devices.errors.as_slice(), expected);
    assert!(&rt; devices.asked == 0);
}

/// A STACK, and two data messages.
const MESSAGES: &[u8] = b"\x05\x07\xc0\0\0\x01\x48\x55\x81\x01\0\0\x01\x01\xe3\x81a\xc1\xe8\
\x81\x01\0\0\x02\x01\xe3qb\x81\xe9";

/// A STACK, and three bytes of no frame.
const JUNK: &[u8] = b"\x05\x07\xc0\0\0\x01\x48\x55abc";

/// A line is opened again after a pause, which is reported, and standard error has 80 ms at its
/// end.
#[test]
fn lines_are_opened_again(rt: HostRuntime) {
    let options = Options {
        again: true,
        clock: true,
        ..options(500, 8)
    };
    let plan = Plan {
        opens: &[true, false],
        line_ends: true,
        errors_at: 100,
        forward: 50,
        ..PLAN
    };
    let calls = b"0 opening 1\n0 closing 1\n0 wait for errors 80\n80 wait for errors 1000\n\
        100 error bytes 60\n100 wait for errors 980\n100 error bytes 38\n100 wait 980\n\
        1080 opening 2\n1080 failed, retry in s: 2\n1080 wait 2000\n3080 opening 3\n\
        3080 closing 3\n3080 error bytes 60\n3080 error bytes 38\n3080 wait 4000\n\
        7080 opening 4\n7080 closing 4\n7080 error bytes 60\n7080 error bytes 38\n\
        7080 wait 920\n8000 closing 4\n";
    let errors = b"2001-09-09T01:46:40.000Z line down: closed by the other end\n\
        2001-09-09T02:46:40.080Z retry in 1 s\n\
        2001-09-09T02:46:43.080Z line down: closed by the other end\n\
        2001-09-09T02:46:43.080Z retry in 4 s\n\
        2001-09-09T02:46:47.080Z line down: closed by the other end\n\
        2001-09-09T02:46:47.080Z retry in 8 s\n";
    let output = b"state=Halted read=0 written=24 sent=0 acknowledged=0 handed=0\n";
    has_done(&rt, &ran(&rt, options, plan), calls, errors, output);
}

/// Each message is written after its notice, and acknowledged then. All that can be moved is moved
/// in each pass, and the devices are polled in each sixteenth.
#[test]
fn messages_follow_their_notices(rt: HostRuntime) {
    let options = Options {
        trace: Some(LogNotation::Plain),
        ..options(500, 1)
    };
    let plan = Plan {
        line: MESSAGES,
        output: Some(1),
        ..PLAN
    };
    let calls = b"0 opening 1\n0 error bytes 45\n0 wait for both 0\n0 error bytes 46\n\
        0 error bytes 50\n0 error bytes 51\n0 error bytes 44\n0 wait for output 0\n\
        0 wait for output 0\n0 wait for output 0\n0 error bytes 45\n0 wait 1000\n1000 wait 0\n\
        1000 closing 1\n";
    let errors = b"0 > 0 STRT sub=0 q=1 s=1 resp=0 num=0 addr=1\n\
        0 < 0 STACK sub=0 q=1 s=1 resp=0 num=0 addr=1\n\
        0 < 8 DATA count=1 q=0 s=0 resp=0 num=1 addr=1 61\n\
        0 < 19 DATA count=1 q=0 s=0 resp=0 num=2 addr=1 62\n\
        0 > 8 ACK sub=0 q=0 s=0 resp=0 num=0 addr=1\n\
        0 > 16 ACK sub=0 q=0 s=0 resp=2 num=0 addr=1\n";
    let output = b"notice Running\nnotice HandedUp\nmail 61\nnotice HandedUp\nmail 62\n\
        state=Halted read=30 written=24 sent=0 acknowledged=0 handed=2\n";
    has_done(&rt, &ran(&rt, options, plan), calls, errors, output);
}

/// An output that isn't read has until a second after the end of the run, and then another one.
/// Standard error has a second for each line.
#[test]
fn output_is_not_read(rt: HostRuntime) {
    let options = Options {
        again: true,
        trace: Some(LogNotation::Plain),
        ..options(500, 1)
    };
    let plan = Plan {
        line: JUNK,
        line_ends: true,
        output: Some(0),
        errors_at: 3500,
        errors_ms: 600,
        ..PLAN
    };
    let calls = b"0 opening 1\n0 wait for both 0\n0 closing 1\n0 wait for output 2000\n\
        2000 wait 0\n2000 closing 1\n2000 wait for output 1000\n3000 wait for errors 1000\n\
        3500 error bytes 45\n3500 wait for errors 1000\n4100 error bytes 46\n\
        4100 wait for errors 1000\n4700 error bytes 44\n4700 wait for errors 1000\n\
        5300 error bytes 35\n5300 wait for errors 1000\n5900 error bytes 18\n\
        5900 wait for errors 1000\n6500 error bytes 69\n";
    let errors = b"0 > 0 STRT sub=0 q=1 s=1 resp=0 num=0 addr=1\n\
        0 < 0 STACK sub=0 q=1 s=1 resp=0 num=0 addr=1\n\
        0 > 8 ACK sub=0 q=0 s=0 resp=0 num=0 addr=1\nline down: closed by the other end\n\
        0 < 8 discarded 3\n\
        ddcmp: standard output isn't read: received messages weren't written\n";
    has_done(&rt, &ran(&rt, options, plan), calls, errors, b"");
}

/// An output that is closed isn't one that isn't read.
#[test]
fn output_is_closed(rt: HostRuntime) {
    let options = Options {
        trace: Some(LogNotation::Plain),
        ..options(500, 1)
    };
    let plan = Plan {
        line: JUNK,
        output: None,
        errors_at: 500,
        ..PLAN
    };
    let calls = b"0 opening 1\n0 closing 1\n0 wait for errors 1000\n500 error bytes 45\n\
        500 error bytes 46\n500 error bytes 18\n";
    let errors = b"0 > 0 STRT sub=0 q=1 s=1 resp=0 num=0 addr=1\n\
        0 < 0 STACK sub=0 q=1 s=1 resp=0 num=0 addr=1\n0 < 8 discarded 3\n";
    has_done(&rt, &ran(&rt, options, plan), calls, errors, b"");
}
