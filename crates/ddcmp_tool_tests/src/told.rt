//! Devices in memory whose transfers contracts know, for the loop of a session.
ghost use Rattle.std.specs.Prelude.{◌≡◌, ◌≤◌, ◌++◌, [], ◌∷◌, false, length, take, true};
ghost use Rattle.ddcmp_io.specs.Queue.{after_pushed};

use crate::sessions::{append, options, session};
use ddcmp_io::{ByteQueue, Got};
use ddcmp_session::{
    Buffers, Devices, EndReason, LineKind, LinkOutcome, MessageForm, Options, Session, Transfer,
    Wanted, run_link,
};
use std::alloc::Global;
use std::process::Abort;

/// Bytes that were received from the line, or sent to it.
#[derive(Drop)]
struct LineAct {
    is_sent: bool,
    bytes: Vec<u8>,
}

/// How many bytes of the line can be read once this many were sent.
#[derive(Clone, Copy)]
struct Gate {
    sent: usize,
    readable: usize,
}

/// The bytes that a device returns, and all that was moved so far. No device ever fails.
#[derive(Drop)]
struct KnownDevices {
    alloc: Global,
    input: Vec<u8>,
    line: Vec<u8>,
    gates: &'static [Gate],
    read: ByteQueue,
    is_over: bool,
    received: usize,
    sent: usize,
    acts: Vec<LineAct>,
    lines: u64,
    written: ByteQueue,
    moment: u64,
}

/// Returns bytes that follow those that were returned, as far as the log has room.
fn give(from: &[u8], given: &mut ByteQueue, space: &mut [u8]) -> usize
    ensures fits { result ≤ length space.new }
    ensures given { given.new ≡ after_pushed (take result space.new) given.old }
{
    let rest = from.get(given.waiting().len()..).unwrap_or(&[]);
    let n = rest.len().min(space.len()).min(given.room());
    space[..n].copy_from_slice(&rest[..n]);
    given.push(&space[..n]);
    n
}

/// Takes the bytes for which there is room.
fn take_some(bytes: &[u8], taken: &mut ByteQueue) -> usize
    ensures { taken.new ≡ after_pushed (take result bytes.now) taken.old }
{
    let n = bytes.len().min(taken.room());
    taken.push(&bytes[..n]);
    n
}

/// Appends an act to the log; returns false if an allocation fails.
fn note(acts: &mut Vec<LineAct>, act: LineAct) -> bool
    ensures noted { result ≡ true → acts.new.items ≡ acts.old.items ++ act ∷ [] }
    ensures failed { result ≡ false → acts.new.items ≡ acts.old.items }
{
    match acts.push(act) {
        Ok(()) => true,
        Err(_refused) => false,
    }
}

impl KnownDevices {
    /// Returns how many bytes of the line can be read by now.
    fn readable(&self) -> usize {
        let mut most = 0;
        for gate in self.gates {
            if gate.sent <= self.sent {
                most = gate.readable;
            }
        }
        most
    }
}

impl Devices for KnownDevices {
    ghost use Rattle.std.specs.Prelude.{[], Some, if◌then◌else◌, map};
    ghost use Rattle.ddcmp_session.specs.Traffic.{Receives, Traffic, Writes};

    ghost traffic = { λ d. Some (record {
      read = d.read.waiting;
      is_over = d.is_over;
      log = record {
        acts = map (λ a. if a.is_sent then Writes a.bytes.items else Receives a.bytes.items)
            d.acts.items;
        lines = d.lines;
      };
      written = d.written.waiting;
      faults = [];
    }) };

    type Refusal = ();

    fn open_line(&mut self, _session: &mut Session) -> Result<bool, ()> {
        let Some(lines) = self.lines.checked_add(1) else {
            return Err(());
        };
        self.lines = lines;
        self.acts.clear();
        Ok(true)
    }

    fn report_retry(&mut self, _session: &mut Session, _refusal: (), _seconds: u64) {}

    fn close_line(&mut self) {}

    fn read_input(&mut self, space: &mut [u8]) -> Got {
        let n = give(self.input.as_slice(), &mut self.read, space);
        self.is_over = n == 0;
        Got::Bytes(n)
    }

    fn may_read_line(&self) -> bool {
        true
    }

    fn read_line(&mut self, space: &mut [u8]) -> Transfer {
        let most = self.readable().min(self.line.len());
        let rest = self.line.as_slice().get(self.received..most).unwrap_or(&[]);
        let n = rest.len().min(space.len());
        if n == 0 {
            return Transfer::Nothing;
        }
        space[..n].copy_from_slice(&rest[..n]);
        let Ok(bytes) = space[..n].to_vec(self.alloc) else {
            return Transfer::Nothing;
        };
        if !note(
            &mut self.acts,
            LineAct {
                is_sent: false,
                bytes,
            },
        ) {
            return Transfer::Nothing;
        }
        self.received = self.received.saturating_add(n);
        Transfer::Bytes(n)
    }

    fn report_read(&mut self, _session: &mut Session) {}

    fn write_line(&mut self, bytes: &[u8]) -> Transfer {
        let Ok(taken) = bytes.to_vec(self.alloc) else {
            return Transfer::Nothing;
        };
        if !note(
            &mut self.acts,
            LineAct {
                is_sent: true,
                bytes: taken,
            },
        ) {
            return Transfer::Nothing;
        }
        self.sent = self.sent.saturating_add(bytes.len());
        Transfer::Bytes(bytes.len())
    }

    fn write_output(&mut self, bytes: &[u8]) -> Transfer {
        Transfer::Bytes(take_some(bytes, &mut self.written))
    }

    fn write_errors(&mut self, bytes: &[u8]) -> Transfer {
        Transfer::Bytes(bytes.len())
    }

    fn rest(&mut self, _session: &Session, _buffers: &Buffers, _most_ms: u64) -> bool {
        true
    }

    fn wait(&mut self, _wanted: Wanted, _most_ms: u64) -> bool {
        true
    }

    fn now(&mut self) -> u64 {
        self.moment = self.moment.saturating_add(1);
        self.moment
    }

    fn time_of_day(&mut self) -> Option<u64> {
        None
    }
}

/// A STACK, and a data message.
const CAME: &[u8] =
    b"\x05\x07\xc0\x00\x00\x01\x48\x55\x81\x03\x00\x00\x01\x01\x9a\x41\x78\x79\x7a\x22\x6a";

/// A STRT.
const STRT: &[u8] = b"\x05\x06\xc0\x00\x00\x01\x75\x95";

/// A STRT, a STACK, and an ACK of message 1.
const OF_SECOND: &[u8] =
    b"\x05\x06\xc0\0\0\x01\x75\x95\x05\x07\xc0\0\0\x01\x48\x55\x05\x01\0\x01\0\x01\xad\x95";

/// A STRT, an ACK, and a data message.
const OF_FIRST: &[u8] =
    b"\x05\x06\xc0\0\0\x01\x75\x95\x05\x01\0\0\0\x01\xfc\x55\x81\x03\0\0\x01\x01\x9aAabc8\x97";

/// Makes devices that read this input, and from their line these bytes.
fn devices(
    rt: &(impl Abort + AllocGlobal),
    input: &[u8],
    line: &[u8],
    gates: &'static [Gate],
) -> KnownDevices {
    KnownDevices {
        alloc: rt.alloc(),
        input: bytes(rt, input),
        line: bytes(rt, line),
        gates,
        read: log(rt),
        is_over: false,
        received: 0,
        sent: 0,
        acts: Vec::new(rt.alloc()),
        lines: 0,
        written: log(rt),
        moment: 0,
    }
}

fn bytes(rt: &(impl Abort + AllocGlobal), from: &[u8]) -> Vec<u8> {
    let mut made = Vec::new(rt.alloc());
    append(rt, &mut made, from);
    made
}

fn log(rt: &(impl Abort + AllocGlobal)) -> ByteQueue {
    match ByteQueue::new(rt.alloc(), 1000) {
        Ok(log) => log,
        Err(_refused) => panic!(rt; "no memory"),
    }
}

/// Returns all bytes that were received from the line, and all that were sent.
fn moved(rt: &(impl Abort + AllocGlobal), acts: &[LineAct]) -> (Vec<u8>, Vec<u8>) {
    let mut received = Vec::new(rt.alloc());
    let mut sent = Vec::new(rt.alloc());
    for act in acts {
        let to = if act.is_sent {
            &mut sent
        } else {
            &mut received
        };
        append(rt, to, act.bytes.as_slice());
    }
    (received, sent)
}

/// All that devices moved, when the time of the run is over.
#[test]
fn devices_report_what_moved(rt: HostRuntime) {
    let gates = &[Gate {
        sent: 0,
        readable: 29,
    }];
    let mut known = devices(&rt, b"\0\x03abc", CAME, gates);
    let mut own = session(&rt, options(60_000, 1));
    let Ok(mut buffers) = Buffers::new(rt.alloc()) else {
        panic!(rt; "no memory");
    };
    assert!(rt; buffers.begin_line(&mut own));
    assert!(rt; buffers.run(&mut own, &mut known) == Ok(EndReason::Time));
    assert!(rt; known.read.waiting() == b"\0\x03abc".as_slice());
    assert!(rt; known.is_over);
    assert!(rt; known.written.waiting() == b"\0\x03xyz".as_slice());
    let (received, sent) = moved(&rt, known.acts.as_slice());
    assert!(rt; received.as_slice() == CAME);
    assert!(rt; sent.as_slice().get(..8) == Some(STRT));
    assert!(rt; sent.len() >= 29);
}

/// How many bytes an end has received and sent at some moment.
#[derive(Clone, Copy)]
struct Progress {
    received: usize,
    sent: usize,
}

impl Progress {
    /// Takes the next act of an end, unless it would then have received more than the other has
    /// sent.
    fn takes(&mut self, other: Progress, act: Option<&LineAct>) -> bool {
        let Some(act) = act else {
            return false;
        };
        let n = act.bytes.len();
        if act.is_sent {
            self.sent = self.sent.saturating_add(n);
            return true;
        }
        let received = self.received.saturating_add(n);
        if received > other.sent {
            return false;
        }
        self.received = received;
        true
    }
}

/// Returns whether the acts of two ends have an order in which at each moment neither has received
/// more bytes than the other has sent.
fn have_order(first: &[LineAct], second: &[LineAct]) -> bool {
    let none = Progress {
        received: 0,
        sent: 0,
    };
    let (mut one, mut other) = (none, none);
    let (mut i, mut j) = (0usize, 0usize);
    for _act in 0..first.len().saturating_add(second.len()) {
        if one.takes(other, first.get(i)) {
            i = i.saturating_add(1);
        } else if other.takes(one, second.get(j)) {
            j = j.saturating_add(1);
        } else {
            return false;
        }
    }
    true
}

/// Runs two links over one line that is honest, as over a connection: both end well, and the second
/// delivers the message that the first has read. Returns what the second has written.
fn share_a_line(rt: &(impl Abort + AllocGlobal), form: MessageForm, file: &[u8]) -> Vec<u8> {
    let to_first = &[
        Gate {
            sent: 8,
            readable: 16,
        },
        Gate {
            sent: 29,
            readable: 24,
        },
    ];
    let to_second = &[
        Gate {
            sent: 8,
            readable: 8,
        },
        Gate {
            sent: 16,
            readable: 29,
        },
    ];
    let options = Options {
        form,
        ..options(100, 60)
    };
    let mut first = devices(rt, file, OF_SECOND, to_first);
    let mut second = devices(rt, b"", OF_FIRST, to_second);
    let one = run_link(rt.alloc(), options, LineKind::Connect, &mut first);
    let other = run_link(rt.alloc(), options, LineKind::Connect, &mut second);
    assert!(rt; matches!(&one, Ok(LinkOutcome::Delivered)));
    assert!(rt; matches!(&other, Ok(LinkOutcome::Delivered)));
    assert!(rt; first.lines == 1 && second.lines == 1);
    let (to_a, by_a) = moved(rt, first.acts.as_slice());
    let (to_b, by_b) = moved(rt, second.acts.as_slice());
    assert!(rt; to_a.as_slice() == by_b.as_slice());
    assert!(rt; to_b.as_slice() == by_a.as_slice());
    assert!(rt; have_order(first.acts.as_slice(), second.acts.as_slice()));
    assert!(rt; first.read.waiting() == file);
    assert!(rt; first.is_over);
    bytes(rt, second.written.waiting())
}

/// In binary the second writes the file that the first has read.
#[test]
fn two_links_share_a_line(rt: HostRuntime) {
    const FILE: &[u8] = b"\0\x03abc";
    let written = share_a_line(&rt, MessageForm::Binary, FILE);
    assert!(rt; written.as_slice() == FILE);
}

/// In lines it writes the digits of its messages in lines `mail`, among others.
#[test]
fn two_links_share_a_line_in_lines(rt: HostRuntime) {
    let written = share_a_line(&rt, MessageForm::Digits, b"616263\r\n");
    let lines = b"notice Running\nnotice HandedUp\nmail 616263\nstate=Halted read=29 written=24 \
        sent=0 acknowledged=0 handed=1\n";
    assert!(rt; written.as_slice() == lines.as_slice());
}
