//! Two links over two streams of bytes: each message arrives once, in order and unchanged, in
//! chunks of any size and with slow readers.
ghost use Rattle.std.specs.Prelude.{◌≤◌};

use ddcmp_station::{Config, Link, State};
use std::process::Abort;

/// The maximum length of a message.
const LONGEST: usize = 40;

/// An end: its link, how many of its messages were accepted, and how many of the other's taken.
#[derive(Drop)]
struct End {
    link: Link,
    accepted: u32,
    taken: u32,
    drawn: u32,
}

impl End {
    fn new(rt: &(impl Abort + AllocGlobal), window: u16, inbox: u16) -> End {
        let config = Config {
            window,
            inbox,
            max: 40,
            ..Config::DEFAULT
        };
        match Link::new(rt.alloc(), config, 30) {
            Ok(link) => End {
                link,
                accepted: 0,
                taken: 0,
                drawn: 1,
            },
            Err(_refused) => panic!(rt; "no link"),
        }
    }

    /// Returns a pseudorandom number below 32,768.
    fn draw(&mut self) -> u32 {
        self.drawn = self.drawn.wrapping_mul(1_103_515_245).wrapping_add(12_345);
        self.drawn >> 17
    }

    /// Sends messages as long as there is room.
    fn offer(&mut self, rt: &(impl Abort + AllocGlobal), total: u32) {
        let mut message = [0; LONGEST];
        for _offered in 0..256u32 {
            if self.accepted >= total || !self.link.has_room() {
                return;
            }
            let length = spell(self.accepted, &mut message);
            assert!(rt; self.link.offer(&message[..length]).is_ok());
            self.accepted = self.accepted.wrapping_add(1);
        }
    }

    /// Takes a received message now and then, and checks that it is the next one of the other end.
    fn take(&mut self, rt: &(impl Abort + AllocGlobal)) {
        if self.draw() % 3 != 0 {
            return;
        }
        let mut mail = [0; LONGEST];
        let mut expected = [0; LONGEST];
        assert!(rt; self.link.config().max as usize <= LONGEST);
        match self.link.take(&mut mail) {
            None => {}
            Some(length) => {
                assert!(rt; length == spell(self.taken, &mut expected));
                assert!(rt; length <= LONGEST && mail[..length] == expected[..length]);
                self.taken = self.taken.wrapping_add(1);
            }
        }
    }
}

/// Puts message `number` into the front of `out`; returns its length.
fn spell(number: u32, out: &mut [u8; LONGEST]) -> usize
    ensures { result ≤ LONGEST }
{
    for i in 0..LONGEST {
        out[i] = ((number as usize % 1000 * 31 + i) % 251) as u8;
    }
    number as usize % LONGEST + 1
}

/// Carries frames from an end to the other, a chunk at once.
fn carry(from: &mut End, to: &mut End) {
    from.link.fill();
    if !to.link.wants_line() {
        return;
    }
    let most = from.draw() as usize % 100;
    let length = from.link.unsent().len().min(most);
    let fed = to.link.feed(&from.link.unsent()[..length]);
    from.link.sent(fed.used);
}

/// Has both ends send this many messages.
fn exchange(rt: &(impl Abort + AllocGlobal), window: u16, inbox: u16, total: u32) {
    let mut a = End::new(rt, window, inbox);
    let mut b = End::new(rt, window, inbox);
    assert!(rt; a.link.start().is_ok());
    assert!(rt; b.link.start().is_ok());
    for now in 0..40_000u64 {
        a.link.wake(now);
        b.link.wake(now);
        a.offer(rt, total);
        b.offer(rt, total);
        carry(&mut a, &mut b);
        carry(&mut b, &mut a);
        a.take(rt);
        b.take(rt);
        if a.taken == total && b.taken == total && a.link.is_delivered() && b.link.is_delivered() {
            return;
        }
    }
    panic!(rt; "not all arrived");
}

#[test]
fn window_of_one(rt: HostRuntime) {
    exchange(&rt, 1, 1, 100);
}

#[test]
fn usual_window(rt: HostRuntime) {
    exchange(&rt, 7, 8, 1000);
}

#[test]
fn large_window(rt: HostRuntime) {
    exchange(&rt, 127, 3, 1000);
}

/// A link restarts in the middle of a frame.
#[test]
fn begins_anew(rt: HostRuntime) {
    let mut a = End::new(&rt, 7, 8);
    assert!(&rt; a.link.start().is_ok());
    a.link.fill();
    assert!(&rt; a.link.unsent().len() == 8);
    a.link.sent(3);
    assert!(&rt; a.link.unsent().len() == 5);
    assert!(&rt; a.link.restart().is_ok());
    assert!(&rt; a.link.unsent().is_empty());
    assert!(&rt; a.link.state() == State::IStart);
    a.link.fill();
    assert!(&rt; a.link.unsent().len() == 8);
}
