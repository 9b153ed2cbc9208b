//! A station that is driven over memory, with a user and a clock.
use ddcmp_frame::failing::{BoundedSink, Pieces};
use ddcmp_station::{
    Clock, Config, Driven, LineFault, Notice, Sink, StartRefusal, Station, User, drive,
};

/// A user who gives these messages, and prints what happens.
#[derive(Drop)]
struct Person<'a, R> {
    rt: &'a R,
    name: &'static str,
    messages: &'a [&'a [u8]],
    /// How many of them it gave.
    given: usize,
}

impl<R: Print> User for Person<'_, R> {
    fn message(&mut self, out: &mut [u8]) -> usize {
        let Some(message) = self.messages.get(self.given) else {
            return 0;
        };
        self.given = self.given.saturating_add(1);
        let n = message.len().min(out.len());
        out[..n].copy_from_slice(&message[..n]);
        let _ = println!(self.rt; "{} gives {:?}", self.name, &out[..n]);
        n
    }

    fn notice(&mut self, notice: Notice) {
        let _ = println!(self.rt; "{} is told {notice:?}", self.name);
    }

    fn mail(&mut self, message: &[u8]) {
        let _ = println!(self.rt; "{} is handed {message:?}", self.name);
    }
}

/// A clock on which each turn takes 10 ms.
#[derive(Drop)]
struct Ticks(u64);

impl Clock for Ticks {
    fn now(&mut self) -> u64 {
        self.0 = self.0.saturating_add(10);
        self.0
    }
}

/// A station with its user and its clock.
#[derive(Drop)]
pub struct Site<'a, R> {
    station: Station,
    user: Person<'a, R>,
    clock: Ticks,
    /// What it wrote.
    writer: BoundedSink<256>,
}

impl<'a, R: Print + AllocGlobal> Site<'a, R> {
    pub fn new(
        rt: &'a R,
        name: &'static str,
        config: Config,
        messages: &'a [&'a [u8]],
    ) -> Option<Site<'a, R>> {
        let station = Station::new(rt.alloc(), config).ok()?;
        Some(Site {
            station,
            user: Person {
                rt,
                name,
                messages,
                given: 0,
            },
            clock: Ticks(0),
            writer: BoundedSink::new(),
        })
    }

    pub fn start(&mut self) -> Result<u8, StartRefusal> {
        self.station.start()
    }

    /// Drives the station over a line that brings these pieces, with a timer of 1000 ms. An empty
    /// piece is an idle read.
    pub fn drive(&mut self, line: &[&[u8]], turns: u32) -> Result<Driven, LineFault> {
        // The bytes of a line are counted in 64 bits.
        if self.station.offset() > 1_000_000 || self.writer.failed() {
            return Err(LineFault::Ended);
        }
        drive(
            self.user.rt.alloc(),
            &mut self.station,
            &mut Pieces::new(line),
            &mut self.writer,
            &mut self.user,
            &mut self.clock,
            1000,
            turns,
        )
    }

    /// All that it wrote.
    pub fn written(&self) -> &[u8] {
        self.writer.bytes()
    }
}
