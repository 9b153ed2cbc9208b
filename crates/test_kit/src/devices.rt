//! A user and a clock in memory. For a line use `ddcmp_frame::failing`.
ghost use Rattle.std.specs.Prelude.{◌≤◌};

use ddcmp_station::{Clock, Notice, User};

/// What a user saw.
#[derive(Clone, Copy, Debug, PartialEq, Eq)]
pub enum Seen {
    Told(Notice),
    /// A received message of this length, beginning with this byte.
    Mail(usize, u8),
    /// It was asked for a message, with room for this many bytes.
    Asked(usize),
}

/// A user that offers these messages one after another, and then none. It records what it saw, and
/// the bytes of all received messages, concatenated.
#[derive(Drop)]
pub struct Recorder<'a> {
    offers: &'a [&'a [u8]],
    next: usize,
    seen: [Seen; 8],
    sights: usize,
    mail: [u8; 16384],
    mailed: usize,
    ghost seen_room: { sights ≤ 8 },
    ghost mail_room: { mailed ≤ 16384 },
}

impl<'a> Recorder<'a> {
    pub fn offering(offers: &'a [&'a [u8]]) -> Self {
        Recorder {
            offers,
            next: 0,
            seen: [Seen::Asked(0); 8],
            sights: 0,
            mail: [0; 16384],
            mailed: 0,
        }
    }

    pub fn seen(&self) -> &[Seen] {
        &self.seen[..self.sights]
    }

    pub fn mail(&self) -> &[u8] {
        &self.mail[..self.mailed]
    }

    fn sees(&mut self, seen: Seen) {
        if self.sights < 8 {
            self.seen[self.sights] = seen;
            self.sights += 1;
        }
    }
}

impl User for Recorder<'_> {
    fn message(&mut self, out: &mut [u8]) -> usize {
        let Some(offer) = self.offers.get(self.next) else {
            return 0;
        };
        self.sees(Seen::Asked(out.len()));
        let n = offer.len().min(out.len());
        out[..n].copy_from_slice(&offer[..n]);
        self.next = self.next.saturating_add(1);
        n
    }

    fn notice(&mut self, notice: Notice) {
        self.sees(Seen::Told(notice));
    }

    fn mail(&mut self, message: &[u8]) {
        let first = match message.first() {
            Some(byte) => *byte,
            None => 0,
        };
        self.sees(Seen::Mail(message.len(), first));
        let n = message.len().min(16384 - self.mailed);
        let end = self.mailed + n;
        self.mail[self.mailed..end].copy_from_slice(&message[..n]);
        self.mailed = end;
    }
}

/// A clock that returns these moments, and then the last of them.
#[derive(Drop)]
pub struct Moments<'a> {
    pub moments: &'a [u64],
    pub next: usize,
}

impl Clock for Moments<'_> {
    fn now(&mut self) -> u64 {
        let at = self.next.min(self.moments.len().saturating_sub(1));
        self.next = self.next.saturating_add(1);
        match self.moments.get(at) {
            Some(moment) => *moment,
            None => 0,
        }
    }
}
