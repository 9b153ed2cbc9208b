//! The input of a session: messages that are sent, and parts that aren't messages.
ghost use Rattle.std.specs.Prelude.{◌≡◌};
ghost use Rattle.ddcmp_session.specs.Reported.{reason_text};

use crate::session::Session;
use ddcmp_input::Entry;
use ddcmp_station::State;
use ddcmp_streams::Command;

/// Returns what is wrong with a part of the input that is no message.
fn reason_of(entry: Entry) -> &'static [u8]
    ensures { result.now ≡ reason_text entry }
{
    match entry {
        Entry::Message => b"message",
        Entry::NotHexadecimal => b"not hexadecimal",
        Entry::TooLong => b"too long",
        Entry::Empty => b"empty",
        Entry::Command => b"unknown command",
    }
}

const UNFINISHED: &[u8] = b"unfinished";

impl Session {
    ghost use Rattle.std.specs.Prelude.{◌≡◌, ◌+◌, ◌≤◌, ◌∷◌, ℕ, true, false, [], length, take};
    ghost use Rattle.std.specs.Prelude.{option_to_list};
    ghost use Rattle.ddcmp_session.specs.Course.{lost_more};
    ghost use Rattle.ddcmp_session.specs.Logged.{read_after, read_at_end, read_by_command};
    ghost use Rattle.ddcmp_session.specs.Logged.{read_unfinished};
    ghost use Rattle.ddcmp_station.specs.Linking.{total_plus};
    ghost use Rattle.ddcmp_streams.specs.Messages.{after_input, entries_of_input};
    ghost use Rattle.ddcmp_streams.specs.Messages.{count_of};
    ghost use Rattle.ddcmp_session.specs.Reported.{CutsEach, DropsBytes, DropsEach, DropsInput};
    ghost use Rattle.ddcmp_session.specs.Reported.{DropsLast, HasRefused, RefusesUnfinished};
    ghost use Rattle.ddcmp_session.specs.Reported.{ReportsCommand, ReportsEach, ReportsInput};
    ghost use Rattle.ddcmp_session.specs.Reported.{ReportsLast};
    ghost use Rattle.ddcmp_session.specs.Reported.{dropping, read_at_last, refused_after};
    ghost use Rattle.ddcmp_session.specs.Reported.{refused_at_last, refused_cut};
    ghost use Rattle.ddcmp_session.specs.Session.{wants_input, after_input_read, after_input_end};
    ghost use Rattle.ddcmp_session.specs.Session.{after_command, after_entries, after_entry};
    ghost use Rattle.ddcmp_session.specs.Session.{after_message, after_unfinished, is_held};
    ghost use Rattle.ddcmp_session.specs.Session.{form_of, takes_end, takes_in};
    ghost use Rattle.ddcmp_session.specs.Session.{has_commands, is_idle, reads_commands};
    ghost use Rattle.ddcmp_session.specs.Session.{lost_among, lost_at_end, lost_with_last};

    /// Returns whether bytes of the input are wanted, since the station accepts a message, or since
    /// commands are read while it doesn't run.
    pub fn wants_input(&self) -> bool
        ensures { result ≡ wants_input self.now.state }
    {
        !self.input_is_read && (self.takes() || self.reads_commands())
    }

    /// Returns whether commands are read while the station doesn't run: once it has run, up to the
    /// one that acknowledges the next event.
    fn reads_commands(&self) -> bool
        ensures { result ≡ reads_commands self.now.state }
    {
        self.has_commands() && self.is_idle() && self.course.has_run && !self.course.ready_ahead
    }

    fn has_commands(&self) -> bool
        ensures { result ≡ has_commands self.now.state.messages }
    {
        self.options.form.has_events()
    }

    /// Returns whether no messages can be sent, since the station doesn't run.
    fn is_idle(&self) -> bool
        ensures { result ≡ is_idle self.now.state }
    {
        !self.options.maintenance && self.link.state() != State::Running
    }

    /// Returns whether the link accepts a message: a maintenance message once the last one was
    /// written to the line.
    fn takes(&self) -> bool
        ensures { result ≡ takes_in self.now.state.options.maintenance self.now.state.link }
    {
        if self.options.maintenance {
            return self.link.state() == State::Maintenance && self.has_gone();
        }
        self.link.has_room()
    }

    /// Sends the message that was read last.
    fn offer(&mut self)
        ensures { self.new
            ≡ record self.old { state = after_message false self.old.state } }
    {
        let message = self.messages.message();
        let _sent = if self.options.maintenance {
            self.link.offer_maintenance(message)
        } else {
            self.link.offer(message)
        };
    }

    /// Handles bytes of the input, up to the end of the first message, which it sends, or of the
    /// first part that is no message, which it reports. Returns how many were used; 0 while
    /// `wants_input` is false.
    pub fn input_read(&mut self, bytes: &[u8]) -> usize
        ensures used { result ≤ length bytes.now }
        ensures state { self.new.state ≡ after_input_read (take result bytes.now) self.old.state }
        // All bytes, or those up to the first that completes something.
        ensures whole { wants_input self.old.state ≡ true
            → entries_of_input (take result bytes.now) self.old.state.messages ≡ []
            → result ≡ length bytes.now }
        ensures first { (n : ℕ) (entry : Entry)
            → entries_of_input (take result bytes.now) self.old.state.messages ≡ entry ∷ []
            → result ≡ n + 1 → entries_of_input (take n bytes.now) self.old.state.messages ≡ [] }
        ensures few { length (entries_of_input (take result bytes.now) self.old.state.messages)
            ≤ 1 }
        ensures none { wants_input self.old.state ≡ false
            → (result ≡ 0) × (self.new ≡ self.old) }
        ensures errors { ReportsInput (take result bytes.now) self.old self.new.log.errors }
        ensures read { self.new.log.read
            ≡ read_after (entries_of_input (take result bytes.now) self.old.state.messages)
            (after_input (take result bytes.now) self.old.state.messages) self.old.log.read }
        ensures log { self.new.log
            ≡ record self.old.log { errors = self.new.log.errors; read = self.new.log.read } }
    {
        if !self.wants_input() {
            return 0;
        }
        let pushed = self.messages.push(bytes);
        self.take_entry(pushed.entry);
        pushed.used
    }

    /// Returns whether the end of the input is accepted: if the station accepts a message, and once
    /// it has run also if there is no last line without LF.
    pub fn takes_end(&self) -> bool
        ensures { result ≡ takes_end self.now.state }
    {
        let completes_none = self.course.has_run && !self.messages.has_last_line();
        !self.input_is_read && (self.takes() || completes_none)
    }

    /// Handles the end of the input, if `takes_end`. A last line needs no LF; a message in binary
    /// whose end is missing is reported.
    pub fn input_ended(&mut self)
        ensures state { self.new.state ≡ after_input_end self.old.state }
        ensures none { takes_end self.old.state ≡ false → self.new ≡ self.old }
        ensures errors { takes_end self.old.state ≡ true
            → ReportsLast self.old self.new.log.errors }
        ensures read { takes_end self.old.state ≡ true
            → self.new.log.read ≡ read_at_end self.old.state.messages self.old.log.read }
        ensures log { self.new.log
            ≡ record self.old.log { errors = self.new.log.errors; read = self.new.log.read } }
    {
        if !self.takes_end() {
            return;
        }
        self.input_is_read = true;
        let entry = self.messages.end();
        self.take_entry(entry);
        self.refuse_unfinished();
    }

    /// Sends the message of an entry, or reports that it is none.
    fn take_entry(&mut self, entry: Option<Entry>)
        ensures state { self.new.state ≡ after_entries (option_to_list entry) self.old.state }
        ensures errors { ReportsEach (option_to_list entry) self.old self.new.log.errors }
        ensures read { self.new.log.read
            ≡ read_after (option_to_list entry) self.old.state.messages self.old.log.read }
        ensures log { self.new.log
            ≡ record self.old.log { errors = self.new.log.errors; read = self.new.log.read } }
    {
        match entry {
            None => {}
            Some(Entry::Message) => {
                self.count_entry();
                self.take_message();
            }
            Some(Entry::Command) => {
                let command = self.messages.command();
                self.obey(command);
            }
            Some(Entry::NotHexadecimal) if self.messages.is_question() => self.report_counters(),
            Some(refused) => {
                self.count_entry();
                self.refuse(reason_of(refused));
            }
        }
    }

    /// Sends the message that was read last, or counts it as lost if an event that began an
    /// incarnation isn't acknowledged, if the line is to be left, or if commands alone are read.
    fn take_message(&mut self)
        ensures { self.new
            ≡ record self.old { state = after_entry Entry.Message self.old.state } }
    {
        if self.is_held() {
            self.course.lose(1);
        } else {
            self.offer();
        }
    }

    /// Returns whether messages are refused so.
    fn is_held(&self) -> bool
        ensures { result ≡ is_held self.now.state }
    {
        let is_barred = self.course.leaves || self.course.unready > 0 || self.is_idle();
        self.has_commands() && is_barred
    }

    /// Obeys the command that was read last, or reports that it isn't known.
    fn obey(&mut self, command: Command)
        ensures state { self.new.state ≡ after_command command self.old.state }
        ensures errors { ReportsCommand command self.old self.new.log.errors }
        ensures read { self.new.log.read ≡ read_by_command command self.old.log.read }
        ensures log { self.new.log
            ≡ record self.old.log { errors = self.new.log.errors; read = self.new.log.read } }
    {
        match command {
            Command::Ready => {
                let is_idle = self.is_idle();
                self.course.make_ready(is_idle);
            }
            Command::Restart => self.course.leaves = true,
            Command::Halt => {
                self.course.leaves = true;
                self.course.halted = true;
            }
            Command::Start => self.course.halted = false,
            Command::Report => self.report_counters(),
            Command::Quit => {
                self.input_is_read = true;
                self.course.quits = true;
            }
            Command::Unknown => {
                self.count_entry();
                self.refuse(reason_of(Entry::Command));
            }
        }
    }

    fn count_entry(&mut self)
        ensures { self.new ≡ record self.old {
          log = record self.old.log { read = total_plus self.old.log.read 1 };
        } }
    {
        self.read = self.read.saturating_add(1);
    }

    /// Drops what was read of the input after the run is over: its messages are lost, and a message
    /// whose end is missing is reported.
    pub(super) fn drop_input(&mut self, bytes: &[u8], is_at_end: bool)
        ensures form { form_of self.new.state.messages ≡ form_of self.old.state.messages }
        ensures stays { self.new.state ≡ record self.old.state {
          messages = self.new.state.messages;
          is_read = true;
          was_refused = self.new.state.was_refused;
          course = lost_more (lost_at_end bytes.now is_at_end self.old.state)
              (lost_more (lost_among bytes.now self.old.state) self.old.state.course);
        } }
        ensures dropped { DropsInput bytes.now is_at_end self.old (dropping self.new) }
        ensures log { self.new.log
            ≡ record self.old.log { errors = self.new.log.errors; read = self.new.log.read } }
    {
        let lost = self.drop_bytes(bytes);
        self.course.lose(lost);
        let last = if self.input_is_read {
            0
        } else {
            self.drop_last(is_at_end)
        };
        self.course.lose(last);
        self.input_is_read = true;
    }

    /// Drops bytes of the input, and returns how many messages are lost with them.
    fn drop_bytes(&mut self, bytes: &[u8]) -> u64
        ensures lost { result ≡ lost_among bytes.now self.old.state }
        ensures dropped { DropsBytes bytes.now self.old.state.messages (dropping self.old)
            (dropping self.new) }
        ensures messages { self.new.state.messages ≡ after_input bytes.now self.old.state.messages }
        ensures stays { self.new.state ≡ record self.old.state {
          messages = self.new.state.messages;
          was_refused = self.new.state.was_refused;
        } }
        ensures log { self.new.log
            ≡ record self.old.log { errors = self.new.log.errors; read = self.new.log.read } }
    {
        let mut at = 0usize;
        let mut lost = 0u64;
        // A part has at least one byte.
        for _part in 0..bytes.len() {
            if at == bytes.len() {
                break;
            }
            let pushed = self.messages.push(&bytes[at..]);
            at += pushed.used;
            lost += self.drop_entry(pushed.entry);
        }
        lost
    }

    /// Handles the end of the dropped input: a last message is lost, or reported if its end is
    /// missing. Returns how many are lost.
    fn drop_last(&mut self, is_at_end: bool) -> u64
        ensures lost { result ≡ lost_with_last is_at_end self.old.state.messages }
        ensures errors { DropsLast is_at_end self.old.state.messages self.old.log.read
            self.old.log.errors self.new.log.errors }
        ensures form { form_of self.new.state.messages ≡ form_of self.old.state.messages }
        ensures refused { self.new.state.was_refused ≡ refused_at_last is_at_end
            self.old.state.messages self.old.state.was_refused }
        ensures stays { self.new.state ≡ record self.old.state {
          messages = self.new.state.messages;
          was_refused = self.new.state.was_refused;
        } }
        ensures read { self.new.log.read
            ≡ read_at_last is_at_end self.old.state.messages self.old.log.read }
        ensures log { self.new.log
            ≡ record self.old.log { errors = self.new.log.errors; read = self.new.log.read } }
    {
        let entry = self.messages.end();
        let lost = if is_at_end {
            self.drop_entry(entry)
        } else {
            self.refuse_cut(entry)
        };
        self.refuse_unfinished();
        lost
    }

    /// Reports a last line whose end is missing: it isn't counted as lost.
    fn refuse_cut(&mut self, entry: Option<Entry>) -> u64
        ensures none { result ≡ 0 }
        ensures errors { CutsEach (option_to_list entry) self.old.state.messages
            self.old.log.read self.old.log.errors self.new.log.errors }
        ensures refused { self.new.state.was_refused
            ≡ refused_cut entry self.old.state.was_refused }
        ensures stays { self.new.state
            ≡ record self.old.state { was_refused = self.new.state.was_refused } }
        ensures log { self.new.log ≡ record self.old.log { errors = self.new.log.errors } }
    {
        if entry.is_some() {
            self.refuse(UNFINISHED);
        }
        0
    }

    /// Drops a part of the input, and returns how many messages are lost with it.
    fn drop_entry(&mut self, entry: Option<Entry>) -> u64
        ensures lost { result ≡ count_of entry }
        ensures few { result ≤ 1 }
        ensures errors { DropsEach (option_to_list entry) self.old.state.messages
            self.old.log.read self.old.log.errors self.new.log.errors }
        ensures refused { self.new.state.was_refused
            ≡ refused_after (option_to_list entry) self.old.state.messages
            self.old.state.was_refused }
        ensures stays { self.new.state
            ≡ record self.old.state { was_refused = self.new.state.was_refused } }
        ensures read { self.new.log.read
            ≡ read_after (option_to_list entry) self.old.state.messages self.old.log.read }
        ensures log { self.new.log
            ≡ record self.old.log { errors = self.new.log.errors; read = self.new.log.read } }
    {
        match entry {
            None => 0,
            Some(Entry::Message) => {
                self.count_entry();
                1
            }
            Some(Entry::NotHexadecimal) if self.messages.is_question() => 0,
            Some(Entry::Command) if self.messages.command() != Command::Unknown => 0,
            Some(refused) => {
                self.count_entry();
                self.refuse(reason_of(refused));
                0
            }
        }
    }

    /// Reports a message in binary whose end is missing.
    fn refuse_unfinished(&mut self)
        ensures state { self.new.state ≡ after_unfinished self.old.state }
        ensures errors { RefusesUnfinished self.old.state.messages self.old.log.read
            self.old.log.errors self.new.log.errors }
        ensures read { self.new.log.read
            ≡ read_unfinished self.old.state.messages self.old.log.read }
        ensures log { self.new.log
            ≡ record self.old.log { errors = self.new.log.errors; read = self.new.log.read } }
    {
        if self.messages.is_unfinished() {
            self.count_entry();
            self.refuse(UNFINISHED);
        }
    }

    /// Reports that the part of the input that was read last is no message.
    fn refuse(&mut self, why: &[u8])
        ensures state { self.new.state ≡ record self.old.state { was_refused = true } }
        ensures errors { HasRefused why.now self.old.state.messages self.old.log.read
            self.old.log.errors self.new.log.errors }
        ensures log { self.new.log ≡ record self.old.log { errors = self.new.log.errors } }
    {
        self.was_refused = true;
        let (part, number): (&[u8], u64) = match self.messages.line_number() {
            Some(line) => (b"line ", line),
            None => (b"message ", self.read),
        };
        self.errors.write_refused(part, number, why);
    }
}
