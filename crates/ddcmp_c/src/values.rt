//! The structs of C, and a number for each result.
ghost use Rattle.std.specs.Prelude.{◌≡◌, ◌≢◌, ℕ, option_to_list, None, Ok, IsErr};
ghost use Rattle.ddcmp_num.specs.declared.seq.Seq.{Seq as SeqValue};
ghost use Rattle.ddcmp_core.specs.Table.{acknowledged_by};
ghost use Rattle.ddcmp_c.specs.Codes.{code_of_config, code_of_start_answer, code_of_send_answer};
ghost use Rattle.ddcmp_c.specs.Codes.{code_of_refusal, code_of_state, code_of_notices};
ghost use Rattle.ddcmp_c.specs.Codes.{acknowledged_of, given_nak_counts, given_counters};
ghost use Rattle.ddcmp_c.specs.Codes.{given_config, taken_config, code_of_choose_answer};

use ddcmp_proto::{
    Config, ConfigRefusal, Counters, NakCounts, Notice, Numbers, SendRefusal, Seq, StartRefusal,
    State,
};

/// The sizes of a station, for C.
#[repr(C)]
#[derive(Clone, Copy)]
pub struct CConfig {
    pub window: u16,
    pub inbox: u16,
    pub max: u16,
    pub syn: u8,
    /// Not 0: restart when the peer restarts, if the inbox is empty.
    pub restart: u8,
}

/// A notice, for C: its kind, 0 if there is none, and a number of messages.
#[repr(C)]
#[derive(Clone, Copy)]
pub struct CNotice {
    pub kind: u8,
    pub count: u8,
}

/// The numbers, for C.
#[repr(C)]
#[derive(Clone, Copy)]
pub struct CNumbers {
    pub r: u8,
    pub n: u8,
    pub a: u8,
    pub t: u8,
}

/// NAKs by their reasons, for C.
#[repr(C)]
#[derive(Clone, Copy)]
pub struct CNakCounts {
    pub header_check: u32,
    pub data_check: u32,
    pub reply_to_rep: u32,
    pub no_buffer: u32,
    pub overrun: u32,
    pub too_long: u32,
    pub format: u32,
    pub other: u32,
}

/// The counters, for C.
#[repr(C)]
#[derive(Clone, Copy)]
pub struct CCounters {
    pub nak_sent: CNakCounts,
    pub nak_received: CNakCounts,
    pub rep_sent: u32,
    pub rep_received: u32,
    pub messages_sent: u32,
    pub bytes_sent: u32,
    pub messages_again: u32,
    pub bytes_again: u32,
    pub messages_up: u32,
    pub bytes_up: u32,
    pub expiries: u32,
    pub header_checks: u32,
    pub data_checks: u32,
    pub too_longs: u32,
    pub formats: u32,
}

pub(crate) const OK: u32 = 0;

/// The maximum length of data isn't 1 to 16383 bytes.
pub(crate) const MAX: u32 = 3;

/// An allocation failed.
pub(crate) const MEMORY: u32 = 5;

/// There is nothing in the handle.
pub(crate) const CLOSED: u32 = 6;

/// The handle isn't empty.
pub(crate) const OPEN: u32 = 7;

/// The buffer is too short.
pub(crate) const ROOM: u32 = 14;

/// The line would have more bytes than can be counted.
pub(crate) const LONG_LINE: u32 = 15;

/// There is no such message.
pub(crate) const ABSENT: u32 = 16;

/// A field of a header is out of range. (17 is returned by the C header itself, for null pointers.)
pub(crate) const BAD_HEADER: u32 = 18;

/// The number of bytes of data isn't the count of the header.
pub(crate) const BAD_COUNT: u32 = 19;

/// Returns the code of a refusal of sizes.
pub(crate) fn config_code(refusal: ConfigRefusal) -> u32
    ensures { result ≡ code_of_config refusal }
{
    match refusal {
        ConfigRefusal::Window => 1,
        ConfigRefusal::Inbox => 2,
        ConfigRefusal::Max => 3,
        ConfigRefusal::Syn => 4,
        ConfigRefusal::Memory => MEMORY,
    }
}

/// Returns the code of the result of a start; if it started, sets `dropped`.
pub(crate) fn start_code(answer: Result<u8, StartRefusal>, dropped: &mut u8) -> u32
    ensures code { result ≡ code_of_start_answer answer }
    ensures dropped { (n : ℕ) → answer ≡ Ok n → dropped.new ≡ n }
    ensures refused { result ≢ OK → (dropped.new ≡ dropped.old) × IsErr answer }
{
    match answer {
        Ok(count) => {
            *dropped = count;
            0
        }
        Err(StartRefusal::NotHalted) => 8,
        Err(StartRefusal::Untaken) => 9,
    }
}

/// Returns the code of a choice.
pub(crate) fn choose_code(answer: Result<(), StartRefusal>) -> u32
    ensures code { result ≡ code_of_choose_answer answer }
    ensures refused { result ≢ OK → IsErr answer }
{
    match answer {
        Ok(()) => 0,
        Err(StartRefusal::NotHalted) => 8,
        Err(StartRefusal::Untaken) => 9,
    }
}

/// Returns the code of the result of a send; if it was accepted, sets `number`.
pub(crate) fn send_code(answer: Result<Seq, SendRefusal>, number: &mut u8) -> u32
    ensures code { result ≡ code_of_send_answer answer }
    ensures number { (n : SeqValue) → answer ≡ Ok n → number.new ≡ n.0 }
    ensures refused { result ≢ OK → (number.new ≡ number.old) × IsErr answer }
{
    match answer {
        Ok(seq) => {
            *number = seq.0;
            0
        }
        Err(refusal) => refusal_code(refusal),
    }
}

/// Returns the code of a refusal of a message.
pub(crate) fn refusal_code(refusal: SendRefusal) -> u32
    ensures { result ≡ code_of_refusal refusal }
{
    match refusal {
        SendRefusal::WrongState => 10,
        SendRefusal::Empty => 11,
        SendRefusal::TooLong => 12,
        SendRefusal::WindowFull => 13,
    }
}

/// Returns the code of a state.
pub(crate) fn state_code(state: State) -> u32
    ensures { result ≡ code_of_state state }
{
    match state {
        State::Halted => 0,
        State::IStart => 1,
        State::AStart => 2,
        State::Running => 3,
        State::Maintenance => 4,
    }
}

/// Converts a notice for C.
pub(crate) fn notice_code(notice: Option<Notice>) -> CNotice
    ensures code { result ≡ code_of_notices (option_to_list notice) }
    ensures acknowledged { acknowledged_of result ≡ acknowledged_by notice }
    ensures none { result.kind ≡ 0 → notice ≡ None }
{
    match notice {
        None => CNotice { kind: 0, count: 0 },
        Some(Notice::Running) => CNotice { kind: 1, count: 0 },
        Some(Notice::RunningAndHandedUp) => CNotice { kind: 2, count: 0 },
        Some(Notice::Acknowledged(count)) => CNotice { kind: 3, count },
        Some(Notice::HandedUp) => CNotice { kind: 4, count: 0 },
        Some(Notice::HandedUpAndAcknowledged(count)) => CNotice { kind: 5, count },
        Some(Notice::PeerStarts) => CNotice { kind: 6, count: 0 },
        Some(Notice::PeerRestarted) => CNotice { kind: 7, count: 0 },
        Some(Notice::Restarted(count)) => CNotice { kind: 8, count },
        Some(Notice::MaintenanceSeen) => CNotice { kind: 9, count: 0 },
        Some(Notice::MaintenanceHandedUp) => CNotice { kind: 10, count: 0 },
        Some(Notice::MaintenanceDropped) => CNotice { kind: 11, count: 0 },
    }
}

/// Converts the counters of NAKs for C.
fn nak_counts_of(counts: &NakCounts) -> CNakCounts
    ensures { result ≡ given_nak_counts counts.now }
{
    CNakCounts {
        header_check: counts.header_check,
        data_check: counts.data_check,
        reply_to_rep: counts.reply_to_rep,
        no_buffer: counts.no_buffer,
        overrun: counts.overrun,
        too_long: counts.too_long,
        format: counts.format,
        other: counts.other,
    }
}

/// Converts the counters for C.
pub(crate) fn counters_of(counters: &Counters) -> CCounters
    ensures { result ≡ given_counters counters.now }
{
    CCounters {
        nak_sent: nak_counts_of(&counters.nak_sent),
        nak_received: nak_counts_of(&counters.nak_received),
        rep_sent: counters.rep_sent,
        rep_received: counters.rep_received,
        messages_sent: counters.messages_sent,
        bytes_sent: counters.bytes_sent,
        messages_again: counters.messages_again,
        bytes_again: counters.bytes_again,
        messages_up: counters.messages_up,
        bytes_up: counters.bytes_up,
        expiries: counters.expiries,
        header_checks: counters.header_checks,
        data_checks: counters.data_checks,
        too_longs: counters.too_longs,
        formats: counters.formats,
    }
}

/// Returns the sizes that C passed.
pub(crate) fn asked_sizes(config: &CConfig) -> Config
    ensures { result ≡ taken_config config.now }
{
    Config {
        window: config.window,
        inbox: config.inbox,
        max: config.max,
        syn: config.syn,
        restart: config.restart != 0,
    }
}

/// Converts the numbers of a station for C.
pub(crate) fn numbers_of(numbers: Numbers) -> CNumbers
    ensures { result ≡ record {
      r = numbers.r.0;
      n = numbers.n.0;
      a = numbers.a.0;
      t = numbers.t.0;
    } }
{
    CNumbers {
        r: numbers.r.0,
        n: numbers.n.0,
        a: numbers.a.0,
        t: numbers.t.0,
    }
}

/// Converts the sizes for C.
pub(crate) fn sizes_of(config: Config) -> CConfig
    ensures { result ≡ given_config config }
{
    CConfig {
        window: config.window,
        inbox: config.inbox,
        max: config.max,
        syn: config.syn,
        restart: config.restart as u8,
    }
}
