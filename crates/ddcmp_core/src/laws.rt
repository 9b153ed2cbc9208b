//! Laws of the station's table. They hold whatever is received from the line.
ghost use Rattle.std.specs.Prelude.{◌≡◌, ◌≢◌, ℕ, ◌+◌, ◌<◌, ◌≤◌, Bool, List, [], length, true, Some};
ghost use Rattle.ddcmp_num.specs.Sequence.{distance};
ghost use Rattle.ddcmp_window.specs.Store.{IsStored};
ghost use Rattle.ddcmp_window.specs.Numbers.{next_number};
ghost use Rattle.ddcmp_core.specs.declared.state.State.TheVariants.{Halted, IStart, AStart};
ghost use Rattle.ddcmp_core.specs.declared.state.State.TheVariants.{Running, Maintenance};
ghost use Rattle.ddcmp_core.specs.Table.{Limits, StationState, Frame, Data, Strt, Stack, Received};
ghost use Rattle.ddcmp_core.specs.Table.{Good, Sends, new_station, on, notice_of, acknowledged_by};
ghost use Rattle.ddcmp_core.specs.Table.{next, after_next, after_ack, newly_acknowledged};
ghost use Rattle.ddcmp_core.specs.Table.{may_start, after_start, after_enter_maintenance};
ghost use Rattle.ddcmp_core.specs.Table.{after_halt, may_send, may_send_maintenance, after_accept};
ghost use Rattle.ddcmp_core.specs.Table.{after_take, after_expire, after_take_arm, is_starting};
ghost use Rattle.ddcmp_core.specs.Table.{resp_of};
ghost use Rattle.ddcmp_core.specs.Choosing.{after_choose};
ghost use Rattle.ddcmp_core.specs.Frames.{frame_of, header_of, message_of};
ghost use Rattle.ddcmp_core.specs.declared.notice.Notice.{Notice as NoticeValue};
ghost use Rattle.ddcmp_core.specs.Laws.{BeginsRunning, IsSentInWindow, HasNothing, tells_restart};
ghost use Rattle.ddcmp_core.specs.Laws.{is_fault};
ghost use Rattle.ddcmp_frame.specs.Wire.{IsFrame};
ghost use Rattle.ddcmp_frame.specs.Spelling.{IsInRange};
ghost use Rattle.ddcmp_core.specs.Core.{IsSound, IsReceivable, IsTimed};
ghost use Rattle.ddcmp_core.specs.NextFrame.{SentFor};

/// Numbers are bytes, T lies in A + 1 to N + 1, messages that were sent and aren't acknowledged are
/// queued, and the lists are within their limits: for a new station, and after each call.
pub fn stays_sound()
    ensures new { (l : Limits) → IsStored l.window l.longest [] → IsStored l.room l.longest []
        → IsSound l new_station }
    ensures receives { (l : Limits) (s : StationState) (h : Received)
        → IsReceivable l h → IsSound l s → IsSound l (on l s h) }
    ensures sends { (l : Limits) (s : StationState) → IsSound l s
        → IsSound l (after_next (next s) s) }
    ensures starts { (l : Limits) (s : StationState) → may_start s ≡ true → IsSound l s
        → IsSound l (after_start s) }
    ensures maintains { (l : Limits) (s : StationState) → may_start s ≡ true → IsSound l s
        → IsSound l (after_enter_maintenance s) }
    ensures halts { (l : Limits) (s : StationState) → IsSound l s → IsSound l (after_halt s) }
    ensures accepts { (l : Limits) (s : StationState) (message : List ℕ)
        → may_send l s message ≡ true → IsSound l s → IsSound l (after_accept s message) }
    ensures accepts_maintenance { (l : Limits) (s : StationState) (message : List ℕ)
        → may_send_maintenance l s message ≡ true → IsSound l s
        → IsSound l (after_accept s message) }
    ensures takes { (l : Limits) (s : StationState) → IsSound l s → IsSound l (after_take s) }
    ensures chooses { (l : Limits) (s : StationState) (b : Bool) → IsSound l s
        → IsSound l (after_choose b s) }
    ensures expires { (l : Limits) (s : StationState) → IsSound l s → IsSound l (after_expire s) }
    ensures arms { (l : Limits) (s : StationState) → IsSound l s → IsSound l (after_take_arm s) }
{}

/// The frame that is sent next is one of the cases with their reasons.
pub fn sends_for_a_reason()
    ensures { (s : StationState) → SentFor s (next s) }
{}

/// STRT is sent only in IStart, and STACK only in AStart.
pub fn starts_in_state()
    ensures strt { (s u : StationState) → next s ≡ Sends Strt u → s.state ≡ IStart }
    ensures stack { (s u : StationState) → next s ≡ Sends Stack u → s.state ≡ AStart }
{}

/// A station enters IStart only by `start`.
pub fn leaves_istart_for_good()
    ensures receives { (l : Limits) (s : StationState) (h : Received) → (on l s h).state ≡ IStart
        → s.state ≡ IStart }
    ensures sends { (s : StationState) → (after_next (next s) s).state ≡ s.state }
    ensures maintains { (s : StationState) → (after_enter_maintenance s).state ≡ Maintenance }
    ensures halts { (s : StationState) → (after_halt s).state ≡ Halted }
    ensures accepts { (s : StationState) (message : List ℕ) → (after_accept s message).state
        ≡ s.state }
    ensures takes { (s : StationState) → (after_take s).state ≡ s.state }
    ensures expires { (s : StationState) → (after_expire s).state ≡ s.state }
    ensures arms { (s : StationState) → (after_take_arm s).state ≡ s.state }
{}

/// A station comes to run by a STACK, or, if it replied to a STRT, by an ACK or data with RESP 0,
/// and by nothing else.
pub fn runs_after_startup()
    ensures { (l : Limits) (s : StationState) (h : Received)
        → s.state ≢ Running → (on l s h).state ≡ Running → BeginsRunning s.state h }
{}

/// Only a STRT received by a running station reports that the peer restarted; no station runs after
/// a STRT; and an input that is no good frame changes no state.
pub fn stops_at_a_strt()
    ensures told { (l : Limits) (s : StationState) (h : Received) (n : NoticeValue)
        → notice_of l s h ≡ Some n → tells_restart n ≡ true → (s.state ≡ Running)
        × (h ≡ Good Strt) }
    ensures stops { (l : Limits) (s : StationState) → (on l s (Good Strt)).state ≢ Running }
    ensures faults { (l : Limits) (s : StationState) (h : Received) → is_fault h ≡ true
        → (on l s h).state ≡ s.state }
{}

/// A data message that is sent carries R, or, if messages are acknowledged when they are taken, the
/// number of the last message taken. It is one of those queued, with a number from A + 1 to N + 1.
pub fn sends_in_window()
    ensures { (l : Limits) (s u : StationState) (resp num : ℕ) (message : List ℕ)
        → IsSound l s → next s ≡ Sends (Data resp num message) u → (resp ≡ resp_of s)
        × IsSentInWindow s num message }
{}

/// An acknowledgement never passes N, and no more messages are reported acknowledged than were
/// sent.
pub fn acknowledges_what_was_sent()
    ensures number { (s : StationState) (q : ℕ) → s.a < 256
        → distance s.a (after_ack s q).a ≤ distance s.a s.n }
    ensures newly { (s : StationState) (q : ℕ) → newly_acknowledged s q ≤ distance s.a s.n }
    ensures told { (l : Limits) (s : StationState) (h : Received) → IsSound l s
        → acknowledged_by (notice_of l s h) ≤ distance s.a s.n }
{}

/// Messages that are reported acknowledged leave the queue: with those left they are no more than
/// were queued before.
pub fn reports_what_leaves()
    ensures { (l : Limits) (s : StationState) (h : Received)
        → IsSound l s → acknowledged_by (notice_of l s h) + length (on l s h).out ≤ length s.out }
{}

/// A station that starts has sent and received nothing; in Maintenance nothing is unacknowledged.
pub fn begins_with_nothing()
    ensures starting { (l : Limits) (s : StationState) → IsSound l s → is_starting s.state ≡ true
        → HasNothing s }
    ensures maintenance { (l : Limits) (s : StationState)
        → IsSound l s → s.state ≡ Maintenance → (s.a ≡ s.n) × (s.t ≡ next_number s.a) }
{}

/// A frame that is sent is read as the same frame, and its data are within the limit.
pub fn sends_what_is_read()
    ensures { (l : Limits) (s u : StationState) (f : Frame) → IsSound l s → next s ≡ Sends f u
        → (frame_of (header_of f) (message_of f) ≡ f) × IsFrame (header_of f) (message_of f)
        × IsInRange (header_of f)
        × (length (message_of f) ≤ l.longest) }
{}

/// In a running station the timer is off only if A is N, or a REP is pending, or all queued
/// messages are to be sent; in one that starts only if its STRT or STACK is pending.
pub fn stays_timed()
    ensures new { IsTimed new_station }
    ensures receives { (l : Limits) (s : StationState) (h : Received) → IsTimed s
        → IsTimed (on l s h) }
    ensures sends { (s : StationState) → IsTimed s → IsTimed (after_next (next s) s) }
    ensures starts { (s : StationState) → IsTimed (after_start s) }
    ensures maintains { (s : StationState) → IsTimed (after_enter_maintenance s) }
    ensures halts { (s : StationState) → IsTimed (after_halt s) }
    ensures accepts { (s : StationState) (message : List ℕ) → IsTimed s
        → IsTimed (after_accept s message) }
    ensures takes { (s : StationState) → IsTimed s → IsTimed (after_take s) }
    ensures chooses { (s : StationState) (b : Bool) → IsTimed s → IsTimed (after_choose b s) }
    ensures expires { (s : StationState) → IsTimed s → IsTimed (after_expire s) }
    ensures arms { (s : StationState) → IsTimed s → IsTimed (after_take_arm s) }
{}

/// Only `acknowledge_on_take` changes when a station acknowledges: no input and no other call does.
pub fn keeps_the_mode()
    ensures receives { (l : Limits) (s : StationState) (h : Received) → (on l s h).by_user
        ≡ s.by_user }
    ensures sends { (s : StationState) → (after_next (next s) s).by_user ≡ s.by_user }
    ensures starts { (s : StationState) → (after_start s).by_user ≡ s.by_user }
    ensures maintains { (s : StationState) → (after_enter_maintenance s).by_user ≡ s.by_user }
    ensures halts { (s : StationState) → (after_halt s).by_user ≡ s.by_user }
    ensures takes { (s : StationState) → (after_take s).by_user ≡ s.by_user }
    ensures expires { (s : StationState) → (after_expire s).by_user ≡ s.by_user }
{}
