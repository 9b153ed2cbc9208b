//! Laws of one station, of any sizes and in any state.
ghost use Rattle.std.specs.Prelude.{◌≡◌, ◌≢◌, ◌+◌, ◌%◌, ◌<◌, ◌≤◌, ◌↔◌, ◌⊎◌, ℕ, List, [], ◌∷◌, ◌++◌};
ghost use Rattle.std.specs.Prelude.{length, true, false, Some, None, Ok, Err};
ghost use Rattle.ddcmp_num.specs.Sequence.{distance, Within};
ghost use Rattle.ddcmp_core.specs.Seq.{Seq as SeqValue};
ghost use Rattle.ddcmp_frame.specs.declared.nak.Nak.{Nak as Reason};
ghost use Rattle.ddcmp_core.specs.declared.state.State.TheVariants.{Halted, AStart, Running};
ghost use Rattle.ddcmp_core.specs.declared.state.State.TheVariants.{Maintenance};
ghost use Rattle.ddcmp_core.specs.declared.state.Owed.TheVariants.{Quiet, Ack};
ghost use Rattle.ddcmp_core.specs.declared.state.Timer.TheVariants.{Off, Fresh, On};
ghost use Rattle.ddcmp_core.specs.declared.notice.Notice.TheVariants.{PeerStarts, MaintenanceSeen};
ghost use Rattle.ddcmp_core.specs.declared.notice.Notice.TheVariants.{MaintenanceDropped};
ghost use Rattle.ddcmp_core.specs.declared.notice.Notice.TheVariants.{Running as RunningNotice};
ghost use Rattle.ddcmp_core.specs.declared.station_core.StartRefusal.{StartRefusal as StartWhy};
ghost use Rattle.ddcmp_window.specs.declared.sender.SendRefusal.{SendRefusal as SendWhy};
ghost use Rattle.ddcmp_core.specs.Laws.{BeginsRunning};
ghost use Rattle.ddcmp_core.specs.Table.{Frame, Stack, is_starting, answer_to_start, after_start};
ghost use Rattle.ddcmp_core.specs.Table.{answer_to_send_maintenance};
ghost use Rattle.ddcmp_core.specs.Table.{Limits, StationState, Data, Acked, Naked, Rep, Strt};
ghost use Rattle.ddcmp_core.specs.Table.{Maint, Received, Good, Idle, Sends, on, notice_of};
ghost use Rattle.ddcmp_core.specs.Table.{acknowledged_by, next, after_next, next_frame, after_halt};
ghost use Rattle.ddcmp_core.specs.Table.{may_send, may_send_maintenance, answer_to_send};
ghost use Rattle.ddcmp_core.specs.Table.{after_accept, after_take, after_expire, after_take_arm};
ghost use Rattle.ddcmp_core.specs.Table.{resp_of};
ghost use Rattle.ddcmp_core.specs.Core.{IsSound, IsReceivable};
ghost use Rattle.ddcmp_laws.specs.Calls.{Call, after_calls, SendsInOrder, HandsUpInOrder};
ghost use Rattle.ddcmp_laws.specs.Calls.{LeavesUnanswered};
ghost use Rattle.ddcmp_core.specs.Counting.{no_counts};
ghost use Rattle.ddcmp_laws.specs.Counted.{counted_after, written_faults, counts_of_faults};
ghost use Rattle.ddcmp_laws.specs.Counted.{written_replies, counts_of_replies};
ghost use Rattle.ddcmp_laws.specs.Station.{HasHalted, Responds, Acknowledges, OnlyResponds};
ghost use Rattle.ddcmp_laws.specs.Station.{AcknowledgesUpTo, AcknowledgesNothing, HandsUp};
ghost use Rattle.ddcmp_laws.specs.Station.{HandsUpNothing, tells_mail, IsNoMessage, IsMaintenance};
ghost use Rattle.ddcmp_laws.specs.Station.{IsNoMaintenance, IsGoodMaintenance, CallsFor};
ghost use Rattle.ddcmp_laws.specs.Station.{IsStartRefused, IsRefused, WantsAnswer};
ghost use Rattle.ddcmp_laws.specs.Station.{SendsNak, BeginsAnew, HaltsAtRestart, KeepsUnder};

/// A halted station is deaf and mute: no input changes it, it sends nothing, and it accepts no
/// message. A halt leaves its numbers, its queued messages and its inbox as they were.
pub fn halted_is_deaf_and_dumb()
    ensures deaf { (l : Limits) (s : StationState) (h : Received) → s.state ≡ Halted → on l s h
        ≡ s }
    ensures dumb { (s : StationState) → s.state ≡ Halted → next s ≡ Idle }
    ensures closed { (l : Limits) (s : StationState) (message : List ℕ) → s.state ≡ Halted
        → (may_send l s message ≡ false) × (may_send_maintenance l s message ≡ false) }
    ensures halts { (s : StationState) → HasHalted s (after_halt s) }
{}

/// A running station accepts exactly the messages of 1 to `longest` bytes, while fewer than its
/// window are queued; and so does one in Maintenance, with maintenance messages. An accepted
/// message is queued after the others.
pub fn takes_what_it_may()
    ensures exactly { (l : Limits) (s : StationState) (message : List ℕ) → s.state ≡ Running
        → (may_send l s message ≡ true) ↔ ((1 ≤ length message) × (length message ≤ l.longest)
        × (length s.out < l.window)) }
    ensures maintenance { (l : Limits) (s : StationState) (message : List ℕ)
        → s.state ≡ Maintenance → (may_send_maintenance l s message ≡ true)
        ↔ ((1 ≤ length message) × (length message ≤ l.longest) × (length s.out < l.window)) }
    ensures kept { (s : StationState) (message : List ℕ) → (after_accept s message).out
        ≡ s.out ++ message ∷ [] }
{}

/// Input with a RESP within what was sent acknowledges exactly the messages up to it, be it an ACK,
/// a NAK or data; and reports how many. If it acknowledges some, no REP is pending any more. If the
/// RESP is beyond what was sent, it acknowledges none: such an ACK or NAK changes nothing, and such
/// data are received as if their RESP were A.
pub fn acknowledges_exactly()
    ensures within { (l : Limits) (s : StationState) (h : Received) (q : ℕ)
        → s.state ≡ Running → s.a < 256 → q < 256 → Responds h q → Within s.a q s.n
        → AcknowledgesUpTo q s (on l s h) (notice_of l s h) }
    ensures no_rep { (l : Limits) (s : StationState) (h : Received) (q : ℕ)
        → s.state ≡ Running → s.a < 256 → q < 256 → q ≢ s.a → Within s.a q s.n → Responds h q
        → (on l s h).rep ≡ false }
    ensures beyond { (l : Limits) (s : StationState) (h : Received) (q : ℕ)
        → s.state ≡ Running → Responds h q → ¬ Within s.a q s.n
        → AcknowledgesNothing s (on l s h) (notice_of l s h) }
    ensures ignored { (l : Limits) (s : StationState) (h : Received) (q : ℕ)
        → s.state ≡ Running → OnlyResponds h q → ¬ Within s.a q s.n
        → (on l s h ≡ s) × (notice_of l s h ≡ None) }
    ensures received { (l : Limits) (s : StationState) (q num : ℕ) (message : List ℕ)
        → s.state ≡ Running → ¬ Within s.a q s.n
        → on l s (Good (Data q num message)) ≡ on l s (Good (Data s.a num message)) }
{}

/// A running station delivers exactly the message that is next in sequence if there is room: the
/// inbox, R and what is reported change together, and an ACK is pending. Other data, a full inbox,
/// and input that is no data message change none of them; a STRT, which ends the run, has a law of
/// its own.
pub fn receives_in_step()
    ensures next { (l : Limits) (s : StationState) (resp num : ℕ) (message : List ℕ)
        → s.state ≡ Running → num ≡ (s.r + 1) % 256 → length s.inbox < l.room
        → HandsUp message s (on l s (Good (Data resp num message)))
        (notice_of l s (Good (Data resp num message))) }
    ensures other { (l : Limits) (s : StationState) (resp num : ℕ) (message : List ℕ)
        → s.state ≡ Running → num ≢ (s.r + 1) % 256
        → HandsUpNothing s (on l s (Good (Data resp num message)))
        (notice_of l s (Good (Data resp num message)))
        × ((on l s (Good (Data resp num message))).reply ≡ s.reply) }
    ensures full { (l : Limits) (s : StationState) (resp num : ℕ) (message : List ℕ)
        → s.state ≡ Running → l.room ≤ length s.inbox
        → HandsUpNothing s (on l s (Good (Data resp num message)))
        (notice_of l s (Good (Data resp num message))) }
    ensures none { (l : Limits) (s : StationState) (h : Received)
        → s.state ≡ Running → IsNoMessage h
        → HandsUpNothing s (on l s h) (notice_of l s h) }
{}

/// Data with RESP 0 end the handshake of a station that replies to a STRT, and are received as a
/// running station receives them: the message that is next is delivered at once if there is room,
/// and no other is. Data with another RESP leave the handshake as it was.
pub fn data_end_a_startup()
    ensures next { (l : Limits) (s : StationState) (num : ℕ) (message : List ℕ)
        → s.state ≡ AStart → num ≡ (s.r + 1) % 256 → length s.inbox < l.room
        → ((on l s (Good (Data 0 num message))).state ≡ Running)
        × HandsUp message s (on l s (Good (Data 0 num message)))
        (notice_of l s (Good (Data 0 num message))) }
    ensures other { (l : Limits) (s : StationState) (num : ℕ) (message : List ℕ)
        → s.state ≡ AStart → (num ≢ (s.r + 1) % 256) ⊎ (l.room ≤ length s.inbox)
        → ((on l s (Good (Data 0 num message))).state ≡ Running)
        × HandsUpNothing s (on l s (Good (Data 0 num message)))
        (notice_of l s (Good (Data 0 num message))) }
    ensures not_yet { (l : Limits) (s : StationState) (resp num : ℕ) (message : List ℕ)
        → s.state ≡ AStart → resp ≢ 0
        → (on l s (Good (Data resp num message)) ≡ s)
        × (notice_of l s (Good (Data resp num message)) ≡ None) }
{}

/// A header that can't be read, and a data message that is damaged or too long, are answered by a
/// NAK at once: the next frame is a NAK with R (or, if messages are acknowledged when they are
/// taken, the last one taken) and the reason, and nothing else has changed. The same holds for the
/// next message if there is no room. The reply to a REP is an ACK if all messages that it asks for
/// were received, and otherwise a NAK.
pub fn asks_at_once()
    ensures fault { (l : Limits) (s : StationState) (h : Received) (k : ℕ) → s.state ≡ Running
        → CallsFor h k → SendsNak k (resp_of s) (on l s h)
        × (on l s h ≡ record s { reply = (on l s h).reply }) }
    ensures no_room { (l : Limits) (s : StationState) (resp num : ℕ) (message : List ℕ)
        → s.state ≡ Running → num ≡ (s.r + 1) % 256 → l.room ≤ length s.inbox
        → SendsNak 8 (resp_of s) (on l s (Good (Data resp num message))) }
    ensures missing { (l : Limits) (s : StationState) (num : ℕ) → s.state ≡ Running → num ≢ s.r
        → SendsNak 3 (resp_of s) (on l s (Good (Rep num)))
        × (on l s (Good (Rep num)) ≡ record s { reply = (on l s (Good (Rep num))).reply }) }
    ensures all_came { (l : Limits) (s : StationState) → s.state ≡ Running
        → on l s (Good (Rep s.r)) ≡ record s { reply = Ack } }
{}

/// A running station always reports a STRT. If it may restart and has no received message in its
/// inbox, it restarts as its peer does; otherwise it halts.
pub fn reports_each_strt()
    ensures restarts { (l : Limits) (s : StationState) → s.state ≡ Running → l.restart ≡ true
        → s.inbox ≡ [] → BeginsAnew s (on l s (Good Strt)) (notice_of l s (Good Strt)) }
    ensures halts { (l : Limits) (s : StationState) → s.state ≡ Running
        → (l.restart ≡ false) ⊎ (0 < length s.inbox)
        → HaltsAtRestart s (on l s (Good Strt)) (notice_of l s (Good Strt)) }
{}

/// A STRT received by a station that is halted or in Maintenance is reported. So is a maintenance
/// message: outside Maintenance that it was received, and in Maintenance that it was dropped since
/// the inbox is full. Each of these three notices means that and nothing else.
pub fn reports_what_it_leaves_alone()
    ensures peer_starts { (l : Limits) (s : StationState) (h : Received)
        → (notice_of l s h ≡ Some PeerStarts)
        ↔ ((h ≡ Good Strt) × ((s.state ≡ Halted) ⊎ (s.state ≡ Maintenance))) }
    ensures seen { (l : Limits) (s : StationState) (h : Received)
        → (notice_of l s h ≡ Some MaintenanceSeen)
        ↔ (IsGoodMaintenance h × (s.state ≢ Maintenance)) }
    ensures dropped { (l : Limits) (s : StationState) (h : Received)
        → (notice_of l s h ≡ Some MaintenanceDropped)
        ↔ (IsGoodMaintenance h × (s.state ≡ Maintenance) × (l.room ≤ length s.inbox)) }
{}

/// `start` returns how many messages it drops, or why it is refused: that the station isn't halted
/// takes precedence over messages that weren't taken. A message is refused for the first of four
/// reasons: another state, no bytes, too many bytes, and a full window.
pub fn refuses_for_the_first_reason()
    ensures started { (s : StationState) → s.state ≡ Halted → s.inbox ≡ []
        → (answer_to_start s ≡ Ok (length s.out)) × ((after_start s).out ≡ []) }
    ensures start { (s : StationState) (why : StartWhy) → IsStartRefused s why
        → answer_to_start s ≡ Err why }
    ensures send { (l : Limits) (s : StationState) (message : List ℕ) (why : SendWhy)
        → IsRefused Running l s message why → answer_to_send l s message ≡ Err why }
    ensures maintenance { (l : Limits) (s : StationState) (message : List ℕ)
        (why : SendWhy) → IsRefused Maintenance l s message why
        → answer_to_send_maintenance l s message ≡ Err why }
{}

/// A station that starts replies to a STRT with a STACK. A STACK makes it run, with an ACK pending,
/// and an ACK with RESP 0 makes one run that replied to a STRT. Nothing else but data with RESP 0
/// changes it, so no fault, NAK or REP of that time has a reply once it runs.
pub fn starts_by_what_answers_it()
    ensures strt { (l : Limits) (s : StationState) → is_starting s.state ≡ true
        → next_frame (next (on l s (Good Strt))) ≡ Some Stack }
    ensures stack { (l : Limits) (s : StationState) → is_starting s.state ≡ true
        → (on l s (Good Stack)
        ≡ record s { state = Running; due = false; reply = Ack; timer = Off })
        × (notice_of l s (Good Stack) ≡ Some RunningNotice) }
    ensures ack { (l : Limits) (s : StationState) → s.state ≡ AStart
        → (on l s (Good (Acked 0)) ≡ record s { state = Running; due = false; timer = Off })
        × (notice_of l s (Good (Acked 0)) ≡ Some RunningNotice) }
    ensures nothing_else { (l : Limits) (s : StationState) (h : Received)
        → is_starting s.state ≡ true → h ≢ Good Strt → ¬ BeginsRunning s.state h
        → on l s h ≡ s }
{}

/// There is no reply to a reply: an ACK and a NAK leave no reply pending, and a pending reply is
/// sent once.
pub fn answers_no_answer()
    ensures ack { (l : Limits) (s : StationState) (q : ℕ) → s.state ≡ Running
        → (on l s (Good (Acked q))).reply ≡ s.reply }
    ensures nak { (l : Limits) (s : StationState) (why : Reason) (q : ℕ) → s.state ≡ Running
        → (on l s (Good (Naked why q))).reply ≡ s.reply }
    ensures acked { (s u : StationState) (r : ℕ) → next s ≡ Sends (Acked r) u → u.reply ≡ Quiet }
    ensures naked { (s u : StationState) (why : Reason) (r : ℕ) → next s ≡ Sends (Naked why r) u
        → u.reply ≡ Quiet }
    ensures data { (s u : StationState) (r num : ℕ) (message : List ℕ)
        → next s ≡ Sends (Data r num message) u → u.reply ≡ Quiet }
{}

/// The timer isn't starved: data start a timer that is off, and leave one that is running as it is;
/// a STRT, a STACK and a REP restart it. Input that acknowledges all that was sent stops it, and so
/// does a NAK, which withdraws a REP, too; an ACK or data that acknowledge a part restart it. If it
/// expires while a message is unacknowledged and no NAK is pending, the station sends a REP; if all
/// are acknowledged, no REP becomes pending. Over any number of calls a timer that is on stays on,
/// and so expires in the end, whatever is sent and received, until something is acknowledged or a
/// NAK arrives, or the peer restarts.
pub fn timer_is_not_starved()
    ensures running { (s u : StationState) (r num : ℕ) (message : List ℕ)
        → next s ≡ Sends (Data r num message) u → s.timer ≢ Off → u.timer ≡ s.timer }
    ensures starts { (s u : StationState) (r num : ℕ) (message : List ℕ)
        → next s ≡ Sends (Data r num message) u → s.timer ≡ Off → u.timer ≡ Fresh }
    ensures anew { (s u : StationState) (f : Frame) → next s ≡ Sends f u → WantsAnswer f
        → u.timer ≡ Fresh }
    ensures ends { (l : Limits) (s : StationState) (h : Received) → s.state ≡ Running
        → s.a < 256 → s.n < 256 → s.a ≢ s.n → Responds h s.n → (on l s h).timer ≡ Off }
    ensures ends_by_nak { (l : Limits) (s : StationState) (why : Reason) (q : ℕ)
        → s.state ≡ Running → Within s.a q s.n
        → ((on l s (Good (Naked why q))).timer ≡ Off)
        × ((on l s (Good (Naked why q))).rep ≡ false) }
    ensures renewed { (l : Limits) (s : StationState) (h : Received) (q : ℕ) → s.state ≡ Running
        → s.a < 256 → q < 256 → q ≢ s.a → q ≢ s.n → Within s.a q s.n → Acknowledges h q
        → (on l s h).timer ≡ Fresh }
    ensures asks { (s : StationState) → s.state ≡ Running → s.timer ≢ Off → s.a ≢ s.n
        → (s.reply ≡ Quiet) ⊎ (s.reply ≡ Ack)
        → next_frame (next (after_expire s)) ≡ Some (Rep s.n) }
    ensures asks_nothing { (s : StationState) → s.a ≡ s.n → (after_expire s).rep ≡ s.rep }
    ensures stays { (l : Limits) (s : StationState) (calls : List Call) → s.state ≡ Running
        → s.rep ≡ false → s.timer ≡ On → LeavesUnanswered s.a calls
        → (after_calls l calls s).timer ≡ On }
{}

/// The number that `send` returns is the number of that message on the line, each time that it is
/// sent: from then on, while the station runs, only this message is queued under that number, and a
/// message sent under a number is the one queued under it, until it is reported acknowledged.
pub fn sends_under_the_number_returned()
    ensures answered { (l : Limits) (s : StationState) (message : List ℕ) (number : SeqValue)
        → answer_to_send l s message ≡ Ok number
        → KeepsUnder (after_accept s message) number.0 message }
    ensures sent { (l : Limits) (s u : StationState) (r num : ℕ) (message : List ℕ)
        → IsSound l s → next s ≡ Sends (Data r num message) u → KeepsUnder s num message }
    ensures one { (l : Limits) (s : StationState) (number : ℕ) (message other : List ℕ)
        → IsSound l s → KeepsUnder s number message → KeepsUnder s number other
        → message ≡ other }
    ensures stays_when_sent { (s : StationState) (number : ℕ) (message : List ℕ)
        → s.state ≡ Running → KeepsUnder s number message
        → KeepsUnder (after_next (next s) s) number message }
    ensures stays_when_accepted { (s : StationState) (number : ℕ) (message other : List ℕ)
        → KeepsUnder s number message → KeepsUnder (after_accept s other) number message }
    ensures stays_when_taken { (s : StationState) (number : ℕ) (message : List ℕ)
        → KeepsUnder s number message → KeepsUnder (after_take s) number message }
    ensures stays_when_expired { (s : StationState) (number : ℕ) (message : List ℕ)
        → KeepsUnder s number message → KeepsUnder (after_expire s) number message }
    ensures stays_when_armed { (s : StationState) (number : ℕ) (message : List ℕ)
        → KeepsUnder s number message → KeepsUnder (after_take_arm s) number message }
    ensures stays_when_received { (l : Limits) (s : StationState) (h : Received) (number : ℕ)
        (message : List ℕ) → IsSound l s → IsReceivable l h
        → s.state ≡ Running → (on l s h).state ≡ Running → KeepsUnder s number message
        → (distance s.a number ≤ acknowledged_by (notice_of l s h))
        ⊎ KeepsUnder (on l s h) number message }
{}

/// Maintenance is separate: outside it a maintenance message changes nothing, be it good, damaged
/// or too long, and in Maintenance nothing else does. There each message goes to the inbox, after
/// the others, or is lost if there is no room; and those to be sent are sent in their order.
pub fn maintenance_stands_apart()
    ensures elsewhere { (l : Limits) (s : StationState) (h : Received)
        → s.state ≢ Maintenance → IsMaintenance h → on l s h ≡ s }
    ensures nothing_else { (l : Limits) (s : StationState) (h : Received)
        → s.state ≡ Maintenance → IsNoMaintenance h → on l s h ≡ s }
    ensures handed_up { (l : Limits) (s : StationState) (message : List ℕ)
        → s.state ≡ Maintenance → length s.inbox < l.room
        → (on l s (Good (Maint message)) ≡ record s { inbox = s.inbox ++ message ∷ [] })
        × (tells_mail (notice_of l s (Good (Maint message))) ≡ true) }
    ensures lost { (l : Limits) (s : StationState) (message : List ℕ)
        → s.state ≡ Maintenance → l.room ≤ length s.inbox
        → (on l s (Good (Maint message)) ≡ s)
        × (tells_mail (notice_of l s (Good (Maint message))) ≡ false) }
    ensures sent { (s : StationState) (message : List ℕ) (rest : List (List ℕ))
        → s.state ≡ Maintenance → s.out ≡ message ∷ rest
        → next s ≡ Sends (Maint message) (record s { out = rest }) }
{}

/// Over any number of calls in Maintenance, whatever the input: the messages sent are those that
/// were accepted, in that order and each once, and those not sent yet are still queued. The
/// messages delivered are those that were received, in that order and each once, or lost.
pub fn maintenance_is_in_order()
    ensures sent { (l : Limits) (s : StationState) (calls : List Call) → s.state ≡ Maintenance
        → SendsInOrder l calls s }
    ensures handed_up { (l : Limits) (s : StationState) (calls : List Call)
        → s.state ≡ Maintenance → HandsUpInOrder l calls s }
{}

/// An input is counted only by its own counter. The four faults are counted in every state; NAKs,
/// each under its reason, and REPs while the station runs.
pub fn counts_what_comes()
    ensures faults { (l : Limits) (s : StationState)
        → counted_after l written_faults s no_counts ≡ counts_of_faults }
    ensures replies { (l : Limits) (s : StationState) → s.state ≡ Running
        → counted_after l written_replies s no_counts ≡ counts_of_replies }
    ensures elsewhere { (l : Limits) (s : StationState) → s.state ≢ Running
        → counted_after l written_replies s no_counts ≡ no_counts }
{}
