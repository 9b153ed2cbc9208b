//! Notes beside the lines of the ends.
ghost use Rattle.std.specs.Prelude.{◌≡◌, [], ◌∷◌, true, false};
ghost use Rattle.ddcmp_io.specs.Device.{Logs};
ghost use Rattle.ddcmp_picture.specs.Labels.{reply_label};
ghost use Rattle.ddcmp_picture.specs.Marks.{answer_label, fault_marks, look_marks, name_state};
ghost use Rattle.ddcmp_picture.specs.Marks.{names_state, now_marks};
ghost use Rattle.ddcmp_picture.specs.Marks.{notice_marks, same_state, sent_label, told_marks};

use crate::labels::{faults_text, holding_text, notice_text, numbers_text};
use crate::mark::Mark;
use crate::paper::Paper;
use crate::replies::{answer_text, words};
use crate::short_text::ShortText;
use crate::states::Seen;
use ddcmp_pair::{End, Notice, Reply, State, Station};
use ddcmp_station::state_name;

/// Returns whether two states are equal.
fn is_same(before: State, now: State) -> bool
    ensures { result ≡ same_state before now }
{
    match (before, now) {
        (State::Halted, State::Halted) => true,
        (State::IStart, State::IStart) => true,
        (State::AStart, State::AStart) => true,
        (State::Running, State::Running) => true,
        (State::Maintenance, State::Maintenance) => true,
        _ => false,
    }
}

/// Returns whether a notice implies that this is the state now.
fn names(notice: Notice, now: State) -> bool
    ensures { result ≡ names_state notice now }
{
    match (notice, now) {
        (Notice::Running | Notice::RunningAndHandedUp, State::Running) => true,
        (Notice::MaintenanceSeen, State::Maintenance) => true,
        (Notice::MaintenanceHandedUp, State::Maintenance) => true,
        (Notice::MaintenanceDropped, State::Maintenance) => true,
        _ => false,
    }
}

/// Returns whether one of some notices does.
fn name(notices: &[Notice], now: State) -> bool
    ensures { result ≡ name_state notices.now now }
{
    for i in 0..notices.len() {
        if names(notices[i], now) {
            return true;
        }
    }
    false
}

/// Draws a text beside the line of an end.
pub(crate) fn note<P: Paper>(paper: &mut P, at: End, text: ShortText, is_beside: bool)
    ensures { Logs (P.drawn paper.old) (P.drawn paper.new) (Mark.Note at text is_beside ∷ []) }
{
    paper.put(&Mark::Note {
        at,
        text,
        is_beside,
    });
}

/// Draws a text about both ends.
pub(crate) fn across<P: Paper>(paper: &mut P, text: ShortText)
    ensures { Logs (P.drawn paper.old) (P.drawn paper.new) (Mark.Across text ∷ []) }
{
    paper.put(&Mark::Across(text));
}

/// Draws the reply at an end, with the new state if it has changed.
pub(crate) fn answer<P: Paper>(paper: &mut P, at: End, reply: &Reply, before: State, now: State)
    ensures { Logs (P.drawn paper.old) (P.drawn paper.new)
        (Mark.Note at (answer_label (reply_label reply.now) before now) false ∷ []) }
{
    let text = answer_text(reply);
    if is_same(before, now) {
        note(paper, at, text, false);
    } else {
        note(paper, at, text.with(b", now ").with(state_name(now)), false);
    }
}

/// Draws the reply to a message that was passed to an end.
pub(crate) fn sent<P: Paper>(paper: &mut P, at: End, message: &[u8], reply: &Reply)
    ensures { Logs (P.drawn paper.old) (P.drawn paper.new)
        (Mark.Note at (sent_label message.now reply.now) false ∷ []) }
{
    let text = match reply {
        Reply::Accepted(_) => answer_text(reply).with(b": ").with_bytes(message),
        _ => answer_text(reply),
    };
    note(paper, at, text, false);
}

fn draw_notices<P: Paper>(paper: &mut P, to: End, notices: &[Notice])
    ensures { Logs (P.drawn paper.old) (P.drawn paper.new) (notice_marks to true notices.now) }
{
    for i in 0..notices.len() {
        note(paper, to, notice_text(notices[i]), i == 0);
    }
}

/// Draws what was wrong with an arrival, if anything was.
#[tactic(auto, using(crate::proofs::NoteLaws::logs_none))]
fn draw_faults<P: Paper>(paper: &mut P, to: End, is_beside: bool, faults: ShortText)
    ensures { Logs (P.drawn paper.old) (P.drawn paper.new) (fault_marks to is_beside faults) }
{
    if !faults.is_blank() {
        note(paper, to, faults, is_beside);
    }
}

/// Draws the new state after an arrival, if it has changed and no notice implies it.
#[tactic(auto, using(crate::proofs::NoteLaws::logs_none))]
fn draw_state<P: Paper>(
    paper: &mut P,
    to: End,
    is_beside: bool,
    notices: &[Notice],
    before: State,
    now: State,
)
    ensures { Logs (P.drawn paper.old) (P.drawn paper.new)
        (now_marks to is_beside notices.now before now) }
{
    if !is_same(before, now) && !name(notices, now) {
        let text = words(b"now ").with(state_name(now));
        note(paper, to, text, is_beside);
    }
}

/// Draws what an end reported on an arrival, in its row and below: its notices, the faults that it
/// counted, and the new state if no notice implies it.
#[tactic(auto, using(crate::proofs::NoteLaws::logs_then))]
pub(crate) fn report<P: Paper>(
    paper: &mut P,
    to: End,
    notices: &[Notice],
    before: &Seen,
    now: &Seen,
)
    ensures { Logs (P.drawn paper.old) (P.drawn paper.new)
        (told_marks to notices.now before.now now.now) }
{
    let faults = faults_text(&before.counters, &now.counters);
    let is_beside = notices.is_empty() && faults.is_blank();
    draw_notices(paper, to, notices);
    draw_faults(paper, to, notices.is_empty(), faults);
    draw_state(paper, to, is_beside, notices, before.state, now.state);
}

/// Draws the state and the numbers of a station; how many messages are in its send queue and in its
/// inbox; and whether its timer is on.
#[tactic(auto, using(crate::proofs::NoteLaws::logs_then))]
pub(crate) fn look<P: Paper>(paper: &mut P, at: End, station: &Station)
    ensures { Logs (P.drawn paper.old) (P.drawn paper.new)
        (look_marks at station.now.core.station) }
{
    note(paper, at, numbers_text(station), false);
    note(paper, at, holding_text(station), false);
}
