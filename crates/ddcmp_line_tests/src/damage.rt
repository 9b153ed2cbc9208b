//! The path of one message, on which one frame is damaged.
use crate::link::Link;
use ddcmp_line::{Config, End, Event};
use std::process::Abort;

const DEFAULT: Config = Config {
    window: 7,
    inbox: 8,
    max: 1500,
    syn: 0,
    restart: false,
};

/// The actions on the path of one message.
#[derive(Clone, Copy)]
enum Action {
    Start(End),
    Poll(End),
    /// The first frame from this end arrives.
    Pass(End),
    Send,
    Take,
}

const PATH: [Action; 14] = [
    Action::Start(End::A),
    Action::Start(End::B),
    Action::Poll(End::A),
    Action::Pass(End::A),
    Action::Poll(End::B),
    Action::Pass(End::B),
    Action::Poll(End::A),
    Action::Pass(End::A),
    Action::Send,
    Action::Poll(End::A),
    Action::Pass(End::A),
    Action::Take,
    Action::Poll(End::B),
    Action::Pass(End::B),
];

/// The lengths of the frames that arrive: STRT, STACK, ACK 0, data 1 and ACK 1.
const FRAMES: [usize; 5] = [8, 8, 8, 13, 8];

/// The damage to a byte.
#[derive(Clone, Copy, Debug)]
enum Spoil {
    /// It is changed by exclusive or.
    Change(u8),
    LeftOut,
}

/// Returns the link after the path, on which a byte of a frame was damaged. Actions that are then
/// refused, or find nothing to send or to arrive, have no effect.
fn after_path(rt: &(impl Abort + AllocGlobal), frame: usize, at: usize, spoil: Spoil) -> Link {
    let mut link = Link::new(rt, DEFAULT, DEFAULT);
    let mut passed = 0usize;
    for action in &PATH {
        match action {
            Action::Start(end) => {
                let _reply = link.does(rt, Event::Start(*end));
            }
            Action::Poll(end) => link.polls(rt, *end),
            Action::Pass(end) => {
                if passed == frame {
                    match spoil {
                        Spoil::Change(change) => link.damages(*end, at, change),
                        Spoil::LeftOut => link.leaves_out(*end, at),
                    }
                }
                passed = passed.saturating_add(1);
                link.passes(rt, *end);
            }
            Action::Send => {
                let _taken = link.sends(rt, End::A, b"abc");
            }
            Action::Take => {
                let _reply = link.does(rt, Event::Take(End::B));
            }
        }
    }
    link
}

/// Repairs the line; A sends a message; and repairs the line again.
fn repairs(rt: &(impl Abort + AllocGlobal), link: &mut Link) {
    for _time in 0..2u8 {
        let _settled = link.rounds(rt);
    }
    let _taken = link.sends(rt, End::A, b"z");
    for _time in 0..2u8 {
        let _settled = link.rounds(rt);
    }
}

/// One damaged byte anywhere has no lasting effect.
#[test]
fn a_damaged_byte_is_repaired(rt: HostRuntime) {
    for (frame, length) in FRAMES.iter().enumerate() {
        for at in 0..*length {
            for change in [0x01, 0xFF] {
                let mut link = after_path(&rt, frame, at, Spoil::Change(change));
                repairs(&rt, &mut link);
                link.is_done(&rt);
                assert!(rt; link.pair.given(End::A) > 0, "{frame} {at} {change}");
            }
        }
    }
}

/// Checks that if the line was honest, each end's messages were delivered at the other.
fn stays_in_order(rt: &(impl Abort + AllocGlobal), frame: usize, at: usize, spoil: Spoil) {
    let mut link = after_path(rt, frame, at, spoil);
    repairs(rt, &mut link);
    if link.pair.honest() {
        link.is_in_order(rt, End::A);
        link.is_in_order(rt, End::B);
    }
}

/// Changes each byte of a frame to each other value, or leaves it out.
fn damage_keeps_the_order(rt: &(impl Abort + AllocGlobal), frame: usize, length: usize) {
    for at in 0..length {
        for change in 1..=255u8 {
            stays_in_order(rt, frame, at, Spoil::Change(change));
        }
        stays_in_order(rt, frame, at, Spoil::LeftOut);
    }
}

#[test]
fn damage_of_strt_keeps_the_order(rt: HostRuntime) {
    damage_keeps_the_order(&rt, 0, 8);
}

#[test]
fn damage_of_stack_keeps_the_order(rt: HostRuntime) {
    damage_keeps_the_order(&rt, 1, 8);
}

#[test]
fn damage_of_ack_0_keeps_the_order(rt: HostRuntime) {
    damage_keeps_the_order(&rt, 2, 8);
}

#[test]
fn damage_of_data_keeps_the_order(rt: HostRuntime) {
    damage_keeps_the_order(&rt, 3, 13);
}

#[test]
fn damage_of_ack_1_keeps_the_order(rt: HostRuntime) {
    damage_keeps_the_order(&rt, 4, 8);
}
