//! A bridge over a system.
ghost use Rattle.std.specs.Prelude.{◌≡◌, [], List, Some, true};
ghost use Rattle.ddcmp_ports.specs.Holding.{held_of};
ghost use Rattle.ddcmp_ports.specs.Running.{AllAgree, Event, Passage, no_passage};
ghost use Rattle.ddcmp_ports.specs.declared.port.Port.{Port as PortValue};
ghost use Rattle.ddcmp_ports.specs.declared.port.Port.TheVariants.{First, Second};
ghost use Rattle.ddcmp_bridge.specs.Crossing.{Bridges, Crosses, OpensLines, asked_of};

use crate::bridge::{Bridge, BridgeEnd};
use ddcmp_ports::{Buffers, OpenFault, System, run};

/// A system that opens two lines.
pub trait TwoLines: System {
    ghost use Rattle.ddcmp_bridge.specs.Crossing.{LinePlan};

    ghost first: { Self → LinePlan };

    ghost second: { Self → LinePlan };
}

/// Runs a bridge, which was just made, over a system that opens its lines, until it has ended.
pub fn run_bridge<'a, S: TwoLines>(
    buffers: &mut Buffers,
    bridge: &mut Bridge<'a>,
    system: &mut S,
) -> Result<BridgeEnd, OpenFault<'a>>
    requires bridge { Crosses bridge.old [] }
    requires lines { OpensLines bridge.old (S.first system.old) (S.second system.old) }
    requires held { (p : PortValue) → held_of buffers.old p ≡ [] }
    requires fresh { (p : PortValue) (t : Passage) → S.trace system.old p ≡ Some t
        → t ≡ no_passage }
    ensures crosses { (h : List Event)
        × Crosses bridge.new h × AllAgree h (held_of buffers.new) (S.trace system.new) }
    ensures passes { (one two : Passage) → S.trace system.new First ≡ Some one
        → S.trace system.new Second ≡ Some two → bridge.new.was_joined ≡ true
        → Bridges bridge.new one two }
    ensures asked { asked_of bridge.new ≡ asked_of bridge.old }
    ensures ended { bridge.new.ended ≡ Some result }
{
    run(buffers, bridge, system)
}
