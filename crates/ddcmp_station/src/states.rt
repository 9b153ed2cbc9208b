//! The text of a state.
ghost use Rattle.std.specs.Prelude.{◌≡◌};
ghost use Rattle.ddcmp_station.specs.StationText.{state_text};

use ddcmp_proto::State;

/// Returns the name of a state.
pub fn state_name(state: State) -> &'static [u8]
    ensures { result.now ≡ state_text state }
{
    match state {
        State::Halted => b"Halted",
        State::IStart => b"IStart",
        State::AStart => b"AStart",
        State::Running => b"Running",
        State::Maintenance => b"Maintenance",
    }
}
