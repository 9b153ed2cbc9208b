//! A number for each result. Those below 32 are the numbers of the C library.
ghost use Rattle.std.specs.Prelude.{◌≡◌};
ghost use Rattle.ddcmp_page.specs.Codes.{code_of_input, code_of_pair, code_of_script};
ghost use Rattle.ddcmp_page.specs.Codes.{line_of_script, place_of_input};

use ddcmp_explain::{ExplainFault, NotDumped};
use ddcmp_line::ScriptFault;
use ddcmp_pair::{ConfigRefusal, PairRefusal};

pub(crate) const OK: u32 = 0;

/// The maximum length of data isn't 1 to 16383 bytes.
pub(crate) const MAX: u32 = 3;

/// An allocation failed.
pub(crate) const MEMORY: u32 = 5;

/// The output is longer than its room; its length is reported.
pub(crate) const ROOM: u32 = 14;

/// Nothing in memory fails to be read, and what carries frames between two stations never does.
const DEVICE: u32 = 38;

/// Returns the code of the result for an input; sets `at` to the index of the byte, or to the
/// number of the line, that isn't allowed.
pub(crate) fn input_code(by: Result<(), ExplainFault>, at: &mut u64) -> u32
    ensures code { result ≡ code_of_input by }
    ensures place { at.new ≡ place_of_input by }
{
    let (code, index) = match by {
        Ok(()) => (OK, 0),
        Err(ExplainFault::Odd) => (32, 0),
        Err(ExplainFault::NotHex(index)) => (33, index),
        Err(ExplainFault::Line(NotDumped::NotALine(line))) => (34, line),
        Err(ExplainFault::Line(NotDumped::Star(line))) => (35, line),
        // An output in memory fails if it can't grow.
        Err(ExplainFault::Memory | ExplainFault::Write) => (MEMORY, 0),
        Err(ExplainFault::Read) => (DEVICE, 0),
    };
    *at = index;
    code
}

/// Returns the code of the result of a script; sets `at` to the number of a wrong line.
pub(crate) fn script_code(by: Result<(), ScriptFault>, at: &mut u64) -> u32
    ensures code { result ≡ code_of_script by }
    ensures line { at.new ≡ line_of_script by }
{
    let (code, line) = match by {
        Ok(()) => (OK, 0),
        Err(ScriptFault::Line(line)) => (36, line),
        Err(ScriptFault::Hex(line)) => (37, line),
        Err(ScriptFault::Memory | ScriptFault::Write) => (MEMORY, 0),
        Err(ScriptFault::Read | ScriptFault::Carrier) => (DEVICE, 0),
    };
    *at = line;
    code
}

/// Returns the code of a refusal of two stations.
pub(crate) fn pair_code(refusal: PairRefusal) -> u32
    ensures { result ≡ code_of_pair refusal }
{
    match refusal {
        PairRefusal::First(ConfigRefusal::Window) | PairRefusal::Second(ConfigRefusal::Window) => 1,
        PairRefusal::First(ConfigRefusal::Inbox) | PairRefusal::Second(ConfigRefusal::Inbox) => 2,
        PairRefusal::First(ConfigRefusal::Max) | PairRefusal::Second(ConfigRefusal::Max) => MAX,
        PairRefusal::First(ConfigRefusal::Syn) | PairRefusal::Second(ConfigRefusal::Syn) => 4,
        PairRefusal::First(ConfigRefusal::Memory) | PairRefusal::Second(ConfigRefusal::Memory) => {
            MEMORY
        }
    }
}
