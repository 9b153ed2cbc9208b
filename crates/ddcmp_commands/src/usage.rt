//! Usage errors, and the ending if a line can't be opened.
ghost use Rattle.std.specs.Prelude.{◌≡◌, ◌≢◌, IfOk, string_bytes, true};
ghost use Rattle.ddcmp_commands.specs.Endings.{IsLineUnopened, IsUsage, is_refusal};
ghost use Rattle.ddcmp_commands.specs.Endings.{usage_text as text_of};
ghost use Rattle.ddcmp_ports.specs.Events.{open_fault_text};

use crate::ending::Ending;
use crate::fault::Fault;
use ddcmp_ports::OpenFault;
use std::alloc::{AllocError, Global};

/// Returns a usage error: what is wrong, and where to find help.
pub fn usage(alloc: Global, what: &str) -> Ending
    ensures refusal { is_refusal result ≡ true }
    ensures kept { result ≢ Ending.Fault Fault.Write }
    ensures text { IsUsage (text_of what.now) result }
{
    match usage_text(alloc, what) {
        Ok(text) => Ending::Usage(text),
        Err(_refused) => Ending::Fault(Fault::Memory),
    }
}

fn usage_text(alloc: Global, what: &str) -> Result<String, AllocError>
    ensures { IfOk result (λ text. string_bytes text ≡ text_of what.now) }
{
    let mut text = String::from_str(alloc, "error: ")?;
    text.push_str(what)?;
    text.push_str("\n\nFor more information, try '--help'.\n")?;
    Ok(text)
}

/// Returns the ending if the line can't be opened.
pub fn no_line(alloc: Global, fault: &OpenFault<'_>) -> Ending
    ensures told { result ≢ Ending.Fault Fault.Write }
    ensures unopened { IsLineUnopened (open_fault_text fault.now) result }
{
    match fault.to_string(alloc) {
        Ok(text) => Ending::NoLine(text),
        Err(_refused) => Ending::Fault(Fault::Memory),
    }
}
