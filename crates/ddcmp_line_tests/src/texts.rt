//! The text of each fault of a script and of a served station; the program reports them by texts
//! of its own.
use ddcmp_line::ScriptFault;
use ddcmp_net::ServeFault;
use ddcmp_station::LineFault;
use std::fmt::Display;
use std::process::Abort;
use std::test::Fail;

/// Checks the text of a fault.
fn reads<T: Display>(rt: &(impl Abort + AllocGlobal), fault: &T, text: &str) -> Result<(), Fail> {
    let told = fault.to_string(rt.alloc())?;
    assert!(rt; told.as_str() == text);
    Ok(())
}

#[test]
fn scripts(rt: HostRuntime) -> Result<(), Fail> {
    let rows = [
        (
            ScriptFault::Line(u64::MAX),
            "line 18446744073709551615: not a command",
        ),
        (ScriptFault::Hex(1001), "line 1001: not hexadecimal"),
        (ScriptFault::Read, "read"),
        (ScriptFault::Write, "write"),
        (ScriptFault::Memory, "memory"),
        (ScriptFault::Carrier, "carrier"),
    ];
    for (fault, text) in rows {
        reads(&rt, &fault, text)?;
    }
    Ok(())
}

#[test]
fn stations(rt: HostRuntime) -> Result<(), Fail> {
    let rows = [
        (ServeFault::Config, "memory"),
        (ServeFault::Line(LineFault::Read), "read"),
        (ServeFault::Line(LineFault::Write), "write"),
        (ServeFault::Line(LineFault::Ended), "ended"),
        (ServeFault::Line(LineFault::Memory), "memory"),
        (ServeFault::Report, "write"),
    ];
    for (fault, text) in rows {
        reads(&rt, &fault, text)?;
    }
    Ok(())
}
