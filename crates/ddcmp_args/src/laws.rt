//! Laws of the command line: which arguments ask for each command.
ghost use Rattle.std.specs.Prelude.{◌≡◌, ◌∷◌, [], false, Some, None, codes};
ghost use Rattle.clap.specs.Words.{fault_of, takes};
ghost use Rattle.ddcmp_args.specs.Args.{IsAsked, IsSwitch, option_in, text_in, program};

use clap::error::ErrorKind as WordsFault;

/// The words `ddcmp explain` ask for the command that explains, without its options. The names of
/// one file and of two, `--raw`, `--from hexdump`, `--json`, `--discarded`, `--ladder` and `--max
/// 1500` are accepted. `ddcmp --help` asks for help, and `ddcmp --version` for the version.
pub fn explain_is_asked()
    ensures plain { IsAsked (codes "ddcmp" ∷ codes "explain" ∷ []) (codes "explain") }
    ensures no_maximum { option_in (codes "ddcmp" ∷ codes "explain" ∷ []) (codes "max") ≡ None }
    ensures raw { IsSwitch (codes "explain") (codes "--raw") (codes "raw") }
    ensures no_dump { text_in (codes "ddcmp" ∷ codes "explain" ∷ []) (codes "from") ≡ None }
    ensures dump { text_in (codes "ddcmp" ∷ codes "explain" ∷ codes "--from" ∷ codes "hexdump" ∷ [])
        (codes "from") ≡ Some (codes "hexdump") }
    ensures json { IsSwitch (codes "explain") (codes "--json") (codes "json") }
    ensures discarded { IsSwitch (codes "explain") (codes "--discarded") (codes "discarded") }
    ensures ladder { IsSwitch (codes "explain") (codes "--ladder") (codes "ladder") }
    ensures maximum { option_in
        (codes "ddcmp" ∷ codes "explain" ∷ codes "--max" ∷ codes "1500" ∷ []) (codes "max")
        ≡ Some (codes "1500") }
    ensures no_file { text_in (codes "ddcmp" ∷ codes "explain" ∷ []) (codes "file") ≡ None }
    ensures file { text_in (codes "ddcmp" ∷ codes "explain" ∷ codes "--raw" ∷ codes "a.bin" ∷ [])
        (codes "file") ≡ Some (codes "a.bin") }
    ensures standard_input { text_in (codes "ddcmp" ∷ codes "explain" ∷ codes "-" ∷ [])
        (codes "file") ≡ Some (codes "-") }
    ensures no_second { text_in (codes "ddcmp" ∷ codes "explain" ∷ codes "a.bin" ∷ [])
        (codes "second") ≡ None }
    ensures second { text_in (codes "ddcmp" ∷ codes "explain" ∷ codes "a.bin" ∷ codes "b.bin" ∷ [])
        (codes "second") ≡ Some (codes "b.bin") }
    ensures help { fault_of program (codes "ddcmp" ∷ codes "--help" ∷ [])
        ≡ WordsFault.DisplayHelp ∷ [] }
    ensures version { fault_of program (codes "ddcmp" ∷ codes "--version" ∷ [])
        ≡ WordsFault.DisplayVersion ∷ [] }
{}

/// The words `ddcmp simulate` ask for the command that runs a script, without its options. The name
/// of a file, `--begun`, `--acknowledge-on-take`, `--window 255`, `--syn=16`, `--restart`, `--svg`,
/// `--ladder` and `--counters` are accepted.
pub fn simulate_is_asked()
    ensures plain { IsAsked (codes "ddcmp" ∷ codes "simulate" ∷ []) (codes "simulate") }
    ensures no_window { option_in (codes "ddcmp" ∷ codes "simulate" ∷ []) (codes "window") ≡ None }
    ensures window { option_in (codes "ddcmp" ∷ codes "simulate" ∷ codes "--window" ∷ codes "255"
        ∷ []) (codes "window") ≡ Some (codes "255") }
    ensures syn { option_in (codes "ddcmp" ∷ codes "simulate" ∷ codes "--syn=16" ∷ [])
        (codes "syn") ≡ Some (codes "16") }
    ensures begun { IsSwitch (codes "simulate") (codes "--begun") (codes "begun") }
    ensures by_user { IsSwitch (codes "simulate") (codes "--acknowledge-on-take")
        (codes "acknowledge-on-take") }
    ensures restart { IsSwitch (codes "simulate") (codes "--restart") (codes "restart") }
    ensures svg { IsSwitch (codes "simulate") (codes "--svg") (codes "svg") }
    ensures ladder { IsSwitch (codes "simulate") (codes "--ladder") (codes "ladder") }
    ensures counters { IsSwitch (codes "simulate") (codes "--counters") (codes "counters") }
    ensures no_file { text_in (codes "ddcmp" ∷ codes "simulate" ∷ []) (codes "file") ≡ None }
    ensures file { text_in (codes "ddcmp" ∷ codes "simulate" ∷ codes "--svg" ∷ codes "a.txt" ∷ [])
        (codes "file") ≡ Some (codes "a.txt") }
    ensures standard_input { text_in (codes "ddcmp" ∷ codes "simulate" ∷ codes "-" ∷ [])
        (codes "file") ≡ Some (codes "-") }
{}

/// The words `ddcmp pair` ask for the command that runs a script over a connection, with the
/// options of `ddcmp simulate`.
pub fn pair_is_asked()
    ensures plain { IsAsked (codes "ddcmp" ∷ codes "pair" ∷ []) (codes "pair") }
    ensures no_window { option_in (codes "ddcmp" ∷ codes "pair" ∷ []) (codes "window") ≡ None }
    ensures inbox { option_in (codes "ddcmp" ∷ codes "pair" ∷ codes "--inbox" ∷ codes "1" ∷ [])
        (codes "inbox") ≡ Some (codes "1") }
    ensures syn { option_in (codes "ddcmp" ∷ codes "pair" ∷ codes "--syn=16" ∷ [])
        (codes "syn") ≡ Some (codes "16") }
    ensures begun { IsSwitch (codes "pair") (codes "--begun") (codes "begun") }
    ensures by_user { IsSwitch (codes "pair") (codes "--acknowledge-on-take")
        (codes "acknowledge-on-take") }
    ensures restart { IsSwitch (codes "pair") (codes "--restart") (codes "restart") }
    ensures ladder { IsSwitch (codes "pair") (codes "--ladder") (codes "ladder") }
    ensures counters { IsSwitch (codes "pair") (codes "--counters") (codes "counters") }
    ensures no_file { text_in (codes "ddcmp" ∷ codes "pair" ∷ []) (codes "file") ≡ None }
    ensures file { text_in (codes "ddcmp" ∷ codes "pair" ∷ codes "a.txt" ∷ codes "--ladder" ∷ [])
        (codes "file") ≡ Some (codes "a.txt") }
{}

/// The words `ddcmp station` with the four required options ask for the command that drives a
/// station; the message to send is used as it was written.
pub fn station_is_asked()
    ensures plain { IsAsked (codes "ddcmp" ∷ codes "station" ∷ codes "--role" ∷ codes "listen"
        ∷ codes "--addr=127.0.0.1:7000" ∷ codes "--turns" ∷ codes "0" ∷ codes "--timer-ms"
        ∷ codes "4294967295" ∷ []) (codes "station") }
    ensures role { text_in (codes "ddcmp" ∷ codes "station" ∷ codes "--role" ∷ codes "listen" ∷ [])
        (codes "role") ≡ Some (codes "listen") }
    ensures turns { option_in (codes "ddcmp" ∷ codes "station" ∷ codes "--turns=20" ∷ [])
        (codes "turns") ≡ Some (codes "20") }
    ensures send { text_in (codes "ddcmp" ∷ codes "station" ∷ codes "--send" ∷ codes "0Aff" ∷ [])
        (codes "send") ≡ Some (codes "0Aff") }
    ensures counters { IsSwitch (codes "station") (codes "--counters") (codes "counters") }
    ensures incomplete { takes program (codes "ddcmp" ∷ codes "station" ∷ []) ≡ false }
{}

/// The words `ddcmp tap` with the two addresses ask for the command that logs between two ends of a
/// line; the addresses are used as they were written.
pub fn tap_is_asked()
    ensures plain { IsAsked (codes "ddcmp" ∷ codes "tap" ∷ codes "--listen"
        ∷ codes "127.0.0.1:7000" ∷ codes "--connect=localhost:7001" ∷ []) (codes "tap") }
    ensures listen { text_in (codes "ddcmp" ∷ codes "tap" ∷ codes "--listen"
        ∷ codes "127.0.0.1:7000" ∷ []) (codes "listen") ≡ Some (codes "127.0.0.1:7000") }
    ensures connect { text_in (codes "ddcmp" ∷ codes "tap" ∷ codes "--connect=localhost:7001"
        ∷ []) (codes "connect") ≡ Some (codes "localhost:7001") }
    ensures again { IsSwitch (codes "tap") (codes "--again") (codes "again") }
    ensures json { IsSwitch (codes "tap") (codes "--json") (codes "json") }
    ensures ladder { IsSwitch (codes "tap") (codes "--ladder") (codes "ladder") }
    ensures time { IsSwitch (codes "tap") (codes "--time") (codes "time") }
    ensures maximum { option_in (codes "ddcmp" ∷ codes "tap" ∷ codes "--max=1500" ∷ [])
        (codes "max") ≡ Some (codes "1500") }
    ensures incomplete { takes program (codes "ddcmp" ∷ codes "tap" ∷ []) ≡ false }
{}

/// The words `ddcmp link` with a line ask for the command that runs a station over it; the name of
/// the line is used as it was written.
pub fn link_is_asked()
    ensures plain { IsAsked (codes "ddcmp" ∷ codes "link" ∷ codes "--line"
        ∷ codes "listen:127.0.0.1:7000" ∷ []) (codes "link") }
    ensures line { text_in (codes "ddcmp" ∷ codes "link" ∷ codes "--line=device:/dev/ttyS0" ∷ [])
        (codes "line") ≡ Some (codes "device:/dev/ttyS0") }
    ensures only { text_in (codes "ddcmp" ∷ codes "link" ∷ codes "--only=10.0.0.7" ∷ [])
        (codes "only") ≡ Some (codes "10.0.0.7") }
    ensures window { option_in (codes "ddcmp" ∷ codes "link" ∷ codes "--window=127" ∷ [])
        (codes "window") ≡ Some (codes "127") }
    ensures binary { IsSwitch (codes "link") (codes "--binary") (codes "binary") }
    ensures events { IsSwitch (codes "link") (codes "--events") (codes "events") }
    ensures maintenance { IsSwitch (codes "link") (codes "--maintenance") (codes "maintenance") }
    ensures acknowledge_early { IsSwitch (codes "link") (codes "--acknowledge-early")
        (codes "acknowledge-early") }
    ensures stay { IsSwitch (codes "link") (codes "--stay") (codes "stay") }
    ensures again { IsSwitch (codes "link") (codes "--again") (codes "again") }
    ensures counters { IsSwitch (codes "link") (codes "--counters") (codes "counters") }
    ensures trace { IsSwitch (codes "link") (codes "--trace") (codes "trace") }
    ensures ladder { IsSwitch (codes "link") (codes "--ladder") (codes "ladder") }
    ensures seconds { option_in (codes "ddcmp" ∷ codes "link" ∷ codes "--seconds=60" ∷ [])
        (codes "seconds") ≡ Some (codes "60") }
    ensures timer { option_in (codes "ddcmp" ∷ codes "link" ∷ codes "--timer-ms=500" ∷ [])
        (codes "timer-ms") ≡ Some (codes "500") }
    ensures incomplete { takes program (codes "ddcmp" ∷ codes "link" ∷ []) ≡ false }
{}

/// The words `ddcmp bridge` with two lines ask for the command that passes frames on between them.
/// The names of the lines are used as they were written, and `--seconds`, `--lose`, `--damage`,
/// `--delay` and `--seed` as numbers; `--again`, `--trace`, `--ladder`, `--json` and `--append` are
/// accepted, and the names of `--save-first` and `--save-second`.
pub fn bridge_is_asked()
    ensures plain { IsAsked (codes "ddcmp" ∷ codes "bridge" ∷ codes "listen:127.0.0.1:7000"
        ∷ codes "device:/dev/ttyS0" ∷ []) (codes "bridge") }
    ensures first { text_in (codes "ddcmp" ∷ codes "bridge" ∷ codes "listen:127.0.0.1:7000"
        ∷ codes "device:/dev/ttyS0" ∷ []) (codes "first") ≡ Some (codes "listen:127.0.0.1:7000") }
    ensures second { text_in (codes "ddcmp" ∷ codes "bridge" ∷ codes "listen:127.0.0.1:7000"
        ∷ codes "device:/dev/ttyS0" ∷ []) (codes "second") ≡ Some (codes "device:/dev/ttyS0") }
    ensures seconds { option_in (codes "ddcmp" ∷ codes "bridge" ∷ codes "--seconds=60" ∷ [])
        (codes "seconds") ≡ Some (codes "60") }
    ensures lose { option_in (codes "ddcmp" ∷ codes "bridge" ∷ codes "--lose=10" ∷ [])
        (codes "lose") ≡ Some (codes "10") }
    ensures damage { option_in (codes "ddcmp" ∷ codes "bridge" ∷ codes "--damage=5" ∷ [])
        (codes "damage") ≡ Some (codes "5") }
    ensures delay { option_in (codes "ddcmp" ∷ codes "bridge" ∷ codes "--delay=100" ∷ [])
        (codes "delay") ≡ Some (codes "100") }
    ensures seed { option_in (codes "ddcmp" ∷ codes "bridge" ∷ codes "--seed=7" ∷ [])
        (codes "seed") ≡ Some (codes "7") }
    ensures no_seed { option_in (codes "ddcmp" ∷ codes "bridge" ∷ []) (codes "seed") ≡ None }
    ensures again { IsSwitch (codes "bridge") (codes "--again") (codes "again") }
    ensures trace { IsSwitch (codes "bridge") (codes "--trace") (codes "trace") }
    ensures ladder { IsSwitch (codes "bridge") (codes "--ladder") (codes "ladder") }
    ensures json { IsSwitch (codes "bridge") (codes "--json") (codes "json") }
    ensures save_first { text_in (codes "ddcmp" ∷ codes "bridge" ∷ codes "--save-first=a" ∷ [])
        (codes "save-first") ≡ Some (codes "a") }
    ensures save_second { text_in (codes "ddcmp" ∷ codes "bridge" ∷ codes "--save-second=b" ∷ [])
        (codes "save-second") ≡ Some (codes "b") }
    ensures append { IsSwitch (codes "bridge") (codes "--append") (codes "append") }
    ensures incomplete { takes program (codes "ddcmp" ∷ codes "bridge"
        ∷ codes "listen:127.0.0.1:7000" ∷ []) ≡ false }
{}
