//! Parses sizes, bytes and numbers in a line of words.
use ddcmp_station::Config;
use std::alloc::Global;
use std::str::Split;

/// Parses the next word as a number.
pub fn number(words: &mut Split<'_, char>) -> Option<u32> {
    words.next()?.parse::<u32>().ok()
}

/// Parses the next word as a size.
fn size(words: &mut Split<'_, char>) -> Option<u16> {
    words.next()?.parse::<u16>().ok()
}

/// Parses the sizes in a line `WINDOW INBOX MAX SYN RESTART`, which may have more words.
pub fn config_of(line: &str) -> Option<Config> {
    let mut words = line.split(' ');
    let window = size(&mut words)?;
    let inbox = size(&mut words)?;
    let max = size(&mut words)?;
    let syn = u8::try_from(size(&mut words)?).ok()?;
    let restart = words.next()? == "yes";
    Some(Config {
        window,
        inbox,
        max,
        syn,
        restart,
    })
}

/// Decodes a hexadecimal word; `-` is empty.
pub fn bytes_of(alloc: Global, word: &str) -> Option<Vec<u8>> {
    hex::decode(alloc, if word == "-" { "" } else { word }).ok()
}
