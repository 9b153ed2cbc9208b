//! Long texts of one byte.
use ddcmp_frame::Reader;
use std::process::Abort;

/// Returns how many items a reader returns for 20,000 bytes of this value.
fn items_of(rt: &(impl Abort + AllocGlobal), max: u16, value: u8) -> u64 {
    assert!(rt; max <= 16383);
    let Ok(mut reader) = Reader::new(rt.alloc(), max) else {
        panic!(rt; "no reader for {max}");
    };
    let mut items = 0u64;
    for offset in 0..20_000u64 {
        assert!(rt; reader.offset() < 20_000 && reader.offset() == offset);
        if reader.push(value).is_some() {
            items = items.saturating_add(1);
        }
        if reader.kept() != 0 {
            assert!(rt; reader.open() <= max as usize + 10, "{value} at {offset}");
        }
    }
    items
}

/// A header of equal bytes has a wrong CRC for each start byte, so each text of start bytes is one
/// loss of synchronism. No other byte begins a frame.
#[test]
fn long_texts_of_one_byte(rt: HostRuntime) {
    for max in [1, 1500, 16383] {
        for value in 0..=255u8 {
            let wanted = match value {
                0x05 | 0x81 | 0x90 => 1,
                _ => 0,
            };
            assert_eq!(rt; items_of(&rt, max, value), wanted, "{value} up to {max}");
        }
    }
}
