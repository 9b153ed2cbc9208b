//! The reasons of NAKs.
ghost use Rattle.std.specs.Prelude.{◌≡◌};
ghost use Rattle.ddcmp_io.specs.Written.{HandsOver, output_of};
ghost use Rattle.ddcmp_log.specs.Reasons.{reason_in as reason_of, reasoned_line};

use crate::front::write_plain_front;
use crate::side::Origin;
use ddcmp_explain::{Notation, reason_name, write_item, write_words};
use ddcmp_frame::{ControlType, Header, Item, Nak};
use ddcmp_io::{Page, Sink};

/// Returns the reason of a good NAK.
fn reason_in(item: &Item) -> Option<Nak>
    ensures { result ≡ reason_of item.now }
{
    let Item::Good(_, Header::Control(header)) = item else {
        return None;
    };
    match header.kind {
        ControlType::Nak => Some(Nak::of(header.sub)),
        _ => None,
    }
}

/// Writes the line of an item with its data in words; that of a NAK ends with its reason.
pub fn write_reasoned<W: Sink>(
    page: &mut Page,
    writer: &mut W,
    origin: Origin,
    item: &Item,
    data: &[u8],
)
    ensures { HandsOver (output_of W.broken W.contents writer.old page.old)
        (output_of W.broken W.contents writer.new page.new)
        (reasoned_line origin.stamp origin.side (item.now, «data».now)) }
{
    write_plain_front(page, writer, origin);
    match reason_in(item) {
        Some(reason) => {
            write_words(page, writer, item);
            page.write(writer, b" (");
            page.write(writer, reason_name(reason));
            page.write(writer, b")\n");
        }
        None => write_item(page, writer, Notation::Plain.whole(), item, data),
    }
}
