//! The text of a notice.
ghost use Rattle.std.specs.Prelude.{◌≡◌};
ghost use Rattle.ddcmp_io.specs.Written.{HandsOver, output_of};
ghost use Rattle.ddcmp_station.specs.StationText.{notice_word, notice_line};
ghost use Rattle.ddcmp_station.specs.StationText.{notice_number as notice_number_of};

use ddcmp_io::text::write_number;
use ddcmp_io::{Page, Sink};
use ddcmp_proto::Notice;

/// Returns the name of a notice; a blank ends it if a number follows.
pub fn notice_name(notice: Notice) -> &'static [u8]
    ensures { result.now ≡ notice_word notice }
{
    match notice {
        Notice::Running => b"Running",
        Notice::RunningAndHandedUp => b"RunningAndHandedUp",
        Notice::Acknowledged(_messages) => b"Acknowledged ",
        Notice::HandedUp => b"HandedUp",
        Notice::HandedUpAndAcknowledged(_messages) => b"HandedUpAndAcknowledged ",
        Notice::PeerStarts => b"PeerStarts",
        Notice::PeerRestarted => b"PeerRestarted",
        Notice::Restarted(_dropped) => b"Restarted ",
        Notice::MaintenanceSeen => b"MaintenanceSeen",
        Notice::MaintenanceHandedUp => b"MaintenanceHandedUp",
        Notice::MaintenanceDropped => b"MaintenanceDropped",
    }
}

/// Returns the number of a notice, if it has one.
pub fn notice_number(notice: Notice) -> Option<u8>
    ensures { result ≡ notice_number_of notice }
{
    match notice {
        Notice::Acknowledged(messages) => Some(messages),
        Notice::HandedUpAndAcknowledged(messages) => Some(messages),
        Notice::Restarted(dropped) => Some(dropped),
        _ => None,
    }
}

/// Writes the line of a notice, after the words that name the station.
pub fn write_notice<W: Sink>(page: &mut Page, writer: &mut W, who: &[u8], notice: Notice)
    ensures { HandsOver (output_of W.broken W.contents writer.old page.old)
        (output_of W.broken W.contents writer.new page.new) (notice_line who.now notice) }
{
    page.write(writer, who);
    page.write(writer, b"notice ");
    page.write(writer, notice_name(notice));
    if let Some(number) = notice_number(notice) {
        write_number(page, writer, number);
    }
    page.write(writer, b"\n");
}
