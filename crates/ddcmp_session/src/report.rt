//! Reports of the counters of a link, while it runs.
ghost use Rattle.std.specs.Prelude.{◌+◌, ◌*◌};
ghost use Rattle.ddcmp_streams.specs.Errors.{HasLine, HasObject};
ghost use Rattle.ddcmp_session.specs.Reports.{report_members, report_text};
ghost use Rattle.ddcmp_streams.specs.declared.errors.TheConstants.{LAST_ROOM};
ghost use Rattle.ddcmp_session.specs.declared.text.TheConstants.{END_ROOM};

use crate::text;
use ddcmp_station::Link;
use ddcmp_streams::errors::{Errors, LAST_ROOM};

/// Writes a report for standard error as a line of text.
pub(crate) fn write_line(errors: &mut Errors, link: &Link, lost: u64)
    ensures { HasLine (END_ROOM + LAST_ROOM) (report_text lost link.now) errors.old errors.new }
{
    if errors.begin_line(text::END_ROOM + LAST_ROOM) {
        text::write_report(&mut errors.queue, link, lost);
    }
}

/// Writes a report for standard error as a JSON object.
pub(crate) fn write_object(errors: &mut Errors, link: &Link, lost: u64)
    ensures { HasObject (2 * END_ROOM + LAST_ROOM) (report_members lost link.now)
        errors.old errors.new }
{
    if errors.begin_object(2 * text::END_ROOM + LAST_ROOM) {
        text::write_members(&mut errors.queue, link, lost);
    }
}
