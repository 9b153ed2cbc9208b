//! The texts of replies, beside the line of an end.
ghost use Rattle.std.specs.Prelude.{◌≡◌};
ghost use Rattle.ddcmp_picture.specs.Labels.{reply_label, words as words_of};

use crate::labels::without_lf;
use crate::short_text::ShortText;
use ddcmp_line::reply_text::{
    clear_refusal_name, expired_name, send_refusal_name, start_refusal_name,
};
use ddcmp_pair::Reply;

/// Returns a short text.
pub(crate) fn words(text: &[u8]) -> ShortText
    ensures { result ≡ words_of text.now }
{
    ShortText::new().with(text)
}

/// Returns the text of a reply, beside the line of an end.
pub(crate) fn answer_text(reply: &Reply) -> ShortText
    ensures { result ≡ reply_label reply.now }
{
    match reply {
        Reply::Started(0) => words(b"start"),
        Reply::Started(dropped) => words(b"start, dropped ").with_number(*dropped as u64),
        Reply::StartRefused(refusal) => words(without_lf(start_refusal_name(*refusal))),
        Reply::Halted => words(b"halt"),
        Reply::SendRefused(refusal) => words(without_lf(send_refusal_name(*refusal))),
        Reply::Idle => words(b"idle"),
        Reply::Expired(was_on) => words(without_lf(expired_name(*was_on))),
        Reply::Took(message) => words(b"took ").with_bytes(message.as_slice()),
        Reply::Nothing => words(b"nothing to take"),
        Reply::Cleared => words(b"line cleared"),
        Reply::ClearRefused(refusal) => words(b"line not cleared: ").with(without_lf(
            clear_refusal_name(*refusal),
        )),
        Reply::Accepted(number) => words(b"send ").with_number(number.0 as u64),
        Reply::Wrote(_) | Reply::Notices(_) => ShortText::new(),
    }
}
