//! The messages that the user of an end sends and takes, and the frames that the end writes.
ghost use Rattle.std.specs.Prelude.{◌≡◌, ◌+◌, ◌<◌, ◌≤◌, ◌++◌, ℕ, List, [], length, replicate, Some};
ghost use Rattle.std.specs.Prelude.{option_map, option_to_list, unwrap_or, vec_capacity, vec_len};
ghost use Rattle.ddcmp_frame.specs.declared.codes.TheConstants.{SYN};
ghost use Rattle.ddcmp_frame.specs.Wire.{wire, IsFrame};
ghost use Rattle.ddcmp_frame.specs.Reader.{frame_length as length_of_frame};
ghost use Rattle.ddcmp_core.specs.Table.{next, next_frame};
ghost use Rattle.ddcmp_core.specs.Frames.{header_of};
ghost use Rattle.ddcmp_core.specs.Core.{IsSound};
ghost use Rattle.ddcmp_proto.specs.Bytes.{frame_on_line, after_poll};
ghost use Rattle.ddcmp_pair.specs.Run.{whole_frame};

use crate::frames::Frames;
use crate::messages::append;
use crate::side::Side;
use crate::{Bytes, Reply};
use ddcmp_frame::Header;
use ddcmp_frame::codes::HEADER_BYTES;
use ddcmp_proto::{Memory, Station};

/// Returns the number of bytes of data with a header.
fn data_length(header: &Header) -> usize
    ensures { (message : List ℕ) → IsFrame header.now message → result ≡ length message }
{
    match header {
        Header::Data(fields) => fields.count as usize,
        Header::Maint(fields) => fields.count as usize,
        Header::Control(_fields) => 0,
    }
}

/// Returns the data of a frame with this header, from its bytes on the line after its fill.
fn data_of<'a>(line: &'a [u8], syn: u8, header: &Header) -> &'a [u8]
    requires { (message : List ℕ) × IsFrame header.now message
        × (line.now ≡ replicate syn SYN ++ wire header.now message) }
    ensures { (message : List ℕ) → IsFrame header.now message
        → line.now ≡ replicate syn SYN ++ wire header.now message → result.now ≡ message }
{
    let from = syn as usize + HEADER_BYTES as usize;
    &line[from..from + data_length(header)]
}

/// Polls the next frame, which has this header, into a buffer, appends its bytes on the line and
/// keeps it.
fn poll_into(
    station: &mut Station,
    syn: u8,
    header: &Header,
    buffer: &mut [u8],
    line: &mut Vec<u8>,
    sent: &mut Frames,
)
    requires header { Some header.now
        ≡ option_map header_of (next_frame (next station.old.core.station)) }
    requires sound { IsSound station.old.core.limits station.old.core.station }
    requires syn { syn ≡ station.old.syn }
    requires buffer { syn + station.old.core.limits.longest + 10 ≤ length buffer.old }
    requires line { vec_len line.old + (syn + length_of_frame header.now) ≤ vec_capacity line.old }
    requires kept { (message : List ℕ) → IsFrame header.now message
        → length message ≤ sent.old.spare_bytes }
    requires one { 0 < sent.old.spare }
    ensures station { station.new
        ≡ record station.old { core = after_poll station.old.core } }
    ensures buffer { length buffer.new ≡ length buffer.old }
    ensures line { line.new.items ≡ line.old.items ++ unwrap_or
        (option_map (frame_on_line syn) (next_frame (next station.old.core.station))) [] }
    ensures kept { sent.new.all ≡ sent.old.all ++ option_to_list
        (option_map whole_frame (next_frame (next station.old.core.station))) }
{
    if let Some(length) = station.poll(buffer) {
        append(line, &buffer[..length]);
        sent.push_reserved(*header, data_of(&buffer[..length], syn, header));
    }
}

impl Side {
    ghost use Rattle.std.specs.Prelude.{false, nat_lt, is_some, IsOk, IfOk, OnErr};
    ghost use Rattle.ddcmp_core.specs.Store.{first_message};
    ghost use Rattle.ddcmp_core.specs.Table.{answer_to_send, may_send};
    ghost use Rattle.ddcmp_pair.specs.Run.{after_send_here, accepted, after_poll_here, wrote};
    ghost use Rattle.ddcmp_pair.specs.Run.{line_bytes, after_take_here, took};

    /// Sends a message of the user.
    pub(super) fn send(&mut self, message: &[u8]) -> Result<Reply, Memory>
        ensures state { IsOk result → self.new
            ≡ record self.old { state = after_send_here message.now self.old.state } }
        ensures reply { IfOk result (λ reply. reply ≡ accepted (answer_to_send
            self.old.state.core.limits self.old.state.core.station message.now)) }
        ensures memory { OnErr result (self.new ≡ self.old) }
        ensures asks { may_send self.old.state.core.limits self.old.state.core.station message.now
            ≡ false → IsOk result }
    {
        if let Some(refusal) = self.station.send_refusal(message) {
            return Ok(Reply::SendRefused(refusal));
        }
        self.given.reserve(message.len())?;
        match self.station.send(message) {
            Ok(number) => {
                self.given.push_reserved(message);
                Ok(Reply::Accepted(number))
            }
            Err(refusal) => Ok(Reply::SendRefused(refusal)),
        }
    }

    /// Writes the next frame.
    pub(super) fn poll(&mut self) -> Result<Reply, Memory>
        ensures state { IsOk result → self.new
            ≡ record self.old { state = after_poll_here self.old.state } }
        ensures reply { IfOk result (λ reply. reply ≡ wrote (line_bytes self.old.state)) }
        ensures memory { OnErr result (self.new ≡ self.old) }
        ensures asks { is_some (next_frame (next self.old.state.core.station)) ≡ false
            → IsOk result }
    {
        let Some(header) = self.station.next_header() else {
            return Ok(Reply::Idle);
        };
        let syn = self.station.config().syn;
        let mut line = Vec::with_capacity(self.alloc, syn as usize + header.frame_length())?;
        self.sent.reserve(data_length(&header))?;
        poll_into(
            &mut self.station,
            syn,
            &header,
            &mut self.buffer,
            &mut line,
            &mut self.sent,
        );
        Ok(Reply::Wrote(Bytes::new(line)))
    }

    /// Takes a message for the user.
    pub(super) fn take(&mut self) -> Result<Reply, Memory>
        ensures state { IsOk result → self.new
            ≡ record self.old { state = after_take_here self.old.state } }
        ensures reply { IfOk result (λ reply. reply
            ≡ took (first_message self.old.state.core.station.inbox)) }
        ensures memory { OnErr result (self.new ≡ self.old) }
        ensures asks { nat_lt 0 (length self.old.state.core.station.inbox) ≡ false → IsOk result }
    {
        if self.station.waiting() == 0 {
            return Ok(Reply::Nothing);
        }
        let length = self.station.waiting_length(0);
        let mut message = Vec::with_capacity(self.alloc, length)?;
        self.taken.reserve(length)?;
        match self.station.take(&mut self.buffer) {
            None => Ok(Reply::Nothing),
            Some(length) => {
                append(&mut message, &self.buffer[..length]);
                self.taken.push_reserved(&self.buffer[..length]);
                Ok(Reply::Took(Bytes::new(message)))
            }
        }
    }
}
