//! Frames as they are written to the line.
ghost use Rattle.std.specs.Prelude.{◌≡◌, ◌+◌, ◌≤◌, ◌++◌, length, take, drop};
ghost use Rattle.ddcmp_frame.specs.Wire.{wire, IsFrame};

use crate::header::Header;
use ddcmp_num::{check, check_bytes};

/// Writes a frame at the front of `out`; returns how many bytes it has.
pub fn write_frame(header: &Header, data: &[u8], out: &mut [u8]) -> usize
    requires frame { IsFrame header.now «data».now }
    requires room { length (wire header.now «data».now) ≤ length out.old }
    ensures length { result ≡ length (wire header.now «data».now) }
    ensures written { out.new ≡ wire header.now «data».now ++ drop result out.old }
{
    let _end = put(out, 8, data);
    write_around(header, data.len(), out)
}

/// Writes a frame at the front of `out`, where its `count` bytes of data are already, after eight
/// bytes for the header; returns how many bytes it has.
pub fn write_around(header: &Header, count: usize, out: &mut [u8]) -> usize
    requires frame { IsFrame header.now (take count (drop 8 out.old)) }
    requires room { length (wire header.now (take count (drop 8 out.old))) ≤ length out.old }
    ensures length { result ≡ length (wire header.now (take count (drop 8 out.old))) }
    ensures written { out.new
        ≡ wire header.now (take count (drop 8 out.old)) ++ drop result out.old }
{
    let start = put(out, 0, &header.write());
    match header {
        Header::Control(_) => start,
        Header::Data(_) | Header::Maint(_) => {
            let end = start + count;
            let right = check_bytes(check(&out[start..end]));
            put(out, end, &right)
        }
    }
}

/// Writes `bytes` into `out` from `from` on; returns their end.
fn put(out: &mut [u8], from: usize, bytes: &[u8]) -> usize
    requires { from + length bytes.now ≤ length out.old }
    ensures end { result ≡ from + length bytes.now }
    ensures put { out.new ≡ (take from out.old ++ bytes.now) ++ drop result out.old }
{
    let end = from + bytes.len();
    out[from..end].copy_from_slice(bytes);
    end
}
