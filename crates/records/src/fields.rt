ghost use Rattle.std.specs.Prelude.{◌≡◌, ◌+◌, ◌≤◌, length, take, drop};
ghost use Rattle.records.specs.Reads.{field, reading_at};

use crate::record::Noted;
use guard::reading::Reading;

// So many bytes of the body, from the place on. Fields have different widths, so each function says its own.
fn bytes_at<const N: usize>(body: &[u8], at: usize) -> [u8; N]
    requires { at + N ≤ length body.now }
    ensures { result ≡ take N (drop at body.now) }
{
    *body[at..].first_chunk().unwrap()
}

pub(crate) fn u32_at(body: &[u8], at: usize) -> u32
    requires { at + 4 ≤ length body.now }
    ensures { result ≡ field at 4 body.now }
{
    u32::from_le_bytes(bytes_at(body, at))
}

pub(crate) fn noted_at(body: &[u8], at: usize) -> Noted
    requires { at + 14 ≤ length body.now }
    ensures { result ≡ reading_at at body.now }
{
    Reading {
        state: (
            i32::from_le_bytes(bytes_at(body, at)),
            i32::from_le_bytes(bytes_at(body, at + 4)),
            i32::from_le_bytes(bytes_at(body, at + 8)),
        ),
        charge: u16::from_le_bytes(bytes_at(body, at + 12)),
    }
}
