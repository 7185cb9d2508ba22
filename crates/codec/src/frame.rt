// A record of a save: a mark of two bytes, the payload's length in four, and the payload.

ghost use Rattle.std.specs.Prelude.{◌≡◌, ◌+◌, ◌≤◌, length, drop};
ghost use Rattle.refusals.specs.Refusals.{code};
ghost use Rattle.codec.specs.Lists.{put};
ghost use Rattle.codec.specs.Frame.{frame_bytes, frame_fault};

use super::numbers::{get_u16, get_u32, put_u16, put_u32};
use refusals::{Refusal, require};

// The first fault of the record at `at`, which is to have this mark and a payload of `len` bytes.
#[tactic(auto, using(crate::proofs::Framed::frame_at))]
pub fn frame_fault(s: &[u8], at: usize, mark: u16, len: u32) -> Result<(), Refusal>
    requires { at ≤ length s.now }
    ensures { code result ≡ frame_fault mark len (drop at s.now) }
{
    let left = s.len() - at;
    require(6 <= left, Refusal::Short)?;
    require(get_u16(s, at) == mark, Refusal::BadMark)?;
    require(get_u32(s, at + 2) == len, Refusal::BadRecord)?;
    require(6 + len as usize <= left, Refusal::Short)
}

// Writes the six bytes before a payload of `len` bytes.
pub fn put_frame(out: &mut [u8], at: usize, mark: u16, len: u32)
    requires { at + 6 ≤ length out.old }
    ensures { out.new ≡ put out.old at (frame_bytes mark len) }
{
    put_u16(out, at, mark);
    put_u32(out, at + 2, len);
}
