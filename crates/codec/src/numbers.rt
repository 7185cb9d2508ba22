// Numbers of one, two, four and eight bytes, the lowest byte first. A number is written and read in two halves;
// the compiler joins what comes of that to one store and one load.
// kept: no to_le_bytes and no from_le_bytes, since a save's numbers go straight to their places with no array of bytes between (docs/DECISIONS.md, D-52).

ghost use Rattle.std.specs.Prelude.{◌≡◌, ◌+◌, ◌≤◌, ◌<◌, length};
ghost use Rattle.codec.specs.Lists.{put, part};
ghost use Rattle.codec.specs.Bytes.{le, unle};

pub fn put_u8(out: &mut [u8], at: usize, n: u8)
    requires { at + 1 ≤ length out.old }
    ensures { out.new ≡ put out.old at (le 1 n) }
{
    out[at] = n;
}

pub fn put_u16(out: &mut [u8], at: usize, n: u16)
    requires { at + 2 ≤ length out.old }
    ensures { out.new ≡ put out.old at (le 2 n) }
{
    put_u8(out, at, (n % 0x100) as u8);
    put_u8(out, at + 1, (n / 0x100) as u8);
}

pub fn put_u32(out: &mut [u8], at: usize, n: u32)
    requires { at + 4 ≤ length out.old }
    ensures { out.new ≡ put out.old at (le 4 n) }
{
    put_u16(out, at, (n % 0x10000) as u16);
    put_u16(out, at + 2, (n / 0x10000) as u16);
}

pub fn put_u64(out: &mut [u8], at: usize, n: u64)
    requires { at + 8 ≤ length out.old }
    ensures { out.new ≡ put out.old at (le 8 n) }
{
    put_u32(out, at, (n % 0x100000000) as u32);
    put_u32(out, at + 4, (n / 0x100000000) as u32);
}

pub fn get_u8(s: &[u8], at: usize) -> u8
    requires { at + 1 ≤ length s.now }
    ensures { result ≡ unle (part s.now at 1) }
{
    s[at]
}

pub fn get_u16(s: &[u8], at: usize) -> u16
    requires { at + 2 ≤ length s.now }
    ensures { result ≡ unle (part s.now at 2) }
{
    get_u8(s, at) as u16 + get_u8(s, at + 1) as u16 * 0x100
}

pub fn get_u32(s: &[u8], at: usize) -> u32
    requires { at + 4 ≤ length s.now }
    ensures { result ≡ unle (part s.now at 4) }
{
    get_u16(s, at) as u32 + get_u16(s, at + 2) as u32 * 0x10000
}

pub fn get_u64(s: &[u8], at: usize) -> u64
    requires { at + 8 ≤ length s.now }
    ensures { result ≡ unle (part s.now at 8) }
{
    get_u32(s, at) as u64 + get_u32(s, at + 4) as u64 * 0x100000000
}
