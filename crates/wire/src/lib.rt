// Little-endian numbers at an offset of a byte slice.
#![tactic(auto)]

ghost use Rattle.std.specs.Prelude.{◌≡◌, ◌+◌, ◌≤◌, length};
ghost use Rattle.wire.specs.Bytes.{u32_at, u64_at, u32_bytes, u64_bytes, splice};

pub fn read_u32(s: &[u8], at: usize) -> u32
    requires { at + 4 ≤ length s.now }
    ensures { result ≡ u32_at s.now at }
{
    u32::from(s[at])
        + u32::from(s[at + 1]) * 0x100
        + u32::from(s[at + 2]) * 0x1_0000
        + u32::from(s[at + 3]) * 0x100_0000
}

pub fn read_u64(s: &[u8], at: usize) -> u64
    requires { at + 8 ≤ length s.now }
    ensures { result ≡ u64_at s.now at }
{
    u64::from(read_u32(s, at)) + u64::from(read_u32(s, at + 4)) * 0x1_0000_0000
}

pub fn write_u32(s: &mut [u8], at: usize, v: u32)
    requires { at + 4 ≤ length s.old }
    ensures { s.new ≡ splice s.old at (u32_bytes v) }
{
    s[at] = (v % 0x100) as u8;
    s[at + 1] = (v / 0x100 % 0x100) as u8;
    s[at + 2] = (v / 0x100 / 0x100 % 0x100) as u8;
    s[at + 3] = (v / 0x100 / 0x100 / 0x100 % 0x100) as u8;
}

pub fn write_u64(s: &mut [u8], at: usize, v: u64)
    requires { at + 8 ≤ length s.old }
    ensures { s.new ≡ splice s.old at (u64_bytes v) }
{
    write_u32(s, at, (v % 0x1_0000_0000) as u32);
    write_u32(s, at + 4, (v / 0x1_0000_0000) as u32);
}
