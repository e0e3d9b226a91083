// Numbers as text.
ghost use Rattle.std.specs.Prelude.{◌≡◌, ◌+◌, ◌≤◌, ◌<◌, length};
ghost use Rattle.wire.specs.Bytes.{splice};
ghost use Rattle.answer_text.specs.Digits.{last_digits, digits, hex_digits};
ghost use Rattle.answer_text.specs.Digits.{glyph as Digits·glyph};
ghost use Rattle.answer_text.specs.Digits.{digit_count};
ghost use Rattle.answer_text.specs.Answer.{TextRoom, Writes};

fn glyph(d: u64) -> u8
    requires { d < 16 }
    ensures { result ≡ Digits·glyph d }
{
    if d < 10 { 48 + d as u8 } else { 87 + d as u8 }
}

// How many decimal digits v has.
fn places(v: u64) -> usize
    ensures { result ≡ digit_count v }
{
    let mut k = 1;
    let mut rest = v;
    while 10 <= rest {
        rest /= 10;
        k += 1;
    }
    k
}

// The last k digits of v in a base.
fn write_digits(v: u64, base: u64, k: usize, out: &mut [u8], at: usize)
    requires { (1 < base) × (base ≤ 16) × (at + k ≤ length out.old) }
    ensures { out.new ≡ splice out.old at (last_digits base k v) }
{
    let mut rest = v;
    for i in (0..k).rev() {
        out[at + i] = glyph(rest % base);
        rest /= base;
    }
}

// v in decimal, without leading zeros; gives the place after it.
pub fn write_decimal(v: u64, out: &mut [u8], at: usize) -> usize
    requires { TextRoom (digits v) out.old at }
    ensures { Writes (digits v) out.old at out.new result }
{
    let k = places(v);
    write_digits(v, 10, k, out, at);
    at + k
}

// v in 16 hexadecimal digits; gives the place after them.
pub fn write_hex(v: u64, out: &mut [u8], at: usize) -> usize
    requires { TextRoom (hex_digits v) out.old at }
    ensures { Writes (hex_digits v) out.old at out.new result }
{
    write_digits(v, 16, 16, out, at);
    at + 16
}
