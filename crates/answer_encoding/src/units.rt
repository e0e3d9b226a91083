// What was packed in one number.
ghost use Rattle.std.specs.Prelude.{◌≡◌, ◌/◌, ◌%◌};
ghost use Rattle.answer_encoding.specs.Pieces.{key_span, key_bits};

use position::{PixelPosition, Span};

// The high and the low half.
pub fn halves(v: u64) -> (u32, u32)
    ensures high { result.0 ≡ v / 0x1_0000_0000 }
    ensures low { result.1 ≡ v % 0x1_0000_0000 }
{
    ((v / 0x1_0000_0000) as u32, (v % 0x1_0000_0000) as u32)
}

pub fn span_of(v: u64, w: u64) -> Span
    ensures { result ≡ key_span v w }
{
    let (ax, ay) = halves(v);
    let (bx, by) = halves(w);
    Span {
        a: PixelPosition { x: ax, y: ay },
        b: PixelPosition { x: bx, y: by },
    }
}

pub fn bits_of(v: u64) -> u64
    ensures { result ≡ key_bits v }
{
    if v < 0x8000_0000_0000_0000 {
        0xFFFF_FFFF_FFFF_FFFF - v
    } else {
        v - 0x8000_0000_0000_0000
    }
}
