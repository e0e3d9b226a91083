// Spans in an array of numbers.
ghost use Rattle.std.specs.Prelude.{◌≡◌, ◌<◌};
ghost use Rattle.areas.specs.Spans.{span_in};

use position::{PixelPosition, Span};

// Span i of an array that has four numbers a span.
pub fn span_at(ends: &[u32; 1024], i: usize) -> Span
    requires { i < 256 }
    ensures { result ≡ span_in ends.now i }
{
    let at = 4 * i;
    let a = PixelPosition {
        x: ends[at],
        y: ends[at + 1],
    };
    let b = PixelPosition {
        x: ends[at + 2],
        y: ends[at + 3],
    };
    Span { a, b }
}
