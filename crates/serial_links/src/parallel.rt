// Nearby and parallel spans: 000's `nearby_parallel_spans`.
ghost use Rattle.std.specs.Prelude.{◌≡◌};
ghost use Rattle.serial_links.specs.Geometry.{point_length};
ghost use Rattle.serial_links.specs.Parallel.{span_vector, near_ends, nearby_parallel};
ghost use Rattle.serial_links.specs.Held.{SpanBounded, held_point, facing_by};
ghost use Rattle.serial_links.specs.HeldLimits.{limits_of};

use crate::geometry::{Point, point_distance, point_of};
use crate::limits::Limits;
use length::Length;
use length::floats::abs;
use position::Span;

// Two spans, in order.
#[derive(Clone, Copy)]
pub struct SpanPair {
    pub first: Span,
    pub second: Span,
}

// From one end to the other.
fn span_vector(s: Span) -> Point
    ensures { result ≡ held_point (span_vector s) }
{
    point_of(s.a).towards(point_of(s.b))
}

fn span_length(s: Span) -> Length
    requires { SpanBounded s }
    ensures { result ≡ point_length s.a s.b }
{
    point_distance(s.a, s.b)
}

// The first ends are near each other, and so are the second.
fn near_ends(limits: Limits, a: Span, b: Span) -> bool
    requires { SpanBounded a × SpanBounded b }
    ensures { result ≡ near_ends (limits_of limits) a b }
{
    let first = point_distance(a.a, b.a);
    let second = point_distance(a.b, b.b);
    (first.value <= limits.duplicate) & (second.value <= limits.duplicate)
}

// b, the other way round if the dot product is negative.
fn facing(dot: f64, b: Span) -> Span
    ensures { result ≡ facing_by dot b }
{
    let p = b.a;
    let q = b.b;
    if dot < 0.0 {
        Span { a: q, b: p }
    } else {
        Span { a: p, b: q }
    }
}

impl SpanPair {
    pub const FLAT_DUPLICATE_DISTANCE_PIXELS: f64 = 128.0;

    pub const PARALLEL_COSINE: f64 = 0.965_925_826_289_068_3;

    // The spans are parallel, and their ends are near each other, those of the second turned if it runs against the first.
    pub fn nearby_parallel(self, limits: Limits) -> bool
        requires { SpanBounded self.first × SpanBounded self.second }
        ensures { result ≡ nearby_parallel (limits_of limits) self.first self.second }
    {
        let a = self.first.canonical();
        let b = self.second.canonical();
        let dot = span_vector(a).dot(span_vector(b));
        let first = span_length(a);
        let second = span_length(b);
        if abs(dot) / first.value / second.value < limits.cosine {
            return false;
        }
        near_ends(limits, a, facing(dot, b))
    }
}
