// The strip of cells around a span in which the steps that it cuts are looked for.
ghost use Rattle.std.specs.Prelude.{◌≡◌, cond, ◌+◌, ◌<◌, ◌≤◌};
ghost use Rattle.areas.specs.Spans.{SpanFits, Sides};
ghost use Rattle.areas.specs.Strip.{centred, axis_range, minor_range, clamp, line_at, tall, line_of, strip_axis, strip_minor};

use super::geometry::product;
use position::Span;

const PIXELS_PER_WALK_CELL: u32 = 8;

// How many pixels the centre of a cell with a cut step can be past an end of the span, and from its line.
const REACH: u32 = 8;

const SPREAD: u32 = 16;

// Columns or rows, the last one included.
#[derive(Clone, Copy)]
pub struct CellRange {
    pub first: u32,
    pub last: u32,
}

// The ends of a span by the axis on which it is longer, the lower one first: l and u along it, lm and um on the other.
#[derive(Clone, Copy)]
pub struct Line {
    pub l: u32,
    pub lm: u32,
    pub u: u32,
    pub um: u32,
}

// Of `limit` columns or rows, those whose centres are from pixel `low` to pixel `high`.
fn centred(low: u32, high: u32, limit: u32) -> CellRange
    requires { (low + 3 < 4294967296) × (4 ≤ high) × (0 < limit) }
    ensures { result ≡ centred low high limit }
{
    CellRange {
        first: (low + 3) / PIXELS_PER_WALK_CELL,
        last: ((high - 4) / PIXELS_PER_WALK_CELL).min(limit - 1),
    }
}

// The columns or rows along a span, from its least to its greatest pixel, of a map that has `limit` of them.
pub fn candidate_axis_range(minimum: u32, maximum: u32, limit: u32) -> CellRange
    requires { (maximum ≤ 8192) × (0 < limit) }
    ensures { result ≡ axis_range minimum maximum limit }
{
    centred(minimum.saturating_sub(REACH), maximum + REACH, limit)
}

// The rows or columns about a pixel.
pub fn candidate_minor_range(reference: u32, limit: u32) -> CellRange
    requires { (reference ≤ 8192) × (0 < limit) }
    ensures { result ≡ minor_range reference limit }
{
    centred(reference.saturating_sub(SPREAD), reference + SPREAD, limit)
}

// The pixel of the range that is nearest to v.
pub fn clamp(v: u32, low: u32, high: u32) -> u32
    requires { low ≤ high }
    ensures { (result ≡ clamp v low high) × (low ≤ result) × (result ≤ high) }
{
    v.clamp(low, high)
}

// The line from (l, lm) to (u, um) at v, rounded down.
// Five numbers, not a method of Line: line_at of specs/Strip.antt takes them so.
pub fn line_at(l: u32, lm: u32, u: u32, um: u32, v: u32) -> u32
    requires { (l < u) × (l ≤ v) × (v ≤ u) × (u ≤ 8192) × (lm ≤ 8192) × (um ≤ 8192) }
    ensures { result ≡ line_at l lm u um v }
{
    (product(lm, u - v) + product(um, v - l)) / (u - l)
}

// The span is longer along the rows than along the columns.
pub fn is_tall(span: Span) -> bool
    ensures { result ≡ tall span }
{
    let a = span.a;
    let b = span.b;
    a.x.abs_diff(b.x) < a.y.abs_diff(b.y)
}

fn line_of(span: Span) -> Line
    ensures { result ≡ line_of span }
{
    let a = span.a;
    let b = span.b;
    if !is_tall(span) {
        return Line {
            l: a.x,
            lm: a.y,
            u: b.x,
            um: b.y,
        };
    }
    if a.y <= b.y {
        return Line {
            l: a.y,
            lm: a.x,
            u: b.y,
            um: b.x,
        };
    }
    Line {
        l: b.y,
        lm: b.x,
        u: a.y,
        um: a.x,
    }
}

// A function, not an `if` in place: what calls it has one case, by `cond`.
fn pick(t: bool, a: u32, b: u32) -> u32
    ensures { result ≡ cond t a b }
{
    if t { a } else { b }
}

// The columns of the strip of a span, or its rows, if the span is tall.
pub fn strip_axis(span: Span, width: u32, height: u32) -> CellRange
    requires { Sides width height × SpanFits width height span }
    ensures { result ≡ strip_axis width height span }
{
    let line = line_of(span);
    let limit = pick(is_tall(span), height, width);
    candidate_axis_range(line.l, line.u, limit)
}

// Its rows at a column, or its columns at a row, if the span is tall.
pub fn strip_minor(span: Span, width: u32, height: u32, c: u32) -> CellRange
    requires { Sides width height × SpanFits width height span × (c < 1024) }
    ensures { result ≡ strip_minor width height span c }
{
    let line = line_of(span);
    let limit = pick(is_tall(span), width, height);
    let v = clamp(8 * c + 4, line.l, line.u);
    candidate_minor_range(line_at(line.l, line.lm, line.u, line.um, v), limit)
}
