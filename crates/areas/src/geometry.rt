// Sides of a line, segments that meet, and the steps that a span cuts. The source's signed `cross` is what is added less what is
// taken away: two sums, so that nothing is negative.
ghost use Rattle.std.specs.Prelude.{◌≡◌, true, ℕ, ◌*◌, ◌<◌, ◌≤◌};
ghost use Rattle.position.specs.Order.{pos_le};
ghost use Rattle.grid.specs.Cells.{Grid, centre, column_of, row_of};
ghost use Rattle.grid.specs.Steps.{step_of};
ghost use Rattle.position.specs.Bounds.{Bounded};
ghost use Rattle.areas.specs.Segments.{cross_plus, cross_minus, side, above, below, on_segment, opposite, meets};
ghost use Rattle.areas.specs.Cuts.{cuts, cut_by};

use position::{PixelPosition, Span, WalkPosition};

pub fn product(a: u32, b: u32) -> u32
    requires { (a ≤ 8192) × (b ≤ 8192) }
    ensures { (result ≡ a * b) × (result ≤ 67108864) }
{
    a * b
}

// The closed segment from a to b, and the line through it.
// Of a point it is a clause, not a type: PixelPosition is public, and has positions off the map too.
#[derive(Clone, Copy)]
struct Segment {
    a: PixelPosition,
    b: PixelPosition,
    ghost bounded: { Bounded a × Bounded b },
}

impl Segment {
    fn cross_plus(self, point: PixelPosition) -> u32
        requires { Bounded point }
        ensures { result ≡ cross_plus self.a self.b point }
    {
        let a = self.a;
        let b = self.b;
        product(a.x, b.y) + product(b.x, point.y) + product(point.x, a.y)
    }

    fn cross_minus(self, point: PixelPosition) -> u32
        requires { Bounded point }
        ensures { result ≡ cross_minus self.a self.b point }
    {
        let a = self.a;
        let b = self.b;
        product(a.x, point.y) + product(b.x, a.y) + product(point.x, b.y)
    }

    // The point is strictly on the positive side of the line.
    fn above(self, point: PixelPosition) -> bool
        requires { Bounded point }
        ensures { result ≡ above self.a self.b point }
    {
        self.cross_minus(point) < self.cross_plus(point)
    }

    // Strictly on the negative side. A function beside `above`, for with the ends exchanged there it would not say which side.
    fn below(self, point: PixelPosition) -> bool
        requires { Bounded point }
        ensures { result ≡ below self.a self.b point }
    {
        self.cross_plus(point) < self.cross_minus(point)
    }

    // The other's ends are strictly on opposite sides.
    fn strictly_opposite(self, other: Segment) -> bool
        ensures { result ≡ opposite self.a self.b other.a other.b }
    {
        (self.below(other.a) & self.above(other.b)) | (self.above(other.a) & self.below(other.b))
    }

    // The point is on the segment.
    fn on_segment(self, point: PixelPosition) -> bool
        requires { Bounded point }
        ensures { result ≡ on_segment self.a self.b point }
    {
        let a = self.a;
        let b = self.b;
        let x = point.x;
        let y = point.y;
        (self.cross_plus(point) == self.cross_minus(point))
            & (((a.x.min(b.x) <= x) & (x <= a.x.max(b.x)))
                & ((a.y.min(b.y) <= y) & (y <= a.y.max(b.y))))
    }
}

// The side of the point is not negative; on the line it is zero.
pub fn side(a: PixelPosition, b: PixelPosition, point: PixelPosition) -> bool
    requires { Bounded a × Bounded b × Bounded point }
    ensures { result ≡ side a b point }
{
    let line = Segment { a, b };
    line.cross_minus(point) <= line.cross_plus(point)
}

// The closed segments from a to b and from c to d have a common point.
pub fn segments_intersect(
    a: PixelPosition,
    b: PixelPosition,
    c: PixelPosition,
    d: PixelPosition,
) -> bool
    requires { Bounded a × Bounded b × Bounded c × Bounded d }
    ensures { result ≡ meets a b c d }
{
    let one = Segment { a, b };
    let other = Segment { a: c, b: d };
    (one.strictly_opposite(other) & other.strictly_opposite(one))
        | ((one.on_segment(c) | one.on_segment(d)) | (other.on_segment(a) | other.on_segment(b)))
}

// The span, whose earlier end is listed first, cuts the segment between two positions.
pub fn cuts(span: Span, from: PixelPosition, to: PixelPosition) -> bool
    requires { Bounded span.a × Bounded span.b × Bounded from × Bounded to }
    ensures { result ≡ cuts span from to }
{
    let a = span.a;
    let b = span.b;
    if side(a, b, from) == side(a, b, to) {
        return false;
    }
    segments_intersect(a, b, from, to)
}

// The centre, in pixels, of the cell at a column and a row.
pub fn cell_center(position: WalkPosition) -> PixelPosition
    requires { (position.x < 1024) × (position.y < 1024) }
    ensures value { (g : Grid) (i : ℕ) → column_of g i ≡ position.x → row_of g i ≡ position.y → result ≡ centre g i }
    ensures bounded { Bounded result }
{
    let x = position.x;
    let y = position.y;
    PixelPosition {
        x: 8 * x + 4,
        y: 8 * y + 4,
    }
}

// The span, whose earlier end is listed first, cuts the step between the cells at two places of a map.
pub fn cut_by(span: Span, from: WalkPosition, to: WalkPosition) -> bool
    requires { Bounded span.a × Bounded span.b × (pos_le span.a span.b ≡ true) × (from.x < 1024) × (from.y < 1024) × (to.x < 1024)
        × (to.y < 1024) }
    ensures { (g : Grid) (i j : ℕ) → column_of g i ≡ from.x → row_of g i ≡ from.y → column_of g j ≡ to.x → row_of g j ≡ to.y
        → result ≡ cut_by g span (step_of i j) }
{
    cuts(span, cell_center(from), cell_center(to))
}
