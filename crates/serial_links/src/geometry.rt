// Points, directions, bounds and distances.
ghost use Rattle.std.specs.Prelude.{◌≡◌, not, ◌+◌, ◌*◌, ◌≤◌, eqb};
ghost use Rattle.std.specs.Float.{binary64};
ghost use Rattle.std.specs.Float.Ieee.{of_bits};
ghost use Rattle.position.specs.Order.{canonical};
ghost use Rattle.position.specs.Bounds.{Bounded};
ghost use Rattle.serial_links.specs.Geometry.{squares, centre_of, point_of, point_length, centre_length, doubled_centre, towards, scaled, turned};
ghost use Rattle.serial_links.specs.Geometry.{dot};
ghost use Rattle.serial_links.specs.Geometry.{reach};
ghost use Rattle.serial_links.specs.Link.{widened, end_bounds, no_bounds, link_direction, span_direction};
ghost use Rattle.serial_links.specs.Held.{SpanBounded, doubled, vector, held_point, held_range, range, centre_at, with_ends};

use length::floats::{abs, max, min};
use length::{Length, length_of};
use position::{PixelPosition, Span};

// A point or a direction.
#[derive(Clone, Copy)]
pub struct Point {
    pub x: f64,
    pub y: f64,
}

// The least and the greatest of some values.
#[derive(Clone, Copy)]
pub struct Range {
    pub low: f64,
    pub high: f64,
}

fn square(n: u32) -> u32
    requires { n ≤ 16384 }
    ensures { (result ≡ n * n) × (result ≤ 268435456) }
{
    n * n
}

// The sum of the squares of the differences of two doubled points.
fn squares(ax: u32, ay: u32, bx: u32, by: u32) -> u32
    requires { (ax ≤ 16384) × (ay ≤ 16384) × (bx ≤ 16384) × (by ≤ 16384) }
    ensures { (result ≡ squares (doubled ax ay) (doubled bx by)) × (result ≤ 536870912) }
{
    square(ax.abs_diff(bx)) + square(ay.abs_diff(by))
}

fn centre_squares(first: Span, second: Span) -> u32
    requires { SpanBounded first × SpanBounded second }
    ensures { (result ≡ squares (doubled_centre first) (doubled_centre second)) × (result ≤ 536870912) }
{
    let a = first.a;
    let b = first.b;
    let c = second.a;
    let d = second.b;
    squares(a.x + b.x, a.y + b.y, c.x + d.x, c.y + d.y)
}

// How far the centres of two spans are apart.
pub fn centre_distance(first: Span, second: Span) -> Length
    requires { SpanBounded first × SpanBounded second }
    ensures { result ≡ centre_length first second }
{
    length_of(centre_squares(first, second))
}

// The centres of two spans differ.
pub fn centres_differ(first: Span, second: Span) -> bool
    requires { SpanBounded first × SpanBounded second }
    ensures { result ≡ not (eqb (squares (doubled_centre first) (doubled_centre second)) 0) }
{
    centre_squares(first, second) != 0
}

// How far two positions are apart.
pub fn point_distance(p: PixelPosition, q: PixelPosition) -> Length
    requires { Bounded p × Bounded q }
    ensures { result ≡ point_length p q }
{
    length_of(squares(2 * p.x, 2 * p.y, 2 * q.x, 2 * q.y))
}

// The bits of a number from +0 to 16,384 are no NaN's.
pub fn width_of(bits: u64) -> f64
    requires { bits ≤ 0x40D0_0000_0000_0000 }
    ensures { result ≡ of_bits binary64 bits }
{
    f64::from_bits(bits)
}

// A function by name, not From: points are made of positions, spans and cells alike.
pub fn point_of(p: PixelPosition) -> Point
    ensures { result ≡ held_point (point_of p) }
{
    Point {
        x: p.x as f64,
        y: p.y as f64,
    }
}

pub fn centre_of(s: Span) -> Point
    ensures { result ≡ held_point (centre_of s) }
{
    let a = s.a;
    let b = s.b;
    Point {
        x: (a.x as f64 + b.x as f64) / 2.0,
        y: (a.y as f64 + b.y as f64) / 2.0,
    }
}

// The centre of the cell at a column and a row.
pub fn cell_centre(column: u32, row: u32) -> Point
    ensures { result ≡ held_point (centre_at column row) }
{
    Point {
        x: column as f64 * 8.0 + 4.0,
        y: row as f64 * 8.0 + 4.0,
    }
}

impl Point {
    // From this point to another.
    pub fn towards(self, to: Point) -> Point
        ensures { result ≡ held_point (towards (vector self) (vector to)) }
    {
        Point {
            x: to.x - self.x,
            y: to.y - self.y,
        }
    }

    // By its length.
    pub fn scaled(self, by: f64) -> Point
        ensures { result ≡ held_point (scaled (vector self) by) }
    {
        Point {
            x: self.x / by,
            y: self.y / by,
        }
    }

    // A quarter turn.
    pub fn turned(self) -> Point
        ensures { result ≡ held_point (turned (vector self)) }
    {
        Point {
            x: -self.y,
            y: self.x,
        }
    }

    pub fn dot(self, v: Point) -> f64
        ensures { result ≡ dot (vector self) (vector v) }
    {
        self.x * v.x + self.y * v.y
    }

    // How far a square of side 1 reaches along this direction.
    pub fn reach(self) -> f64
        ensures { result ≡ reach (vector self) }
    {
        abs(self.x) + abs(self.y)
    }
}

impl Range {
    // Of no value: ∞ and −∞.
    pub fn none() -> Range
        ensures { result ≡ held_range no_bounds }
    {
        Range {
            low: f64::from_bits(0x7FF0_0000_0000_0000),
            high: f64::from_bits(0xFFF0_0000_0000_0000),
        }
    }

    // With one value more.
    pub fn widened(self, value: f64) -> Range
        ensures { result ≡ held_range (widened (range self) value) }
    {
        Range {
            low: min(self.low, value),
            high: max(self.high, value),
        }
    }

    // With the ends of a span on a direction.
    fn with_ends(self, s: Span, v: Point) -> Range
        ensures { result ≡ held_range (with_ends (range self) s (vector v)) }
    {
        let a = point_of(s.a);
        let b = point_of(s.b);
        self.widened(a.dot(v)).widened(b.dot(v))
    }
}

// The bounds of the four ends on a direction, the first span's before the second's.
pub fn end_bounds(first: Span, second: Span, v: Point) -> Range
    ensures { result ≡ held_range (end_bounds first second (vector v)) }
{
    let s = first.canonical();
    let t = second.canonical();
    Range::none().with_ends(s, v).with_ends(t, v)
}

// From the first centre to the second, by their distance.
pub fn link_direction(first: Span, second: Span) -> Point
    requires { SpanBounded first × SpanBounded second }
    ensures { result ≡ held_point (link_direction first second) }
{
    let length = centre_distance(first, second);
    centre_of(first)
        .towards(centre_of(second))
        .scaled(length.value)
}

// From the earlier end of a span to the later, by its length.
pub fn span_direction(s: Span) -> Point
    requires { SpanBounded s }
    ensures { result ≡ held_point (span_direction s) }
{
    let t = s.canonical();
    let length = point_distance(t.a, t.b);
    point_of(t.a).towards(point_of(t.b)).scaled(length.value)
}
