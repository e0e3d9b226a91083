// A link of two boundaries: 000's `Link`, measured by the cells of its region.
ghost use Rattle.std.specs.Prelude.{◌≡◌, true, false, ◌&&◌, ◌≤◌};
ghost use Rattle.serial_links.specs.Link.{link_of};
ghost use Rattle.serial_links.specs.Flat.{inside_on, inside_both};
ghost use Rattle.serial_links.specs.Measure.{enveloped, transverse_envelope, longitudinal_envelope, passing};
ghost use Rattle.serial_links.specs.Held.{SpanBounded, vector, range};
ghost use Rattle.serial_links.specs.HeldLimits.{limits_of};
ghost use Rattle.serial_links.specs.HeldLink.{link_held, extremes_in, no_cell, link_with_cell, measured_in, measured_meaning, side};

use crate::geometry::{
    Point, Range, cell_centre, centre_distance, centre_of, end_bounds, link_direction,
    span_direction, width_of,
};
use crate::limits::Limits;
use length::Length;
use length::floats::{max, min};
use position::Span;

// Single f64 fields, not Points and Ranges, by document 01; flags, not an Option: specs/HeldLink.antt reads them by name.
#[derive(Clone, Copy)]
pub struct Link {
    pub centre_x: f64,
    pub centre_y: f64,
    pub distance: Length,
    pub unit_x: f64,
    pub unit_y: f64,
    pub normal_x: f64,
    pub normal_y: f64,
    pub span_unit_x: f64,
    pub span_unit_y: f64,
    pub span_normal_x: f64,
    pub span_normal_y: f64,
    pub along_low: f64,
    pub along_high: f64,
    pub across_low: f64,
    pub across_high: f64,
    pub min_width: f64,
    pub longitudinal_min: f64,
    pub longitudinal_max: f64,
    pub transverse_min: f64,
    pub transverse_max: f64,
    // every cell so far stays inside the flat envelope
    pub inside: bool,
    // there was a cell
    pub seen: bool,
}

// A measured link; the transverse envelope before the longitudinal. Three cases, not an Option of a Result: a link beyond its limits is no error.
#[derive(Clone, Copy)]
pub enum Measured {
    Empty,
    Within(f64, f64),
    Beyond(f64, f64),
}

// The link of two boundaries, of which no cell was seen yet.
pub fn link_of(first: Span, first_bits: u64, second: Span, second_bits: u64) -> Link
    requires { SpanBounded first × SpanBounded second × (first_bits ≤ 0x40D0_0000_0000_0000) × (second_bits ≤ 0x40D0_0000_0000_0000) }
    ensures { result ≡ no_cell (link_of (side first first_bits) (side second second_bits)) }
{
    let centre = centre_of(first);
    let unit = link_direction(first, second);
    let normal = unit.turned();
    let span_unit = span_direction(first);
    let span_normal = span_unit.turned();
    let along = end_bounds(first, second, span_unit);
    let across = end_bounds(first, second, span_normal);
    let none = Range::none();
    Link {
        centre_x: centre.x,
        centre_y: centre.y,
        distance: centre_distance(first, second),
        unit_x: unit.x,
        unit_y: unit.y,
        normal_x: normal.x,
        normal_y: normal.y,
        span_unit_x: span_unit.x,
        span_unit_y: span_unit.y,
        span_normal_x: span_normal.x,
        span_normal_y: span_normal.y,
        along_low: along.low,
        along_high: along.high,
        across_low: across.low,
        across_high: across.high,
        min_width: min(width_of(first_bits), width_of(second_bits)),
        longitudinal_min: none.low,
        longitudinal_max: none.high,
        transverse_min: none.low,
        transverse_max: none.high,
        inside: true,
        seen: false,
    }
}

// A cell with its centre at p stays inside the bounds and the tolerance on the direction v.
fn inside_on(v: Point, b: Range, tolerance: f64, p: Point) -> bool
    ensures { result ≡ inside_on (vector v) (range b) tolerance (vector p) }
{
    let projection = p.dot(v);
    let radius = 4.0 * v.reach();
    !(projection - radius < b.low - tolerance) & !(projection + radius > b.high + tolerance)
}

// From the least centre to the greatest, and the extent of a cell.
fn enveloped(b: Range, v: Point) -> f64
    ensures { result ≡ enveloped (range b) (vector v) }
{
    b.high - b.low + 8.0 * v.reach()
}

impl Link {
    pub const GEOMETRY_TOLERANCE_PIXELS: f64 = 16.0;

    pub const FLAT_ENVELOPE_TOLERANCE_PIXELS: f64 = 32.0;

    // A cell with its centre at p stays inside the flat envelope.
    fn stays(self, p: Point, limits: Limits) -> bool
        ensures { result ≡ inside_both (limits_of limits) (link_held self) (vector p) }
    {
        let unit = Point {
            x: self.span_unit_x,
            y: self.span_unit_y,
        };
        let normal = Point {
            x: self.span_normal_x,
            y: self.span_normal_y,
        };
        let along = Range {
            low: self.along_low,
            high: self.along_high,
        };
        let across = Range {
            low: self.across_low,
            high: self.across_high,
        };
        let tolerance = max(limits.envelope, self.min_width / 4.0);
        inside_on(unit, along, tolerance, p) & inside_on(normal, across, limits.envelope, p)
    }

    // The cells so far stay inside the flat envelope, and so does one with its centre at p.
    fn still(self, p: Point, limits: Limits) -> bool
        ensures { result ≡ self.inside && inside_both (limits_of limits) (link_held self) (vector p) }
    {
        if self.inside {
            self.stays(p, limits)
        } else {
            false
        }
    }

    // One cell of its region more.
    pub fn at(self, column: u32, row: u32, limits: Limits) -> Link
        ensures { result ≡ link_with_cell (limits_of limits) self column row }
    {
        let p = cell_centre(column, row);
        let centre = Point {
            x: self.centre_x,
            y: self.centre_y,
        };
        let relative = centre.towards(p);
        let unit = Point {
            x: self.unit_x,
            y: self.unit_y,
        };
        let normal = Point {
            x: self.normal_x,
            y: self.normal_y,
        };
        let longitudinal = relative.dot(unit);
        let transverse = relative.dot(normal);
        let mut next = self;
        next.inside = self.still(p, limits);
        next.longitudinal_min = min(self.longitudinal_min, longitudinal);
        next.longitudinal_max = max(self.longitudinal_max, longitudinal);
        next.transverse_min = min(self.transverse_min, transverse);
        next.transverse_max = max(self.transverse_max, transverse);
        next.seen = true;
        next
    }

    // Two envelopes, not one by axis: each reads fields of its own, which document 01 wants single.
    fn transverse_envelope(self) -> f64
        ensures { result ≡ transverse_envelope (link_held self) (extremes_in self) }
    {
        let normal = Point {
            x: self.normal_x,
            y: self.normal_y,
        };
        let b = Range {
            low: self.transverse_min,
            high: self.transverse_max,
        };
        enveloped(b, normal)
    }

    fn longitudinal_envelope(self) -> f64
        ensures { result ≡ longitudinal_envelope (link_held self) (extremes_in self) }
    {
        let unit = Point {
            x: self.unit_x,
            y: self.unit_y,
        };
        let b = Range {
            low: self.longitudinal_min,
            high: self.longitudinal_max,
        };
        enveloped(b, unit)
    }

    // Empty without a cell; else within both limits, or beyond one.
    pub fn measured(self, limits: Limits) -> Measured
        ensures { measured_meaning result ≡ measured_in (limits_of limits) self }
    {
        if !self.seen {
            return Measured::Empty;
        }
        let transverse = self.transverse_envelope();
        let longitudinal = self.longitudinal_envelope();
        let width = self.min_width;
        let distance = self.distance;
        if (transverse <= 1.5 * width + limits.geometry)
            & (longitudinal <= distance.value + width / 2.0 + limits.geometry)
        {
            Measured::Within(transverse, longitudinal)
        } else {
            Measured::Beyond(transverse, longitudinal)
        }
    }
}

impl Measured {
    // Only a link within both limits passes.
    pub fn passing(self) -> bool
        ensures { result ≡ passing (measured_meaning self) }
    {
        matches!(self, Measured::Within(_, _))
    }
}
