// The steps that a span cuts, taken out of the bytes of a map.
ghost use Rattle.std.specs.Prelude.{◌≡◌, true, not, cond, ◌&&◌, List, [], ◌∷◌, ◌++◌, ℕ, ◌+◌, ◌*◌, ◌<◌, ◌≤◌, length};
ghost use Rattle.position.specs.declared.Span.{Span};
ghost use Rattle.grid.specs.Cells.{Grid, size, column_of, row_of};
ghost use Rattle.grid.specs.Steps.{leads_on, neighbour, step_of};
ghost use Rattle.areas.specs.Cuts.{cut_by};
ghost use Rattle.areas.specs.Open.{open_byte};
ghost use Rattle.areas.specs.Spans.{Sides, SpanFits};
ghost use Rattle.areas.specs.Strip.{tall};
ghost use Rattle.areas_steps.specs.Marks.{MapOf, WorkHolds, rank_at, Closes};

use super::opening::byte_of;
use areas::candidates::{is_tall, strip_axis, strip_minor};
use areas::geometry::cut_by;
use grid::neighbors::{leads_on, place_to};
use position::{Span, WalkPosition};

// A span on a map.
#[derive(Clone, Copy)]
struct Cut {
    span: Span,
    width: u32,
    height: u32,
    ghost sides: { Sides width height },
    ghost fits: { SpanFits width height span },
}

// The place at c along a span and cm on the other axis.
fn place_at(tall: bool, c: u32, cm: u32) -> WalkPosition
    ensures { (result.x ≡ cond tall cm c) × (result.y ≡ cond tall c cm) }
{
    if tall {
        return WalkPosition { x: cm, y: c };
    }
    WalkPosition { x: c, y: cm }
}

impl Cut {
    // A step in direction d from the cell at a place of the map that is uncut so far stays so with the span.
    fn keeps(self, uncut: bool, position: WalkPosition, d: u32) -> bool
        requires { (position.x < self.width) × (position.y < self.height) × (d < 9) }
        ensures { (g : Grid) (i : ℕ) → MapOf self.width self.height g → column_of g i ≡ position.x → row_of g i ≡ position.y
            → (uncut ≡ true → leads_on g i d ≡ true) → result ≡ (uncut && not (cut_by g self.span (step_of i (neighbour g i d)))) }
    {
        if !uncut {
            return false;
        }
        if !leads_on(self.width, self.height, position, d) {
            return false;
        }
        !cut_by(self.span, position, place_to(position, d))
    }

    // The byte of the cell at a place of the map, with one more span.
    fn close_byte(self, byte: u8, position: WalkPosition) -> u8
        requires { (position.x < self.width) × (position.y < self.height) }
        ensures { (g : Grid) (dirs : List ℕ) (ss : List Span) (i : ℕ) → MapOf self.width self.height g → column_of g i ≡ position.x
            → row_of g i ≡ position.y → byte ≡ open_byte dirs g ss i → result ≡ open_byte dirs g (ss ++ (self.span ∷ [])) i }
    {
        let right = self.keeps(byte % 2 == 1, position, 5);
        let below_left = self.keeps(byte / 2 % 2 == 1, position, 6);
        let below = self.keeps(byte / 4 % 2 == 1, position, 7);
        let below_right = self.keeps(byte / 8 % 2 == 1, position, 8);
        u8::from(right) + 2 * u8::from(below_left) + 4 * u8::from(below) + 8 * u8::from(below_right)
    }

    // Takes the steps that the span cuts out of the byte of one cell.
    fn close_cell(self, position: WalkPosition, work: &mut [u8], base: usize)
        requires { (base + self.width * self.height ≤ length work.old) × (position.x < self.width) × (position.y < self.height) }
        ensures { Closes self.width self.height base self.span (rank_at self.span position.x position.y)
            (rank_at self.span position.x position.y + 1) work.old work.new }
    {
        let i = byte_of(self.width, position, base);
        work[i] = self.close_byte(work[i], position);
    }

    // Takes them out of the bytes of the strip's cells at c along the span.
    fn close_line(self, c: u32, work: &mut [u8], base: usize)
        requires { (base + self.width * self.height ≤ length work.old) × (c < cond (tall self.span) self.height self.width) }
        ensures { Closes self.width self.height base self.span (c * 1024) ((c + 1) * 1024) work.old work.new }
    {
        let tall = is_tall(self.span);
        let range = strip_minor(self.span, self.width, self.height, c);
        // To last + 1, not ..=: that loop has a second test at its end.
        for cm in range.first..range.last + 1 {
            self.close_cell(place_at(tall, c, cm), work, base);
        }
    }
}

// Takes the steps that the span cuts out of the bytes from base on, which are those of other spans.
pub fn close_cut(span: Span, width: u32, height: u32, work: &mut [u8], base: usize)
    requires { Sides width height × SpanFits width height span × (base + width * height ≤ length work.old) }
    ensures { (g : Grid) (dirs : List ℕ) (ss : List Span) (before : List ℕ) → MapOf width height g
        → WorkHolds base (size g) (open_byte dirs g ss) before work.old
        → WorkHolds base (size g) (open_byte dirs g (ss ++ (span ∷ []))) before work.new }
{
    let cut = Cut {
        span,
        width,
        height,
    };
    let range = strip_axis(span, width, height);
    for c in range.first..range.last + 1 {
        cut.close_line(c, work, base);
    }
}
