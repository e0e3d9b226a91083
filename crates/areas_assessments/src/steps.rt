// The steps that a span cuts, from one cell.
ghost use Rattle.std.specs.Prelude.{[], ◌∷◌, ℕ, ◌+◌, ◌*◌, ◌<◌, ◌≤◌, length};
ghost use Rattle.grid.specs.Cells.{map_of};
ghost use Rattle.areas.specs.Words.{labels_in};
ghost use Rattle.grid.specs.Directions.{directions_of};
ghost use Rattle.grid.specs.Steps.{step_of};
ghost use Rattle.areas_assessments.specs.Holding.{Advances, StepRoom, Grown};
ghost use Rattle.areas_assessments.specs.Visits.{SpanOnMap, cut_in, cut_from};

use super::pairs::insert_pair;
use areas::geometry::cut_by;
use grid::cells::index;
use grid::neighbors::{has_direction, place_to, step_at};
use position::{Span, WalkPosition};
use wire::read_u32;

// How many steps a span removes, of those how many part two areas, and the end of its pairs in the arrays. Not a tuple: clauses read the three by name.
#[derive(Clone, Copy)]
pub struct Assessed {
    pub removed: u32,
    pub separated: u32,
    pub end: usize,
}

// A map with its labels and the directions of its steps, and a span on it.
#[derive(Clone, Copy)]
pub(crate) struct SpannedMap<'a> {
    pub(crate) cells: &'a [u8],
    pub(crate) width: u32,
    pub(crate) height: u32,
    pub(crate) directions: u32,
    pub(crate) labels: &'a [u8],
    pub(crate) span: Span,
    ghost on_map: { SpanOnMap width height cells.now labels.now span },
}

// Counts a step from cell i to cell j, and puts its pair in if their labels differ.
fn count_step(
    labels: &[u8],
    i: u32,
    j: u32,
    lefts: &mut [u32],
    rights: &mut [u32],
    start: usize,
    state: Assessed,
) -> Assessed
    requires { (4 * i + 4 ≤ length labels.now) × (4 * j + 4 ≤ length labels.now) × StepRoom start 1 lefts.old rights.old state }
    ensures grown { Grown (length lefts.old) start 1 state result }
    ensures by_index { (n : ℕ) → i < n → j < n
        → Advances (length lefts.old) (labels_in labels.now n) (step_of i j ∷ []) start lefts.old rights.old
        state lefts.new rights.new result }
{
    let removed = state.removed + 1;
    let separated = state.separated;
    let end = state.end;
    let from = read_u32(labels, 4 * (i as usize));
    let to = read_u32(labels, 4 * (j as usize));
    if from == to {
        return Assessed {
            removed,
            separated,
            end,
        };
    }
    let next = insert_pair(lefts, rights, start, end, from.min(to), from.max(to));
    Assessed {
        removed,
        separated: separated + 1,
        end: next,
    }
}

impl SpannedMap<'_> {
    // Counts the step in a direction from the cell at a place, if the direction is in the set and the span cuts the step.
    fn assess_step(
        &self,
        position: WalkPosition,
        d: u32,
        lefts: &mut [u32],
        rights: &mut [u32],
        start: usize,
        state: Assessed,
    ) -> Assessed
        requires { (position.x < self.now.width) × (position.y < self.now.height) × (d < 9) × StepRoom start 1 lefts.old rights.old state }
        ensures grown { Grown (length lefts.old) start 1 state result }
        ensures advances { Advances (length lefts.old) (labels_in self.now.labels.now (self.now.width * self.now.height))
            (cut_in (directions_of self.now.directions) (map_of self.now.width self.now.height self.now.cells.now) self.now.span
            (position.y * self.now.width + position.x) d) start lefts.old rights.old state lefts.new rights.new result }
    {
        if !has_direction(self.directions, d) {
            return state;
        }
        if !step_at(self.cells, self.width, self.height, position, d) {
            return state;
        }
        let to = place_to(position, d);
        if !cut_by(self.span, position, to) {
            return state;
        }
        let from = index(self.width, position);
        count_step(
            self.labels,
            from,
            index(self.width, to),
            lefts,
            rights,
            start,
            state,
        )
    }

    // Counts the steps that the span cuts from the cell at a place to later cells.
    pub(crate) fn assess_cell(
        &self,
        position: WalkPosition,
        lefts: &mut [u32],
        rights: &mut [u32],
        start: usize,
        state: Assessed,
    ) -> Assessed
        requires { (position.x < self.now.width) × (position.y < self.now.height) × StepRoom start 4 lefts.old rights.old state }
        ensures grown { Grown (length lefts.old) start 4 state result }
        ensures advances { Advances (length lefts.old) (labels_in self.now.labels.now (self.now.width * self.now.height))
            (cut_from (directions_of self.now.directions) (map_of self.now.width self.now.height self.now.cells.now) self.now.span
            (position.y * self.now.width + position.x)) start lefts.old rights.old state lefts.new rights.new result }
    {
        let mut done = state;
        for d in 5..9 {
            done = self.assess_step(position, d, lefts, rights, start, done);
        }
        done
    }
}
