// The steps that a span cuts, over its strip.
ghost use Rattle.std.specs.Prelude.{◌≡◌, cond, ◌*◌, ◌<◌, ◌≤◌, length};
ghost use Rattle.grid.specs.Cells.{map_of};
ghost use Rattle.grid.specs.Directions.{directions_of};
ghost use Rattle.areas.specs.Assessments.{assessment};
ghost use Rattle.areas.specs.Cuts.{cut_steps};
ghost use Rattle.areas.specs.Strip.{tall};
ghost use Rattle.areas.specs.Words.{labels_in};
ghost use Rattle.areas_assessments.specs.Holding.{HoldsAssessment, Advances, StepRoom, Grown};
ghost use Rattle.areas_assessments.specs.Visits.{SpanOnMap, cut_beside};

use super::steps::{Assessed, SpannedMap};
use areas::candidates::{is_tall, strip_axis, strip_minor};
use position::{Span, WalkPosition};

// The place that is c along a span and cm on the other axis.
fn place_of(tall: bool, c: u32, cm: u32) -> WalkPosition
    ensures { (result.x ≡ cond tall cm c) × (result.y ≡ cond tall c cm) }
{
    if tall {
        WalkPosition { x: cm, y: c }
    } else {
        WalkPosition { x: c, y: cm }
    }
}

impl SpannedMap<'_> {
    // Counts the steps that the span cuts from the cells of its strip at c.
    // lefts and rights are no struct of &mut slices: a function that lends its arrays to one doesn't learn what they hold after.
    fn assess_beside(
        &self,
        c: u32,
        lefts: &mut [u32],
        rights: &mut [u32],
        start: usize,
        state: Assessed,
    ) -> Assessed
        requires { (c < cond (tall self.now.span) self.now.height self.now.width) × StepRoom start 4096 lefts.old rights.old state }
        ensures grown { Grown (length lefts.old) start 4096 state result }
        ensures advances { Advances (length lefts.old) (labels_in self.now.labels.now (self.now.width * self.now.height))
            (cut_beside (directions_of self.now.directions) (map_of self.now.width self.now.height self.now.cells.now) self.now.span c)
            start lefts.old rights.old state lefts.new rights.new result }
    {
        let tall = is_tall(self.span);
        let range = strip_minor(self.span, self.width, self.height, c);
        let mut done = state;
        for cm in range.first..range.last + 1 {
            done = self.assess_cell(place_of(tall, c, cm), lefts, rights, start, done);
        }
        done
    }
}

// Counts the steps that the span removes, and of those the ones whose labels differ; puts the label pairs of these into the arrays from start on, in
// order and each once.
pub fn assess_span(
    cells: &[u8],
    width: u32,
    height: u32,
    directions: u32,
    labels: &[u8],
    span: Span,
    lefts: &mut [u32],
    rights: &mut [u32],
    start: usize,
) -> Assessed
    requires { SpanOnMap width height cells.now labels.now span × (start ≤ length lefts.old) × (length rights.old ≡ length lefts.old)
        × (length lefts.old ≤ 4096) }
    ensures { HoldsAssessment (length lefts.old)
        (assessment (labels_in labels.now (width * height)) (cut_steps (directions_of directions) (map_of width height cells.now) span))
        lefts.old rights.old start lefts.new rights.new result }
{
    let map = SpannedMap {
        cells,
        width,
        height,
        directions,
        labels,
        span,
    };
    let range = strip_axis(span, width, height);
    let mut done = Assessed {
        removed: 0,
        separated: 0,
        end: start,
    };
    for c in range.first..range.last + 1 {
        done = map.assess_beside(c, lefts, rights, start, done);
    }
    done
}
