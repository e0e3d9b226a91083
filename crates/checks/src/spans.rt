// Refusals 14 to 17 of a span list, and the tests of one span (source document 002's `validate_spans`).
ghost use Rattle.std.specs.Prelude.{◌≡◌, ◌*◌, ◌≤◌, length};
ghost use Rattle.format.specs.Sizes.{span_size};
ghost use Rattle.checks.specs.Checks.{first_refusal, each};
ghost use Rattle.checks.specs.Faults.{position_fault, ends_fault};
ghost use Rattle.format.specs.Bounds.{max_side};
ghost use Rattle.checks.specs.Single.{span_check, list_checks};
ghost use Rattle.checks.specs.Verdict.{meaning};

use crate::refused::Refused;
use format::{CELL_PIXELS, MAX_SPANS, SPAN_SIZE, read_span};
use position::{PixelPosition, Span};

// The map's sides go as two numbers with clauses, not as a type: ends_fault, check_ends and check_list are public.
fn position_fault(width: u32, height: u32, p: PixelPosition) -> bool
    requires { (width ≤ max_side) × (height ≤ max_side) }
    ensures { result ≡ position_fault width height p }
{
    (width * CELL_PIXELS < p.x) | (height * CELL_PIXELS < p.y)
}

pub fn ends_fault(width: u32, height: u32, e: Span) -> bool
    requires { (width ≤ max_side) × (height ≤ max_side) }
    ensures { result ≡ ends_fault width height e }
{
    position_fault(width, height, e.a) | position_fault(width, height, e.b)
}

fn check_spans(list: &[u8], n: usize, width: u32, height: u32) -> Result<(), Refused>
    requires { (n * span_size ≤ length list.now) × (width ≤ max_side) × (height ≤ max_side) }
    ensures { meaning result ≡ first_refusal (each n (span_check list.now width height)) }
{
    for i in 0..n {
        let e = read_span(list, i * SPAN_SIZE);
        if ends_fault(width, height, e) {
            return Err(Refused::SpanOffMap(i));
        }
        if e.coincides() {
            return Err(Refused::SpanEndsCoincide(i));
        }
    }
    Ok(())
}

pub fn check_list(list: &[u8], width: u32, height: u32) -> Result<(), Refused>
    requires { (width ≤ max_side) × (height ≤ max_side) }
    ensures { meaning result ≡ first_refusal (list_checks list.now width height) }
{
    if !(list.len() % SPAN_SIZE == 0) {
        return Err(Refused::BadListLength);
    }
    let n = list.len() / SPAN_SIZE;
    if MAX_SPANS < n {
        return Err(Refused::TooManySpans(n));
    }
    check_spans(list, n, width, height)
}
