// What a call refuses.
ghost use Rattle.std.specs.Prelude.{◌≡◌};
ghost use Rattle.checks.specs.Verdict.{refusal_of};

use crate::refusals::{
    ANCHOR_OFF_MAP, ANSWER_TOO_SHORT, BAD_CELL, BAD_LAYOUT, BAD_LIST_LENGTH, BAD_RAMP, BAD_SIDES,
    BAD_SUMS, BAD_THRESHOLDS, BAD_WIDTH, END_OFF_MAP, ENDS_COINCIDE, JOB_TOO_SHORT,
    MARKS_TOO_SHORT, SLICE_TOO_SHORT, SPAN_ENDS_COINCIDE, SPAN_OFF_MAP, TOO_MANY_BOUNDARIES,
    TOO_MANY_PAIRS, TOO_MANY_RECORDS, TOO_MANY_SPANS, WORK_TOO_SHORT,
};

#[derive(Clone, Copy, Debug, PartialEq, Eq)]
pub enum Refused {
    JobTooShort,
    BadSides,
    TooManyRecords,
    TooManyBoundaries(usize),
    BadLayout,
    BadCell(usize),
    AnchorOffMap(usize),
    BadSums,
    BadRamp(usize),
    BadWidth(usize),
    EndOffMap(usize),
    EndsCoincide(usize),
    TooManyPairs,
    BadListLength,
    TooManySpans(usize),
    SpanOffMap(usize),
    SpanEndsCoincide(usize),
    WorkTooShort,
    AnswerTooShort(usize),
    MarksTooShort,
    SliceTooShort(usize),
    BadThresholds,
}

impl Refused {
    // Document 01's number.
    // Two methods, not From: a refusal has two numbers.
    pub fn number(self) -> u32
        ensures { result ≡ (refusal_of self).number }
    {
        match self {
            Refused::JobTooShort => JOB_TOO_SHORT,
            Refused::BadSides => BAD_SIDES,
            Refused::TooManyRecords => TOO_MANY_RECORDS,
            Refused::TooManyBoundaries(_) => TOO_MANY_BOUNDARIES,
            Refused::BadLayout => BAD_LAYOUT,
            Refused::BadCell(_) => BAD_CELL,
            Refused::AnchorOffMap(_) => ANCHOR_OFF_MAP,
            Refused::BadSums => BAD_SUMS,
            Refused::BadRamp(_) => BAD_RAMP,
            Refused::BadWidth(_) => BAD_WIDTH,
            Refused::EndOffMap(_) => END_OFF_MAP,
            Refused::EndsCoincide(_) => ENDS_COINCIDE,
            Refused::TooManyPairs => TOO_MANY_PAIRS,
            Refused::BadListLength => BAD_LIST_LENGTH,
            Refused::TooManySpans(_) => TOO_MANY_SPANS,
            Refused::SpanOffMap(_) => SPAN_OFF_MAP,
            Refused::SpanEndsCoincide(_) => SPAN_ENDS_COINCIDE,
            Refused::WorkTooShort => WORK_TOO_SHORT,
            Refused::AnswerTooShort(_) => ANSWER_TOO_SHORT,
            Refused::MarksTooShort => MARKS_TOO_SHORT,
            Refused::SliceTooShort(_) => SLICE_TOO_SHORT,
            Refused::BadThresholds => BAD_THRESHOLDS,
        }
    }

    // Its detail: an index, a count or a length, or 0.
    pub fn detail(self) -> u64
        ensures { result ≡ (refusal_of self).detail }
    {
        match self {
            Refused::TooManyBoundaries(n)
            | Refused::TooManySpans(n)
            | Refused::AnswerTooShort(n)
            | Refused::SliceTooShort(n) => n as u64,
            Refused::BadCell(i)
            | Refused::AnchorOffMap(i)
            | Refused::BadRamp(i)
            | Refused::BadWidth(i)
            | Refused::EndOffMap(i)
            | Refused::EndsCoincide(i)
            | Refused::SpanOffMap(i)
            | Refused::SpanEndsCoincide(i) => i as u64,
            _ => 0,
        }
    }
}
