// The records of an answer in the order of the listing.
ghost use Rattle.std.specs.Prelude.{◌+◌, ◌*◌, ◌≤◌, ◌<◌, length, take};
ghost use Rattle.format.specs.Sizes.{answer_boundary_size, source_size};
ghost use Rattle.format.specs.Records.{boundary_at, observation_at};
ghost use Rattle.format.specs.Decode.{source_records, boundary_records, observations_with, boundary_with, boundaries_with, source_count};
ghost use Rattle.answer_text.specs.Lines.{source_lines, observation_text, observation_texts, boundary_text, boundary_texts};
ghost use Rattle.answer_text.specs.Answer.{TextRoom, Writes, observations_at, sources_at, observation_here, SectionsInside, Moved};

use crate::lines::{write_boundary_line, write_observation_line, write_source};
use format::{
    ANSWER_BOUNDARY_SIZE, OBSERVATION_SIZE, SOURCE_SIZE, read_boundary, read_observation,
    read_source,
};

// Where the text ends, and where the next observation and the next source stand, with how many are left of each.
#[derive(Clone, Copy)]
pub struct Cursor {
    pub at: usize,
    pub observation: usize,
    pub observations: usize,
    pub source: usize,
    pub sources: usize,
}

// The s lines of n sources from a place of the answer on.
fn write_sources(answer: &[u8], from: usize, n: usize, out: &mut [u8], at: usize) -> usize
    requires { (from + n * source_size ≤ length answer.now) × TextRoom (source_lines (source_records answer.now from n)) out.old at }
    ensures { Writes (source_lines (source_records answer.now from n)) out.old at out.new result }
{
    let mut end = at;
    for i in 0..n {
        let s = read_source(answer, from + i * SOURCE_SIZE);
        end = write_source(s, out, end);
    }
    end
}

// The next observation with its sources.
fn write_observation(answer: &[u8], c: Cursor, out: &mut [u8]) -> Cursor
    requires { SectionsInside answer.now c × (0 < c.observations) × TextRoom (observation_text (observation_here answer.now c)) out.old c.at }
    ensures text { Writes (observation_text (observation_here answer.now c)) out.old c.at out.new result.at }
    ensures moved { Moved answer.now c result 1 (observation_at answer.now c.observation).sources }
{
    let place = c.observation;
    let source = c.source;
    let left = c.sources;
    let o = read_observation(answer, place);
    let n = (o.sources as usize).min(left);
    let end = write_observation_line(o, n, out, c.at);
    let last = write_sources(answer, source, n, out, end);
    Cursor {
        at: last,
        observation: place + OBSERVATION_SIZE,
        observations: c.observations - 1,
        source: source + n * SOURCE_SIZE,
        sources: left - n,
    }
}

// The next n observations, each with its sources.
fn write_observations(answer: &[u8], n: usize, c: Cursor, out: &mut [u8]) -> Cursor
    requires { SectionsInside answer.now c × (n ≤ c.observations)
        × TextRoom (observation_texts (observations_with (take n (observations_at answer.now c)) (sources_at answer.now c))) out.old c.at }
    ensures text { Writes (observation_texts (observations_with (take n (observations_at answer.now c)) (sources_at answer.now c)))
        out.old c.at out.new result.at }
    ensures moved { Moved answer.now c result n (source_count (take n (observations_at answer.now c))) }
{
    let mut d = c;
    for i in 0..n {
        d = write_observation(answer, d, out);
    }
    d
}

// The boundary at a place of the answer, with its own sources and its observations.
fn write_boundary(answer: &[u8], place: usize, c: Cursor, out: &mut [u8]) -> Cursor
    requires { SectionsInside answer.now c × (place + answer_boundary_size ≤ length answer.now)
        × TextRoom (boundary_text (boundary_with (boundary_at answer.now place)
        (take (boundary_at answer.now place).observations (observations_at answer.now c)) (sources_at answer.now c))) out.old c.at }
    ensures text { Writes
        (boundary_text (boundary_with (boundary_at answer.now place)
        (take (boundary_at answer.now place).observations (observations_at answer.now c)) (sources_at answer.now c)))
        out.old c.at out.new result.at }
    ensures moved { Moved answer.now c result (boundary_at answer.now place).observations
        ((boundary_at answer.now place).sources + source_count
        (take (boundary_at answer.now place).observations (observations_at answer.now c))) }
{
    let source = c.source;
    let left = c.sources;
    let b = read_boundary(answer, place);
    let n = (b.sources as usize).min(left);
    let m = (b.observations as usize).min(c.observations);
    let end = write_boundary_line(b, n, m, out, c.at);
    let last = write_sources(answer, source, n, out, end);
    let d = Cursor {
        at: last,
        observation: c.observation,
        observations: c.observations,
        source: source + n * SOURCE_SIZE,
        sources: left - n,
    };
    write_observations(answer, m, d, out)
}

// The n boundaries from a place of the answer on.
pub fn write_boundaries(answer: &[u8], place: usize, n: usize, c: Cursor, out: &mut [u8]) -> usize
    requires { SectionsInside answer.now c × (place + n * answer_boundary_size ≤ length answer.now)
        × TextRoom (boundary_texts (boundaries_with (boundary_records answer.now place n) (observations_at answer.now c) (sources_at answer.now c))) out.old
        c.at }
    ensures { Writes (boundary_texts
        (boundaries_with (boundary_records answer.now place n) (observations_at answer.now c) (sources_at answer.now c)))
        out.old c.at out.new result }
{
    let mut d = c;
    for i in 0..n {
        d = write_boundary(answer, place + i * ANSWER_BOUNDARY_SIZE, d, out);
    }
    d.at
}
