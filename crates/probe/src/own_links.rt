// What a link measures in a region, by the labels of the cells.
ghost use Rattle.std.specs.Prelude.{◌≡◌, ◌*◌, ◌<◌, ◌≤◌, length};
ghost use Rattle.wire.specs.Bytes.{splice};
ghost use Rattle.format.specs.Decode.{decode};
ghost use Rattle.serial_links.specs.Limits.{limits000};
ghost use Rattle.serial_links.specs.HeldLimits.{limits_of};
ghost use Rattle.serial_links.specs.Link.{link_of};
ghost use Rattle.serial_links.specs.HeldLink.{no_cell, measured_meaning};
ghost use Rattle.analysis.specs.Plans.{Headed};
ghost use Rattle.probe.specs.Links.{float_bits, kind_of, transverse, longitudinal, four_bytes, side_of, link_bytes, LinkAnswer};

use crate::own_regions::unready;
use analysis::ChokesResult;
use checks::refusals::ANSWER_TOO_SHORT;
use format::{BOUNDARY_SIZE, Header, read_boundary, read_header};
use serial_links::limits::Limits;
use serial_links::link::{Link, Measured, link_of};
use serial_measures::few::measure_one;
use wire::{write_u32, write_u64};

// No boundary has that place.
const NO_BOUNDARY: u32 = 24;

pub fn bits_of(x: f64) -> u64
    ensures { result ≡ float_bits x }
{
    if x.is_nan() {
        return 0x7FF8_0000_0000_0000;
    }
    x.to_bits()
}

// The case as a number, here and in write_link: C gets it in four bytes.
fn kind_of(m: Measured) -> u32
    ensures { result ≡ kind_of (measured_meaning m) }
{
    match m {
        Measured::Empty => 0,
        Measured::Within(_, _) => 1,
        Measured::Beyond(_, _) => 2,
    }
}

// The transverse envelope and the longitudinal one.
fn envelopes(m: Measured) -> (f64, f64)
    ensures across { result.0 ≡ transverse (measured_meaning m) }
    ensures along { result.1 ≡ longitudinal (measured_meaning m) }
{
    match m {
        Measured::Empty => (0.0, 0.0),
        Measured::Within(t, l) | Measured::Beyond(t, l) => (t, l),
    }
}

// The link of the boundaries at two places, of which no cell was seen yet.
fn link_between(job: &[u8], h: Header, first: usize, second: usize) -> Link
    requires { Headed job.now h × (first < h.counts.boundaries) × (second < h.counts.boundaries) }
    ensures { result ≡ no_cell (link_of (side_of job.now first) (side_of job.now second)) }
{
    let o = h.offsets;
    let at = o.boundaries as usize;
    let a = read_boundary(job, at + first * BOUNDARY_SIZE);
    let b = read_boundary(job, at + second * BOUNDARY_SIZE);
    let a_ends = a.ends;
    let b_ends = b.ends;
    link_of(a_ends.canonical(), a.bits, b_ends.canonical(), b.bits)
}

fn write_link(kind: u32, across: u64, along: u64, inside: u32, out: &mut [u8])
    requires { 24 ≤ length out.old }
    ensures { out.new ≡ splice out.old 0 (four_bytes kind across along inside) }
{
    write_u32(out, 0, kind);
    write_u64(out, 4, across);
    write_u64(out, 12, along);
    write_u32(out, 20, inside);
}

fn tell_link(
    limits: Limits,
    job: &[u8],
    h: Header,
    labels: &[u8],
    region: u32,
    first: usize,
    second: usize,
    out: &mut [u8],
)
    requires { Headed job.now h × (first < h.counts.boundaries) × (second < h.counts.boundaries)
        × (4 * length (decode job.now).cells ≤ length labels.now) × (24 ≤ length out.old) }
    ensures { out.new ≡ splice out.old 0
        (link_bytes (limits_of limits) job.now labels.now region first second) }
{
    let c = h.counts;
    let width = c.width;
    let n = (width * c.height) as usize;
    let start = link_between(job, h, first, second);
    let link = measure_one(start, n, width, labels, region, limits);
    let m = link.measured(limits);
    let kind = kind_of(m);
    let (transverse, longitudinal) = envelopes(m);
    let across = bits_of(transverse);
    let along = bits_of(longitudinal);
    write_link(kind, across, along, u32::from(link.inside), out);
}

// What the link of the boundaries at two places measures in the region that has the label: four bytes for 0 empty, 1 within or 2 beyond,
// eight for the bits of the transverse envelope and eight for those of the longitudinal one, four for whether it stays inside the flat envelope.
pub fn probe_link(
    job: &[u8],
    labels: &[u8],
    region: u32,
    first: u32,
    second: u32,
    out: &mut [u8],
) -> ChokesResult
    ensures { LinkAnswer job.now labels.now (link_bytes limits000 job.now labels.now region first second)
        first second out.old out.new result.number result.detail }
{
    let r = unready(job, labels);
    if 0 < r.number {
        return r;
    }
    let h = read_header(job);
    let c = h.counts;
    let n = c.boundaries;
    if n <= first {
        return ChokesResult {
            number: NO_BOUNDARY,
            detail: 0,
        };
    }
    if n <= second {
        return ChokesResult {
            number: NO_BOUNDARY,
            detail: 0,
        };
    }
    if out.len() < 24 {
        return ChokesResult {
            number: ANSWER_TOO_SHORT,
            detail: 24,
        };
    }
    tell_link(
        Limits::of_000(),
        job,
        h,
        labels,
        region,
        first as usize,
        second as usize,
        out,
    );
    ChokesResult {
        number: 0,
        detail: 24,
    }
}
