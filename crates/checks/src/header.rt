// Refusals 2 to 5 of the twelve header words.
ghost use Rattle.std.specs.Prelude.{◌≡◌};
ghost use Rattle.format.specs.Header.{offsets_of};
ghost use Rattle.checks.specs.Checks.{first_refusal};
ghost use Rattle.checks.specs.Faults.{side_fault, size_fault, count_fault, boundary_count_fault};
ghost use Rattle.format.specs.Fits.{CountsAllowed};
ghost use Rattle.checks.specs.Single.{header_checks};
ghost use Rattle.checks.specs.Verdict.{meaning};

use crate::refused::Refused;
use format::{
    BASE_SIZE, BOUNDARY_SIZE, Counts, HEADER_SIZE, Header, MAX_BASES, MAX_BOUNDARIES,
    MAX_OBSERVATIONS, MAX_SIDE, MAX_SOURCES, OBSERVATION_SIZE, Offsets, SOURCE_SIZE,
};

fn side_fault(n: u32) -> bool
    ensures { result ≡ side_fault n }
{
    (n < 1) | (MAX_SIDE < n)
}

fn size_fault(c: Counts) -> bool
    ensures { result ≡ size_fault c }
{
    side_fault(c.width) | side_fault(c.height)
}

fn count_fault(c: Counts) -> bool
    ensures { result ≡ count_fault c }
{
    (MAX_BASES < c.bases) | ((MAX_OBSERVATIONS < c.observations) | (MAX_SOURCES < c.sources))
}

fn boundary_count_fault(c: Counts) -> bool
    ensures { result ≡ boundary_count_fault c }
{
    MAX_BOUNDARIES < c.boundaries
}

// Sizes of the records in u32, as offsets are counted.
const HEADER: u32 = HEADER_SIZE as u32;

const BASE: u32 = BASE_SIZE as u32;

const BOUNDARY: u32 = BOUNDARY_SIZE as u32;

const OBSERVATION: u32 = OBSERVATION_SIZE as u32;

const SOURCE: u32 = SOURCE_SIZE as u32;

// What the counts give: sections without gaps from the end of the header.
pub fn offsets_of(c: Counts) -> Offsets
    requires { CountsAllowed c }
    ensures { result ≡ offsets_of c }
{
    let bases = HEADER + c.width * c.height;
    let boundaries = bases + c.bases * BASE;
    let observations = boundaries + c.boundaries * BOUNDARY;
    let sources = observations + c.observations * OBSERVATION;
    let total = sources + c.sources * SOURCE;
    Offsets {
        cells: HEADER,
        bases,
        boundaries,
        observations,
        sources,
        total,
    }
}

pub fn check_header(h: Header) -> Result<(), Refused>
    ensures { meaning result ≡ first_refusal (header_checks h) }
{
    let c = h.counts;
    let o = h.offsets;
    if size_fault(c) {
        return Err(Refused::BadSides);
    }
    if count_fault(c) {
        return Err(Refused::TooManyRecords);
    }
    if boundary_count_fault(c) {
        return Err(Refused::TooManyBoundaries(c.boundaries as usize));
    }
    if o != offsets_of(c) {
        return Err(Refused::BadLayout);
    }
    Ok(())
}
