// Mark: one byte per boundary, 1 if closing the whole of it parts the two regions of one of its region pairs.
ghost use Rattle.std.specs.Prelude.{◌≡◌, ◌≤◌, ◌<◌, length};
ghost use Rattle.format.specs.Decode.{decode};
ghost use Rattle.grid.specs.Directions.{directions_of};
ghost use Rattle.checks.specs.Verdict.{meaning, number_of, count_or_detail};
ghost use Rattle.analysis.specs.Plans.{Leads, OwnJob};
ghost use Rattle.results.specs.Calls.{mark_result};
ghost use Rattle.chokes.specs.Marking.{Analysed, first_copied};
ghost use Rattle.results.specs.Results.{own_ends, left_by};

use analysis::{ChokesResult, WORK_PER_CELL, check_pairs, check_room, find_marks, own_ends};
use checks::Refused;
use checks_calls::check_mark;
use format::{HEADER_SIZE, Header, read_header};
use grid::neighbors::EIGHT;

// Partitions a job by its boundaries' own ends and marks those that are chokes; gives the number of region pairs.
fn analyse_boundaries(
    directions: u32,
    job: &[u8],
    h: Header,
    work: &mut [u8],
    marks: &mut [u8; 256],
) -> usize
    requires { OwnJob job.now h work.old × Leads directions }
    ensures { Analysed (directions_of directions) (decode job.now) (own_ends (decode job.now)) work.old work.new
        marks.new result }
{
    let c = h.counts;
    let n = (c.width * c.height) as usize;
    let count = c.boundaries as usize;
    let mut ends = [0u32; 1024];
    own_ends(job, h, &mut ends);
    find_marks(
        &job[HEADER_SIZE..HEADER_SIZE + n],
        c.width,
        c.height,
        directions,
        &ends,
        count,
        work,
        marks,
    )
}

// Copies the first n bytes.
fn copy_first(from: &[u8; 256], n: usize, to: &mut [u8])
    requires { (n ≤ 256) × (n ≤ length to.old) }
    ensures { to.new ≡ first_copied from.now n to.old }
{
    to[..n].copy_from_slice(&from[..n]);
}

// Gives the number of boundaries.
fn mark(job: &[u8], work: &mut [u8], marks: &mut [u8]) -> Result<usize, Refused>
    ensures { left_by (number_of (meaning result)) (count_or_detail result) work.new marks.new ≡ mark_result job.now work.old
        marks.old }
{
    check_room(check_mark(job), job, WORK_PER_CELL, work.len())?;
    let h = read_header(job);
    let mut chokes = [0u8; 256];
    let pairs = analyse_boundaries(EIGHT, job, h, work, &mut chokes);
    check_pairs(pairs)?;
    let n = h.counts.boundaries as usize;
    if marks.len() < n {
        return Err(Refused::MarksTooShort);
    }
    copy_first(&chokes, n, marks);
    Ok(n)
}

pub fn chokes_mark(job: &[u8], work: &mut [u8], marks: &mut [u8]) -> ChokesResult
    ensures { left_by result.number result.detail work.new marks.new ≡ mark_result job.now work.old
        marks.old }
{
    let marked = mark(job, work, marks);
    ChokesResult::from(marked)
}
