// Area cards: ten words for each area of a job.
ghost use Rattle.std.specs.Prelude.{◌≡◌};
ghost use Rattle.format.specs.Decode.{decode};
ghost use Rattle.checks.specs.Numbers.{slice_too_short};
ghost use Rattle.checks.specs.Verdict.{meaning, number_of, count_or_detail};
ghost use Rattle.grid.specs.Directions.{directions_of};
ghost use Rattle.analysis.specs.Plans.{Leads, OwnJob};
ghost use Rattle.results.specs.Calls.{cards_result};
ghost use Rattle.results.specs.Results.{left_by};
ghost use Rattle.results.specs.Returns.{Finished};
ghost use Rattle.chokes.specs.Carding.{AreasFound, CellsLabelled, cards_in};

use analysis::{ChokesResult, WORK_PER_CELL, check_pairs, check_room, find_areas, own_ends};
use areas_partition::Partition;
use checks::Refused;
use checks_calls::check_reduce;
use context_cards::{CARD_SIZE, write_cards};
use format::{HEADER_SIZE, Header, read_header};
use grid::neighbors::EIGHT;

// Partitions a job by its boundaries' own ends; gives the numbers of areas and of region pairs.
fn part_areas(directions: u32, job: &[u8], h: Header, work: &mut [u8]) -> Partition
    requires { OwnJob job.now h work.old × Leads directions }
    ensures { AreasFound (directions_of directions) (decode job.now) work.old work.new result.areas result.pairs }
{
    let c = h.counts;
    let n = (c.width * c.height) as usize;
    let count = c.boundaries as usize;
    let mut ends = [0u32; 1024];
    own_ends(job, h, &mut ends);
    find_areas(
        &job[HEADER_SIZE..HEADER_SIZE + n],
        c.width,
        c.height,
        directions,
        &ends,
        count,
        work,
    )
}

// Writes the cards of the labels in work where the slice has room for them; gives their bytes.
fn finish_cards(
    job: &[u8],
    h: Header,
    areas: u32,
    work: &[u8],
    cards: &mut [u8],
) -> Result<usize, Refused>
    requires { CellsLabelled job.now h areas work.now }
    ensures { Finished slice_too_short (cards_in job.now work.now areas) cards.old cards.new
        (number_of (meaning result)) (count_or_detail result) }
{
    let c = h.counts;
    let n = (c.width * c.height) as usize;
    let count = areas as usize;
    let needed = CARD_SIZE * count;
    if cards.len() < needed {
        return Err(Refused::SliceTooShort(needed));
    }
    write_cards(
        &job[HEADER_SIZE..HEADER_SIZE + n],
        c.width,
        work,
        count,
        cards,
    );
    Ok(needed)
}

// Gives the bytes of the cards.
fn area_cards(job: &[u8], work: &mut [u8], cards: &mut [u8]) -> Result<usize, Refused>
    ensures { left_by (number_of (meaning result)) (count_or_detail result) work.new cards.new ≡ cards_result job.now work.old
        cards.old }
{
    check_room(check_reduce(job), job, WORK_PER_CELL, work.len())?;
    let h = read_header(job);
    let found = part_areas(EIGHT, job, h, work);
    check_pairs(found.pairs)?;
    finish_cards(job, h, found.areas, work, cards)
}

pub fn chokes_area_cards(job: &[u8], work: &mut [u8], cards: &mut [u8]) -> ChokesResult
    ensures { left_by result.number result.detail work.new cards.new ≡ cards_result job.now work.old
        cards.old }
{
    let told = area_cards(job, work, cards);
    ChokesResult::from(told)
}
