// What is known of one region, by the labels of the cells.
ghost use Rattle.std.specs.Prelude.{◌≡◌, ◌*◌, ◌≤◌, length};
ghost use Rattle.wire.specs.Bytes.{words, splice};
ghost use Rattle.format.specs.Decode.{decode};
ghost use Rattle.analysis.specs.Plans.{Headed};
ghost use Rattle.probe.specs.Regions.{LabelsReady, region_words, cell_labels, Shown};

use analysis::{ChokesResult, first_answer};
use areas_components::count_cells;
use checks::refusals::ANSWER_TOO_SHORT;
use checks_calls::check_reduce;
use context::anchored::{anchor_labels, is_anchored};
use context::stats::region_stats;
use format::{HEADER_SIZE, Header, read_header};
use wire::write_u32;

// The refusal of a job, or of labels under four bytes a cell.
pub fn unready(job: &[u8], labels: &[u8]) -> ChokesResult
    ensures { LabelsReady job.now labels.now result.number result.detail }
{
    first_answer(check_reduce(job), job, 4, labels.len())
}

// Little-endian words at the start of out.
pub fn write_words(ws: &[u32], out: &mut [u8])
    requires { (length ws.now ≤ 64) × (4 * length ws.now ≤ length out.old) }
    ensures { out.new ≡ splice out.old 0 (words ws.now) }
{
    for (i, w) in ws.iter().enumerate() {
        write_u32(out, 4 * i, *w);
    }
}

// Twelve words: the cells that have the label, the region's statistics, and whether an anchor lies in it.
fn tell_region(job: &[u8], h: Header, labels: &[u8], region: u32, out: &mut [u8])
    requires { Headed job.now h × (4 * length (decode job.now).cells ≤ length labels.now) × (48 ≤ length out.old) }
    ensures { out.new ≡ splice out.old 0
        (words (region_words (decode job.now) (cell_labels job.now labels.now) region)) }
{
    let c = h.counts;
    let o = h.offsets;
    let width = c.width;
    let n = (width * c.height) as usize;
    let counted = count_cells(labels, n, region);
    let s = region_stats(&job[HEADER_SIZE..HEADER_SIZE + n], width, labels, region);
    let mut anchors = [0u32; 256];
    let found = anchor_labels(
        job,
        o.bases as usize,
        c.bases as usize,
        width,
        labels,
        n,
        &mut anchors,
    );
    let anchored = is_anchored(&anchors[..found], region);
    let ws = [
        counted,
        s.cells,
        s.min_x,
        s.min_y,
        s.max_x,
        s.max_y,
        u32::from(s.has_ramp),
        s.level_0,
        s.level_1,
        s.level_2,
        s.level_3,
        u32::from(anchored),
    ];
    write_words(&ws, out);
}

// What is known of the region that has the label; labels are as the partition leaves them.
pub fn probe_region(job: &[u8], labels: &[u8], region: u32, out: &mut [u8]) -> ChokesResult
    ensures { Shown job.now labels.now
        (words (region_words (decode job.now) (cell_labels job.now labels.now) region)) 48
        out.old out.new result.number result.detail }
{
    let r = unready(job, labels);
    if 0 < r.number {
        return r;
    }
    if out.len() < 48 {
        return ChokesResult {
            number: ANSWER_TOO_SHORT,
            detail: 48,
        };
    }
    tell_region(job, read_header(job), labels, region, out);
    ChokesResult {
        number: 0,
        detail: 48,
    }
}
