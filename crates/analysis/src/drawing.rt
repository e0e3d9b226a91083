// The plan of a job's merges: its boundaries by rank, and the rank that each rank goes into.
ghost use Rattle.std.specs.Prelude.{◌≡◌, List, ℕ, ◌≤◌, ◌<◌, ◌/◌, length, get_or};
ghost use mathlib.Core.Logic.{◌⊎◌};
ghost use Rattle.std.proofs.Math.Option.{none};
ghost use Rattle.position.specs.declared.Span.{Span};
ghost use Rattle.format.specs.Sizes.{span_size};
ghost use Rattle.format.specs.Decode.{decode, decode_list};
ghost use Rattle.grid.specs.Directions.{directions_of};
ghost use Rattle.areas.specs.Spans.{SpansFit};
ghost use Rattle.areas_assessments.specs.Recording.{Arrays};
ghost use Rattle.serial_links.specs.Limits as rules;
ghost use Rattle.serial_links.specs.HeldLimits.{limits_of};
ghost use Rattle.serial_candidates.specs.Owners.{Stored};
ghost use Rattle.checks.specs.Checks.{first_refusal};
ghost use Rattle.checks_calls.specs.Refusals.{reduce_checks, by_list_checks};
ghost use Rattle.results.specs.Results.{work_size, max_pairs, own_ends};
ghost use Rattle.analysis.specs.Bridging.{few_pairs};
ghost use Rattle.analysis.specs.Plans.{RankTables, plan_of, Leads, RankedBy, Headed, OwnEnds, RankedJob, Plannable, EndsBy, SomeEnds, PartitionTables};
ghost use Rattle.analysis.specs.Plans.{SomeTold, TabledWithin, DrawnWithin, Drawn};

use crate::bridged::{FEW_PAIRS, MAX_PAIRS, analyse, is_small};
use crate::parting::find_areas;
use format::{BOUNDARY_SIZE, HEADER_SIZE, Header, SPAN_SIZE};
use places::ranks::sort_ranks;
use serial_links::limits::Limits;
use serial_plan::planning::plan_merges;
use serial_ranks::{fill_identity, fill_keys, fill_ramps, fill_spans, fill_widths};

// The places of a job's boundaries by rank.
pub fn order_boundaries(job: &[u8], h: Header, order: &mut [u32; 256])
    requires { Headed job.now h × (length order.old ≡ 256) }
    ensures { RankedBy (decode job.now) order.new }
{
    let c = h.counts;
    let o = h.offsets;
    let n = c.boundaries as usize;
    let at = o.boundaries as usize;
    let mut first = [0u64; 256];
    let mut second = [0u64; 256];
    fill_keys(job, at, n, &mut first, &mut second);
    sort_ranks(order, n, &first, &second);
}

// The ends of a job's boundaries in their own order, the earlier end first.
pub fn own_ends(job: &[u8], h: Header, ends: &mut [u32; 1024])
    requires { Headed job.now h × (length ends.old ≡ 1024) }
    ensures { OwnEnds job.now ends.new }
{
    let c = h.counts;
    let o = h.offsets;
    let n = c.boundaries as usize;
    let at = o.boundaries as usize;
    let mut order = [0u32; 256];
    fill_identity(&mut order);
    fill_spans(job, at, BOUNDARY_SIZE, &order, n, ends);
}

// Ends, widths and ramps of a job's boundaries by rank.
fn fill_tables(
    job: &[u8],
    h: Header,
    order: &[u32; 256],
    own: &mut [u32; 1024],
    bits: &mut [u64; 256],
    ramps: &mut [u8; 256],
)
    requires { RankedJob job.now h order.now × (length own.old ≡ 1024) × (length bits.old ≡ 256) × (length ramps.old ≡ 256) }
    ensures { RankTables job.now order.now own.new bits.new ramps.new }
{
    let c = h.counts;
    let o = h.offsets;
    let count = c.boundaries as usize;
    let at = o.boundaries as usize;
    fill_spans(job, at, BOUNDARY_SIZE, order, count, own);
    fill_widths(job, at, order, count, bits);
    fill_ramps(job, at, order, count, ramps);
}

// The plan where the map is partitioned.
fn plan_listing(
    limits: Limits,
    job: &[u8],
    h: Header,
    order: &[u32; 256],
    work: &mut [u8],
    removed: &[u32; 256],
    separated: &[u32; 256],
    owners: &[u32],
    lefts: &[u32],
    rights: &[u32],
    pairs: usize,
    marks: &[u8; 256],
    plan: &mut [u32; 256],
)
    requires { RankedJob job.now h order.now
        × SomeTold job.now work.old removed.now separated.now owners.now lefts.now rights.now pairs marks.now
        × Stored owners.now lefts.now rights.now pairs × (length plan.old ≡ 256) × (limits.most_spans ≤ 16) }
    ensures work { work.new ≡ work.old }
    ensures plan { (dirs : List ℕ) (ss : List Span)
        → PartitionTables dirs job.now work.old removed.now separated.now owners.now lefts.now
        rights.now pairs marks.now ss → (i : ℕ) → i < length (decode job.now).boundaries
        → get_or plan.new i 0 ≡ plan_of (limits_of limits) dirs (decode job.now) ss i }
    ensures whole { length plan.new ≡ 256 }
{
    let c = h.counts;
    let o = h.offsets;
    let n = (c.width * c.height) as usize;
    let count = c.boundaries as usize;
    let mut own = [0u32; 1024];
    let mut bits = [0u64; 256];
    let mut ramps = [0u8; 256];
    fill_tables(job, h, order, &mut own, &mut bits, &mut ramps);
    plan_merges(
        limits,
        job,
        o.bases as usize,
        c.bases as usize,
        &job[HEADER_SIZE..HEADER_SIZE + n],
        c.width,
        c.height,
        count,
        &own,
        &bits,
        &ramps,
        work,
        removed,
        separated,
        owners,
        lefts,
        rights,
        pairs,
        marks,
        plan,
    );
}

// Partitions a job by as many spans as it has boundaries, by rank, and marks bridges where the arrays have room for the region pairs; gives their number.
fn part_by_rank(
    directions: u32,
    job: &[u8],
    h: Header,
    ends: &[u32; 1024],
    work: &mut [u8],
    removed: &mut [u32; 256],
    separated: &mut [u32; 256],
    owners: &mut [u32],
    lefts: &mut [u32],
    rights: &mut [u32],
    marks: &mut [u8; 256],
) -> usize
    requires { Headed job.now h × (work_size (decode job.now) ≤ length work.old)
        × SpansFit h.counts.width h.counts.height ends.now h.counts.boundaries
        × Arrays (length lefts.old) removed.old separated.old owners.old lefts.old rights.old × Leads directions }
    ensures { (order : List ℕ) (ss : List Span) → RankedBy (decode job.now) order
        → EndsBy job.now order ends.now ss
        → TabledWithin (directions_of directions) (length lefts.old) job.now ss work.old work.new
        removed.new separated.new owners.new lefts.new rights.new marks.new result }
{
    let c = h.counts;
    let n = (c.width * c.height) as usize;
    let count = c.boundaries as usize;
    let p = analyse(
        &job[HEADER_SIZE..HEADER_SIZE + n],
        c.width,
        c.height,
        directions,
        ends,
        count,
        work,
        removed,
        separated,
        owners,
        lefts,
        rights,
        marks,
    );
    p.pairs
}

// Partitions a job with room for PAIRS region pairs, and plans its merges where they are no more; gives their number.
fn plan_within<const PAIRS: usize>(
    limits: Limits,
    directions: u32,
    job: &[u8],
    h: Header,
    ends: &[u32; 1024],
    order: &[u32; 256],
    work: &mut [u8],
    plan: &mut [u32; 256],
) -> usize
    requires room { (PAIRS ≡ few_pairs) ⊎ (PAIRS ≡ max_pairs) }
    requires given { Plannable job.now h order.now work.old × SpansFit h.counts.width h.counts.height ends.now h.counts.boundaries
        × SomeEnds job.now order.now ends.now × (length plan.old ≡ 256) × (limits.most_spans ≤ 16) × Leads directions }
    ensures drawn_within { (ss : List Span) → EndsBy job.now order.now ends.now ss
        → DrawnWithin (limits_of limits) (directions_of directions) PAIRS (decode job.now) ss work.old work.new
        plan.new result }
    ensures whole { length plan.new ≡ 256 }
{
    let mut removed = [0u32; 256];
    let mut separated = [0u32; 256];
    let mut owners = [0u32; PAIRS];
    let mut lefts = [0u32; PAIRS];
    let mut rights = [0u32; PAIRS];
    let mut marks = [0u8; 256];
    let pairs = part_by_rank(
        directions,
        job,
        h,
        ends,
        work,
        &mut removed,
        &mut separated,
        &mut owners,
        &mut lefts,
        &mut rights,
        &mut marks,
    );
    if PAIRS < pairs {
        return pairs;
    }
    plan_listing(
        limits, job, h, order, work, &removed, &separated, &owners, &lefts, &rights, pairs, &marks,
        plan,
    );
    pairs
}

// The same, with as much room as the region pairs take.
fn plan_matched(
    limits: Limits,
    directions: u32,
    job: &[u8],
    h: Header,
    ends: &[u32; 1024],
    order: &[u32; 256],
    work: &mut [u8],
    plan: &mut [u32; 256],
) -> usize
    requires { Plannable job.now h order.now work.old × SpansFit h.counts.width h.counts.height ends.now h.counts.boundaries
        × SomeEnds job.now order.now ends.now × (length plan.old ≡ 256) × (limits.most_spans ≤ 16) × Leads directions }
    ensures { (ss : List Span) → EndsBy job.now order.now ends.now ss
        → Drawn (limits_of limits) (directions_of directions) (decode job.now) ss work.old work.new plan.new
        result }
{
    let c = h.counts;
    if !is_small((c.width * c.height) as usize, c.boundaries as usize) {
        return plan_within::<MAX_PAIRS>(limits, directions, job, h, ends, order, work, plan);
    }
    let pairs = plan_within::<FEW_PAIRS>(limits, directions, job, h, ends, order, work, plan);
    if pairs <= FEW_PAIRS {
        return pairs;
    }
    plan_within::<MAX_PAIRS>(limits, directions, job, h, ends, order, work, plan)
}

// By the boundaries' own ends.
// Not one with plan_listed: spans of another slice at another stride, which other checks allow.
pub fn plan_own(
    limits: Limits,
    directions: u32,
    job: &[u8],
    h: Header,
    order: &[u32; 256],
    work: &mut [u8],
    plan: &mut [u32; 256],
) -> usize
    requires { Plannable job.now h order.now work.old × (first_refusal (reduce_checks job.now) ≡ none) × (length plan.old ≡ 256)
        × (limits.most_spans ≤ 16) × Leads directions }
    ensures { Drawn (limits_of limits) (directions_of directions) (decode job.now) (own_ends (decode job.now)) work.old
        work.new plan.new result }
{
    let c = h.counts;
    let o = h.offsets;
    let count = c.boundaries as usize;
    let at = o.boundaries as usize;
    let mut ends = [0u32; 1024];
    fill_spans(job, at, BOUNDARY_SIZE, order, count, &mut ends);
    plan_matched(limits, directions, job, h, &ends, order, work, plan)
}

// By the spans of a list, as many as boundaries.
fn plan_listed(
    limits: Limits,
    directions: u32,
    job: &[u8],
    h: Header,
    list: &[u8],
    order: &[u32; 256],
    work: &mut [u8],
    plan: &mut [u32; 256],
) -> usize
    requires { Plannable job.now h order.now work.old × (first_refusal (by_list_checks job.now list.now) ≡ none)
        × (length list.now / span_size ≡ h.counts.boundaries) × (length plan.old ≡ 256) × (limits.most_spans ≤ 16) × Leads directions }
    ensures { Drawn (limits_of limits) (directions_of directions) (decode job.now) (decode_list list.now) work.old
        work.new plan.new result }
{
    let c = h.counts;
    let count = c.boundaries as usize;
    let mut ends = [0u32; 1024];
    fill_spans(list, 0, SPAN_SIZE, order, count, &mut ends);
    plan_matched(limits, directions, job, h, &ends, order, work, plan)
}

// By the spans of a list, more or fewer than boundaries: each rank goes into itself.
fn plan_unmatched(
    directions: u32,
    job: &[u8],
    h: Header,
    list: &[u8],
    n: usize,
    work: &mut [u8],
    plan: &mut [u32; 256],
) -> usize
    requires { Headed job.now h × (work_size (decode job.now) ≤ length work.old) × (first_refusal (by_list_checks job.now list.now) ≡ none)
        × (n ≡ length list.now / span_size) × (n ≡ h.counts.boundaries → ⊥) × (length plan.old ≡ 256) × Leads directions }
    ensures { (l : rules.Limits)
        → Drawn l (directions_of directions) (decode job.now) (decode_list list.now) work.old work.new
        plan.new result }
{
    let c = h.counts;
    let cells = (c.width * c.height) as usize;
    fill_identity(plan);
    let mut ends = [0u32; 1024];
    fill_spans(list, 0, SPAN_SIZE, plan, n, &mut ends);
    let p = find_areas(
        &job[HEADER_SIZE..HEADER_SIZE + cells],
        c.width,
        c.height,
        directions,
        &ends,
        n,
        work,
    );
    p.pairs
}

// By the spans of a list.
pub fn plan_by_list(
    limits: Limits,
    directions: u32,
    job: &[u8],
    h: Header,
    list: &[u8],
    order: &[u32; 256],
    work: &mut [u8],
    plan: &mut [u32; 256],
) -> usize
    requires { Plannable job.now h order.now work.old × (first_refusal (by_list_checks job.now list.now) ≡ none) × (length plan.old ≡ 256)
        × (limits.most_spans ≤ 16) × Leads directions }
    ensures { Drawn (limits_of limits) (directions_of directions) (decode job.now) (decode_list list.now) work.old
        work.new plan.new result }
{
    let c = h.counts;
    let n = list.len() / SPAN_SIZE;
    if n == c.boundaries as usize {
        return plan_listed(limits, directions, job, h, list, order, work, plan);
    }
    plan_unmatched(directions, job, h, list, n, work, plan)
}
