// All that goes into the ranks that a plan keeps.
ghost use Rattle.std.specs.Prelude.{◌≡◌, ℕ, length};
ghost use Rattle.format.specs.Decode.{source_records};
ghost use Rattle.format.specs.declared.records.ObservationRecord.{ObservationRecord};
ghost use Rattle.answer_sources.specs.Placed.{CopiesPlaced, boundary_rows};
ghost use Rattle.answer_sources.specs.Gathered.{Gathered, kept_by};
ghost use Rattle.answer_gathering.specs.Room.{GatherRoom};

use crate::observations::Observations;
use crate::own::gather_owns;
use crate::seen::gather_seens;

// Of each kept rank its place, the places of its own sources, each kind once, and the places of its observations, sorted: how many are kept.
// Boundaries stand as observations from place `base` on.
pub fn gather_kept(
    job: &[u8],
    at: usize,
    n: usize,
    from: usize,
    base: usize,
    order: &[u32; 256],
    plan: &[u32; 256],
    stands: &[u32; 256],
    firsts: &[u32],
    o: Observations,
    heads: usize,
    links: &mut [u16],
    kept: &mut [u32],
    owns: &mut [u32],
    seens: &mut [u32],
    owned: &mut [u16],
    seen: &mut [u32],
    spare_places: &mut [u32],
) -> usize
    requires { GatherRoom job.now at n from base heads order.now plan.now stands.now firsts.now o.starts.now links.old kept.old owns.old
        seens.old owned.old seen.old spare_places.old }
    ensures { (os : ℕ → ObservationRecord) (count : ℕ)
        → CopiesPlaced (boundary_rows job.now at) os (source_records job.now from count) base n stands.now
        firsts.now o.entry.first.now o.entry.second.now o.entry.third.now o.entry.starts.now o.entry.counts.now o.entry.keys.now
        → Gathered job.now at from n
        (kept_by (boundary_rows job.now at) os (source_records job.now from count) order.now plan.now n)
        kept.new owns.new seens.new owned.new seen.new o.entry.first.now o.entry.second.now
        o.entry.third.now o.entry.starts.now o.entry.counts.now o.entry.keys.now
        × (result ≡ length
        (kept_by (boundary_rows job.now at) os (source_records job.now from count) order.now plan.now n)) }
{
    gather_seens(
        job,
        at,
        order,
        plan,
        n,
        base,
        stands,
        firsts,
        o,
        seens,
        seen,
        spare_places,
    );
    gather_owns(
        job, at, from, order, plan, n, base, o.starts, heads, links, kept, owns, owned,
    )
}
