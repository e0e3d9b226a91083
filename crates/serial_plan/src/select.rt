// Which links may make groups.
ghost use Rattle.std.specs.Prelude.{◌≡◌, cond, ◌&&◌, ℕ, ◌<◌, ◌≤◌, eqb, length};
ghost use Rattle.lists.specs.Rows.{at};
ghost use Rattle.serial_links.specs.HeldLimits.{limits_of};
ghost use Rattle.serial_plan.specs.Arrays.{is_on, FirstAre};
ghost use Rattle.serial_plan.specs.Shape.{both_on, flat_link_in};
ghost use Rattle.serial_plan.specs.Fitting.{RankFits, LinkFits};
ghost use Rattle.serial_plan.specs.Tables.{LinkedTables};

use crate::alike::alike;
use crate::tables::Tables;
use serial_links::limits::Limits;

// Both ranks are marked.
fn both_on(marks: &[u8; 256], first: usize, second: usize) -> bool
    requires { (first < 256) × (second < 256) }
    ensures { result ≡ is_on marks.now first && is_on marks.now second }
{
    (marks[first] == 1) & (marks[second] == 1)
}

// Marks the links of which both ranks are bridges.
// Not one function over a closure with select_flat: all that they share is the loop's line.
pub fn select_serial(marks: &[u8; 256], t: &Tables, chosen: &mut [u8; 256])
    requires { (length chosen.old ≡ 256) × LinkedTables t.now }
    ensures { FirstAre (λ k. cond (both_on marks.now (at t.now.firsts.now k) (at t.now.seconds.now k)) 1 0) t.now.links
        chosen.new }
{
    for k in 0..t.links {
        chosen[k] = u8::from(both_on(marks, t.firsts[k] as usize, t.seconds[k] as usize));
    }
}

// No group has the rank.
fn is_free(into: &[u32; 256], i: usize) -> bool
    requires { i < 256 }
    ensures { result ≡ eqb (at into.now i) 256 }
{
    into[i] == 256
}

// The link is marked, no group has its ranks, and the first is alike to the second.
fn is_flat_link(
    limits: Limits,
    own: &[u32; 1024],
    flat: u8,
    into: &[u32; 256],
    first: usize,
    second: usize,
) -> bool
    requires { RankFits own.now first × RankFits own.now second }
    ensures { result ≡ flat_link_in (limits_of limits) own.now into.now flat first second }
{
    let free = is_free(into, first) & is_free(into, second);
    let near = alike(limits, own, first, second);
    (flat == 1) & (free & near)
}

// Marks the links that flat groups are made of.
pub fn select_flat(
    limits: Limits,
    t: &Tables,
    flat: &[u8; 256],
    into: &[u32; 256],
    chosen: &mut [u8; 256],
)
    requires { (length chosen.old ≡ 256) × (t.now.links ≤ 256) × ((k : ℕ) → k < t.now.links → LinkFits t.now.own.now t.now.firsts.now t.now.seconds.now k) }
    ensures { FirstAre (λ k. cond
        (flat_link_in (limits_of limits) t.now.own.now into.now (at flat.now k) (at t.now.firsts.now k)
        (at t.now.seconds.now k)) 1 0) t.now.links chosen.new }
{
    for k in 0..t.links {
        chosen[k] = u8::from(is_flat_link(
            limits,
            t.own,
            flat[k],
            into,
            t.firsts[k] as usize,
            t.seconds[k] as usize,
        ));
    }
}
