// The merge plan: which rank each rank goes into, by the serial groups and the flat groups of what they leave.
ghost use Rattle.std.specs.Prelude.{◌≡◌, ◌≤◌, length};
ghost use Rattle.serial_links.specs.HeldLimits.{limits_of};
ghost use Rattle.serial_plan.specs.Planning.{LinkComponents};
ghost use Rattle.serial_plan.specs.Tables.{FlatPlanBy, LinkedTables, PlanBy, RankedTables, SafeTables, SerialPlanBy};

use crate::accept::{Flat, Serial};
use crate::into::{combine, into_groups};
use crate::parts::{connected_link_groups, mark_joined, start};
use crate::select::{select_flat, select_serial};
use crate::tables::{Groups, Tables};
use serial_links::limits::Limits;

// The parts of the chosen links, and the ranks that they join.
fn join_chosen(chosen: &[u8; 256], t: &Tables, parts: &mut [u32; 256], joined: &mut [u8; 256])
    requires { LinkedTables t.now × (length parts.old ≡ 256) × (length joined.old ≡ 256) }
    ensures { LinkComponents chosen.now t.now.firsts.now t.now.seconds.now t.now.links parts.new joined.new }
{
    connected_link_groups(chosen, t, parts);
    mark_joined(chosen, t, joined);
}

// The rank that each rank goes into by the serial groups.
// Not one with flat_plan over a closure: each chooses links by a function of its own, and calls the rest.
fn serial_plan(
    limits: Limits,
    t: &Tables,
    marks: &[u8; 256],
    passing: &[u8; 256],
    into: &mut [u32; 256],
)
    requires { (limits.most_spans ≤ 16) × SafeTables t.now × (length into.old ≡ 256) }
    ensures { SerialPlanBy (limits_of limits) t.now marks.now passing.now into.new }
{
    let mut chosen = [0u8; 256];
    let mut parts = [0u32; 256];
    let mut joined = [0u8; 256];
    select_serial(marks, t, &mut chosen);
    join_chosen(&chosen, t, &mut parts, &mut joined);
    let g = Groups {
        chosen: &chosen,
        joined: &joined,
        parts: &parts,
    };
    into_groups(limits, &Serial { passing }, t, &g, into);
}

// The same by the flat groups of the ranks that no serial group has.
fn flat_plan(
    limits: Limits,
    t: &Tables,
    flat: &[u8; 256],
    serial: &[u32; 256],
    into: &mut [u32; 256],
)
    requires { (limits.most_spans ≤ 16) × SafeTables t.now × (length into.old ≡ 256) }
    ensures { FlatPlanBy (limits_of limits) t.now flat.now serial.now into.new }
{
    let mut chosen = [0u8; 256];
    let mut parts = [0u32; 256];
    let mut joined = [0u8; 256];
    select_flat(limits, t, flat, serial, &mut chosen);
    join_chosen(&chosen, t, &mut parts, &mut joined);
    let g = Groups {
        chosen: &chosen,
        joined: &joined,
        parts: &parts,
    };
    into_groups(limits, &Flat, t, &g, into);
}

// The rank that each rank goes into, where there are links.
fn linked_plan(
    limits: Limits,
    t: &Tables,
    marks: &[u8; 256],
    passing: &[u8; 256],
    flat: &[u8; 256],
    into: &mut [u32; 256],
)
    requires { (limits.most_spans ≤ 16) × SafeTables t.now × (length into.old ≡ 256) }
    ensures { PlanBy (limits_of limits) t.now marks.now passing.now flat.now into.new }
{
    let mut serial = [0u32; 256];
    let mut other = [0u32; 256];
    serial_plan(limits, t, marks, passing, &mut serial);
    flat_plan(limits, t, flat, &serial, &mut other);
    combine(t.n, &serial, &other, into);
}

// The rank that each of n ranks goes into: serial groups, then flat groups of what they leave.
pub fn merge_plan(
    limits: Limits,
    t: &Tables,
    marks: &[u8; 256],
    passing: &[u8; 256],
    flat: &[u8; 256],
    into: &mut [u32; 256],
)
    requires { (limits.most_spans ≤ 16) × RankedTables t.now × (length into.old ≡ 256) }
    ensures { PlanBy (limits_of limits) t.now marks.now passing.now flat.now into.new }
{
    if t.n == 0 {
        start(into);
        return;
    }
    if t.links == 0 {
        start(into);
        return;
    }
    linked_plan(limits, t, marks, passing, flat, into);
}
