// Which rank each rank goes into by the groups of the chosen links, 256 where no accepted group has it.
ghost use Rattle.std.specs.Prelude.{◌≡◌, ◌<◌, ◌≤◌, length};
ghost use Rattle.lists.specs.Rows.{at};
ghost use Rattle.serial_links.specs.HeldLimits.{limits_of};
ghost use Rattle.serial_plan.specs.Arrays.{FirstAre};
ghost use Rattle.serial_plan.specs.Into.{goes_to};
ghost use Rattle.serial_plan.specs.Tables.{SafeTables, into_by};

use crate::accept::Rules;
use crate::judge::judge;
use crate::tables::{Groups, Tables};
use serial_links::limits::Limits;

// The first rank of rank i's part, if it is earlier and goes where i goes; else i.
fn judged_before(g: &Groups, i: usize) -> usize
    requires { i < 256 }
    ensures { (result ≤ i) × (at g.now.joined.now result ≡ at g.now.joined.now i) × (at g.now.parts.now result ≡ at g.now.parts.now i) }
{
    let c = g.parts[i] as usize;
    if c < i {
        if g.joined[c] == g.joined[i] {
            if g.parts[c] == g.parts[i] {
                return c;
            }
        }
    }
    i
}

// The rank that rank i goes into by the group of its part; each part is judged at its first rank.
fn one_into<R: Rules>(
    limits: Limits,
    rules: &R,
    t: &Tables,
    g: &Groups,
    into: &[u32; 256],
    i: usize,
) -> u32
    requires { (limits.most_spans ≤ 16) × SafeTables t.now × (i < 256)
        × FirstAre (into_by (R.accepted rules.now (limits_of limits) t.now) (limits_of limits) t.now g.now) i into.now }
    ensures { result ≡ into_by (R.accepted rules.now (limits_of limits) t.now) (limits_of limits) t.now g.now i }
{
    if g.joined[i] != 1 {
        return 256;
    }
    let e = judged_before(g, i);
    if e < i {
        return into[e];
    }
    let c = g.parts[i];
    judge(limits, rules, t, g, c) as u32
}

// The same of each rank.
pub fn into_groups<R: Rules>(
    limits: Limits,
    rules: &R,
    t: &Tables,
    g: &Groups,
    into: &mut [u32; 256],
)
    requires { (limits.most_spans ≤ 16) × SafeTables t.now × (length into.old ≡ 256) }
    ensures { FirstAre (into_by (R.accepted rules.now (limits_of limits) t.now) (limits_of limits) t.now g.now) t.now.n into.new }
{
    for i in 0..t.n {
        into[i] = one_into(limits, rules, t, g, into, i);
    }
}

fn goes_to(s: u32, f: u32, i: u32) -> u32
    ensures { result ≡ goes_to s f i }
{
    if s != 256 {
        return s;
    }
    if f != 256 { f } else { i }
}

// Which rank each rank goes into by both.
pub fn combine(n: usize, serial: &[u32; 256], flat: &[u32; 256], plan: &mut [u32; 256])
    requires { (n ≤ 256) × (length plan.old ≡ 256) }
    ensures { FirstAre (λ i. goes_to (at serial.now i) (at flat.now i) i) n plan.new }
{
    for i in 0..n {
        plan[i] = goes_to(serial[i], flat[i], i as u32);
    }
}
