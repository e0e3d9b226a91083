// The connected parts of the ranks that the chosen links join, known by their first ranks.
ghost use Rattle.std.specs.Prelude.{◌≡◌, cond, ◌||◌, ◌&&◌, ◌<◌, min, max, eqb, length};
ghost use Rattle.lists.specs.Rows.{at};
ghost use Rattle.graph.specs.Parts.{join};
ghost use Rattle.serial_plan.specs.Arrays.{part_from, joined_from, FirstAre};
ghost use Rattle.serial_plan.specs.Tables.{LinkedTables};

use crate::tables::Tables;

fn moved(c: u32, high: u32, low: u32) -> u32
    ensures { result ≡ cond (eqb c high) low c }
{
    if c == high { low } else { c }
}

// Each rank is a part of its own.
pub fn start(parts: &mut [u32; 256])
    requires { length parts.old ≡ 256 }
    ensures { FirstAre (λ i. i) 256 parts.new }
{
    for i in 0..256 {
        parts[i] = i as u32;
    }
}

// Makes the parts a and b one.
fn join_parts(parts: &mut [u32; 256], a: u32, b: u32)
    requires { length parts.old ≡ 256 }
    ensures { FirstAre (λ i. join a b (at parts.old i)) 256 parts.new }
{
    let low = a.min(b);
    let high = a.max(b);
    for i in 0..256 {
        parts[i] = moved(parts[i], high, low);
    }
}

// Joins the parts of two ranks, if the link is chosen.
// `on` is a byte, not a bool, here and in mark_link: marks are bytes (Groups).
fn join_link(parts: &mut [u32; 256], on: u8, first: u32, second: u32)
    requires { (length parts.old ≡ 256) × (first < 256) × (second < 256) }
    ensures { FirstAre (λ i. cond (eqb on 1) (join (at parts.old first) (at parts.old second) (at parts.old i))
        (at parts.old i)) 256 parts.new }
{
    if on != 1 {
        return;
    }
    let a = parts[first as usize];
    let b = parts[second as usize];
    join_parts(parts, a, b);
}

// The part of each rank, from the last chosen link to the first.
pub fn connected_link_groups(chosen: &[u8; 256], t: &Tables, parts: &mut [u32; 256])
    requires { (length parts.old ≡ 256) × LinkedTables t.now }
    ensures { FirstAre (part_from chosen.now t.now.firsts.now t.now.seconds.now 0 t.now.links) 256 parts.new }
{
    start(parts);
    for k in (0..t.links).rev() {
        join_link(parts, chosen[k], t.firsts[k], t.seconds[k]);
    }
}

// Marks the two ranks of the link with 1, if it is chosen.
fn mark_link(joined: &mut [u8; 256], on: u8, first: u32, second: u32)
    requires { (length joined.old ≡ 256) × (first < 256) × (second < 256) }
    ensures { FirstAre (λ i. cond (eqb on 1 && (eqb i first || eqb i second)) 1 (at joined.old i)) 256 joined.new }
{
    if on != 1 {
        return;
    }
    joined[first as usize] = 1;
    joined[second as usize] = 1;
}

// 1 for each rank that one of the chosen links joins, 0 for every other.
pub fn mark_joined(chosen: &[u8; 256], t: &Tables, joined: &mut [u8; 256])
    requires { LinkedTables t.now }
    ensures { FirstAre (λ i. cond (joined_from chosen.now t.now.firsts.now t.now.seconds.now 0 t.now.links i) 1 0) 256
        joined.new }
{
    *joined = [0u8; 256];
    for k in (0..t.links).rev() {
        mark_link(joined, chosen[k], t.firsts[k], t.seconds[k]);
    }
}
