// Which member of a group is kept: 000's `representative`.
ghost use Rattle.std.specs.Prelude.{◌≡◌, cond, ◌<◌, ◌≤◌, get_or};
ghost use Rattle.order.specs.Lists.{keep};
ghost use Rattle.order.specs.Sorting.{sort};
ghost use Rattle.length.specs.Total.{total_le};
ghost use Rattle.serial_sums.specs.Numbers.{Number};
ghost use Rattle.serial_links.specs.HeldLimits.{limits_of};
ghost use Rattle.serial_plan.specs.Few.{few_of, few_list};
ghost use Rattle.serial_plan.specs.Shape.{least_in, sum_total_in, nearer_in, fine_in, retained_in};
ghost use Rattle.serial_plan.specs.Fitting.{RankFits, WidthFits, RanksFit, Widths};

use crate::chain::rank_distance;
use crate::few::Few;
use length::Length;
use length::floats::total_le;
use serial_links::geometry::width_of;
use serial_links::limits::{Limits, Member};
use serial_sums::{no_later, plus};

// The pattern that comes no later by total_order, of two widths.
fn lesser(a: u64, b: u64) -> u64
    requires { (a ≤ 0x40D0_0000_0000_0000) × (b ≤ 0x40D0_0000_0000_0000) }
    ensures { (result ≡ cond (total_le a b) a b) × (result ≤ 0x40D0_0000_0000_0000) }
{
    if total_le(a, b) { a } else { b }
}

// The bits of the least width.
fn least_bits(bits: &[u64; 256], ranks: Few) -> u64
    requires { (1 ≤ ranks.count) × Widths bits.now ranks }
    ensures { (result ≡ least_in bits.now (few_list ranks)) × (result ≤ 0x40D0_0000_0000_0000) }
{
    let last = ranks.count - 1;
    let mut least = bits[ranks.index(last)];
    for j in (0..last).rev() {
        least = lesser(bits[ranks.index(j)], least);
    }
    least
}

fn is_eligible(limits: Limits, bits: &[u64; 256], least: f64, i: usize) -> bool
    requires { WidthFits bits.now i }
    ensures { result ≡ fine_in (limits_of limits) bits.now least i }
{
    let member = Member {
        width: width_of(bits[i]),
    };
    member.eligible(least, limits)
}

// The ranks that are no wider than the least width and the tolerance.
fn eligible(limits: Limits, bits: &[u64; 256], least: f64, ranks: Few) -> Few
    requires { (ranks.count ≤ 256) × Widths bits.now ranks }
    ensures { result ≡ few_of (keep (fine_in (limits_of limits) bits.now least) (few_list ranks)) }
{
    let mut found = Few::none();
    for j in (0..ranks.count).rev() {
        found = found.with(
            ranks.get(j),
            is_eligible(limits, bits, least, ranks.index(j)),
        );
    }
    found
}

// The sum of the distances from rank i to all the ranks.
fn sum_from(own: &[u32; 1024], ranks: Few, i: usize) -> Length
    requires { (1 ≤ ranks.count) × RanksFit own.now ranks × RankFits own.now i }
    ensures { (result ≡ sum_total_in own.now (few_list ranks) i) × Number result.value }
{
    let mut total = rank_distance(own, i, ranks.index(0));
    for j in 1..ranks.count {
        total = plus(total, rank_distance(own, i, ranks.index(j)));
    }
    total
}

// The one of the lesser sum, the first if they are the same.
fn nearer(own: &[u32; 1024], ranks: Few, i: usize, j: usize) -> usize
    requires { (1 ≤ ranks.count) × RanksFit own.now ranks × RankFits own.now i × RankFits own.now j }
    ensures { (result ≡ cond (nearer_in own.now (few_list ranks) i j) i j) × RankFits own.now result }
{
    let x = sum_from(own, ranks, i);
    let y = sum_from(own, ranks, j);
    if no_later(x, y) { i } else { j }
}

// Of some ranks the one with the least sum of distances to all the ranks, the earliest of such.
fn nearest(own: &[u32; 1024], ranks: Few, among: Few) -> usize
    requires { (1 ≤ ranks.count) × (1 ≤ among.count) × RanksFit own.now ranks × RanksFit own.now among }
    ensures { (result ≡ get_or (sort (nearer_in own.now (few_list ranks)) (few_list among)) 0 0) × (result < 256) }
{
    let last = among.count - 1;
    let mut best = among.index(last);
    for j in (0..last).rev() {
        best = nearer(own, ranks, among.index(j), best);
    }
    best
}

// The retained rank of a group.
// By two arrays, not by Tables: it reads no other.
pub fn representative(limits: Limits, own: &[u32; 1024], bits: &[u64; 256], ranks: Few) -> usize
    requires { (1 ≤ ranks.count) × (ranks.count ≤ 16) × RanksFit own.now ranks × Widths bits.now ranks × RankFits own.now 0 }
    ensures { (result ≡ retained_in (limits_of limits) own.now bits.now (few_list ranks)) × (result < 256) }
{
    let least = width_of(least_bits(bits, ranks));
    let among = eligible(limits, bits, least, ranks);
    if among.count == 0 {
        return ranks.index(0);
    }
    nearest(own, ranks, among)
}
