// Simple paths between two different regions: 000's `group_is_simple_path`.
ghost use Rattle.std.specs.Prelude.{◌≡◌, cond, ◌||◌, ◌<◌, ◌≤◌, eqb};
ghost use Rattle.lists.specs.Rows.{at};
ghost use Rattle.order.specs.Lists.{keep};
ghost use Rattle.order.specs.Tests.{every};
ghost use Rattle.serial_links.specs.HeldLimits.{limits_of};
ghost use Rattle.serial_plan.specs.Few.{few_of, few_list, near, near_link};
ghost use Rattle.serial_plan.specs.Arrays.{is_on, joins_at};
ghost use Rattle.serial_plan.specs.Shape.{ends_in, regular_in, outer_in, path_in};
ghost use Rattle.serial_plan.specs.Fitting.{Slots};

use crate::few::{Few, Group};
use crate::tables::Tables;
use context::pairs::other_region;
use serial_links::limits::{GroupSize, Limits};

fn joins(first: u32, second: u32, i: u32) -> bool
    ensures { result ≡ eqb i first || eqb i second }
{
    (i == first) | (i == second)
}

// How many links join a rank, and the first of them; 0 where there is none.
// A struct, not an Option: near and near_link of specs/Few.antt speak of its fields.
#[derive(Clone, Copy)]
pub struct Near {
    pub count: u32,
    pub first: u32,
}

impl Near {
    // With x before the others, if asked.
    fn with(self, x: u32, on: bool) -> Near
        requires { self.count < 4294967295 }
        ensures { result ≡ cond on (near_link self x) self }
    {
        if on {
            return Near {
                count: self.count + 1,
                first: x,
            };
        }
        self
    }
}

// The links that join rank i.
fn links_at(t: &Tables, links: Few, i: u32) -> Near
    requires { (links.count ≤ 256) × Slots 256 links }
    ensures { result ≡ near (keep (joins_at t.now.firsts.now t.now.seconds.now i) (few_list links)) }
{
    let mut found = Near { count: 0, first: 0 };
    for j in (0..links.count).rev() {
        let k = links.index(j);
        found = found.with(links.get(j), joins(t.firsts[k], t.seconds[k], i));
    }
    found
}

// The ranks that one link joins.
pub fn group_end_nodes(t: &Tables, group: &Group) -> Few
    requires { (group.now.ranks.count ≤ 256) × (group.now.links.count ≤ 256) × Slots 256 group.now.links }
    ensures { result ≡ few_of (ends_in t.now.firsts.now t.now.seconds.now (few_list group.now.ranks) (few_list group.now.links)) }
{
    let mut found = Few::none();
    for j in (0..group.ranks.count).rev() {
        let i = group.ranks.get(j);
        let near = links_at(t, group.links, i);
        found = found.with(i, near.count == 1);
    }
    found
}

// One link or two join each rank.
fn regular(t: &Tables, group: &Group) -> bool
    requires { (group.now.links.count ≤ 256) × Slots 256 group.now.links }
    ensures { result ≡ regular_in t.now.firsts.now t.now.seconds.now (few_list group.now.ranks) (few_list group.now.links) }
{
    let mut all = true;
    for j in (0..group.ranks.count).rev() {
        let near = links_at(t, group.links, group.ranks.get(j));
        all = ((1 <= near.count) & (near.count <= 2)) & all;
    }
    all
}

// Each of the links is marked.
pub fn all_on(marks: &[u8; 256], links: Few) -> bool
    requires { Slots 256 links }
    ensures { result ≡ every (is_on marks.now) (few_list links) }
{
    let mut all = true;
    for j in (0..links.count).rev() {
        all = (marks[links.index(j)] == 1) & all;
    }
    all
}

// The region on the other side of an end.
fn outer(t: &Tables, links: Few, i: u32) -> u32
    requires { (links.count ≤ 256) × Slots 256 links × (i < 256) }
    ensures { result ≡ outer_in t.now.lowers.now t.now.highers.now t.now.regions.now t.now.firsts.now t.now.seconds.now
        (few_list links)
        i }
{
    let near = links_at(t, links, i);
    let at = i as usize;
    other_region(t.lowers[at], t.highers[at], t.regions[near.first as usize])
}

// A path of at least so many ranks and at most the limit's, whose outer regions differ.
pub fn group_is_simple_path(limits: Limits, least: u32, t: &Tables, group: &Group) -> bool
    requires { (group.now.ranks.count ≤ 256) × (group.now.links.count ≤ 256) × Slots 256 group.now.ranks × Slots 256 group.now.links }
    ensures { result ≡ path_in t.now.lowers.now t.now.highers.now t.now.regions.now t.now.firsts.now t.now.seconds.now least
        (limits_of limits).most_spans (few_list group.now.ranks) (few_list group.now.links) }
{
    let size = GroupSize {
        spans: group.ranks.count,
    };
    let two = group_end_nodes(t, group);
    let one = outer(t, group.links, two.get(0));
    let other = outer(t, group.links, two.get(1));
    let whole = regular(t, group);
    let path = ((group.links.count + 1 == group.ranks.count) & (two.count == 2)) & whole;
    (size.allowed(least, limits) & path) & (one != other)
}
