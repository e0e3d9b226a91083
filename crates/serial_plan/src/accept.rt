// The rules on a group.
ghost use Rattle.std.specs.Prelude.{◌≡◌, ◌≤◌};
ghost use Rattle.serial_links.specs.HeldLimits.{limits_of};
ghost use Rattle.serial_plan.specs.Few.{few_list};
ghost use Rattle.serial_plan.specs.Fitting.{RankFits, RanksFit};
ghost use Rattle.serial_plan.specs.Rules.{Accepts, AcceptsSmall};
ghost use Rattle.serial_plan.specs.SmallGroups.{serial-small, flat-small};
ghost use Rattle.serial_plan.specs.Tables.{TableLinks, flat_by, serial_by};

use crate::alike::all_alike;
use crate::chain::{chain_sum, rank_distance};
use crate::few::Group;
use crate::path::{all_on, group_end_nodes, group_is_simple_path};
use crate::tables::Tables;
use serial_links::limits::{Chain, Limits};

// A kind of groups, by the test that a group has to pass.
pub trait Rules {
    // By the limits, the tables, and the ranks and links of the group.
    ghost accepted: { Accepts Self };

    fn accept(&self, limits: Limits, t: &Tables, group: &Group) -> bool
        requires { (limits.most_spans ≤ 16) × (group.now.ranks.count ≤ 256) × (group.now.links.count ≤ 256) × RanksFit t.now.own.now group.now.ranks
            × TableLinks t.now group.now.links × RankFits t.now.own.now 0 }
        ensures { result ≡ accepted self.now (limits_of limits) t.now (few_list group.now.ranks) (few_list group.now.links) };

    // A group that passes is small enough to be looked at whole.
    ghost small: { AcceptsSmall accepted };
}

// Serial groups, by the marks of the links that pass.
#[derive(Clone, Copy)]
pub struct Serial<'a> {
    pub passing: &'a [u8; 256],
}

impl Rules for Serial<'_> {
    ghost accepted = { λ s. λ limits t. serial_by limits t s.passing.now };

    ghost small = { λ s. serial-small s.passing.now };

    fn accept(&self, limits: Limits, t: &Tables, group: &Group) -> bool {
        accepts_serial(limits, t, self.passing, group)
    }
}

// Flat groups.
#[derive(Clone, Copy)]
pub struct Flat;

impl Rules for Flat {
    ghost accepted = { λ _. flat_by };

    ghost small = { λ _. flat-small };

    fn accept(&self, limits: Limits, t: &Tables, group: &Group) -> bool {
        accepts_flat(limits, t, group)
    }
}

// Every link passes, and the group is a simple path that isn't too long.
pub fn accepts_serial(limits: Limits, t: &Tables, passing: &[u8; 256], group: &Group) -> bool
    requires { (limits.most_spans ≤ 16) × (group.now.ranks.count ≤ 256) × (group.now.links.count ≤ 256) × RanksFit t.now.own.now group.now.ranks
        × TableLinks t.now group.now.links × RankFits t.now.own.now 0 }
    ensures { result ≡ serial_by (limits_of limits) t.now passing.now (few_list group.now.ranks) (few_list group.now.links) }
{
    let pass = all_on(passing, group.links);
    let least = limits.least_spans;
    let path = group_is_simple_path(limits, least, t, group);
    if !(pass & path) {
        return false;
    }
    let two = group_end_nodes(t, group);
    let sum = chain_sum(t, group.links);
    let far = rank_distance(t.own, two.index(0), two.index(1));
    let chain = Chain { sum, ends: far };
    chain.short(limits)
}

// The group is a simple path, and every ordered pair of its members is nearby and parallel.
pub fn accepts_flat(limits: Limits, t: &Tables, group: &Group) -> bool
    requires { (group.now.ranks.count ≤ 256) × (group.now.links.count ≤ 256) × RanksFit t.now.own.now group.now.ranks × TableLinks t.now group.now.links }
    ensures { result ≡ flat_by (limits_of limits) t.now (few_list group.now.ranks) (few_list group.now.links) }
{
    let path = group_is_simple_path(limits, 2, t, group);
    if !path {
        return false;
    }
    all_alike(limits, t.own, group.ranks)
}
