// The sum of a group's centre distances.
ghost use Rattle.std.specs.Prelude.{◌≡◌, map, ◌≤◌};
ghost use Rattle.areas.specs.Spans.{span_in};
ghost use Rattle.serial_sums.specs.Parts.{PartsOf};
ghost use Rattle.serial_links.specs.Geometry.{centre_length};
ghost use Rattle.serial_plan.specs.Few.{few_list};
ghost use Rattle.serial_plan.specs.Shape.{gap_length_in, chain_total_in};
ghost use Rattle.serial_plan.specs.Fitting.{RankFits, LinkFits};
ghost use Rattle.serial_plan.specs.Tables.{TableLinks};

use crate::few::Few;
use crate::tables::Tables;
use areas::spans::span_at;
use length::Length;
use serial_links::geometry::centre_distance;
use serial_sums::Parts;

// How far apart the centres of two ranks are.
pub fn rank_distance(own: &[u32; 1024], i: usize, j: usize) -> Length
    requires { RankFits own.now i × RankFits own.now j }
    ensures { result ≡ centre_length (span_in own.now i) (span_in own.now j) }
{
    centre_distance(span_at(own, i), span_at(own, j))
}

fn gap(t: &Tables, k: usize) -> Length
    requires { LinkFits t.now.own.now t.now.firsts.now t.now.seconds.now k }
    ensures { result ≡ gap_length_in t.now.firsts.now t.now.seconds.now t.now.own.now k }
{
    rank_distance(t.own, t.firsts[k] as usize, t.seconds[k] as usize)
}

// The links' distances, in their order.
fn gaps_of(t: &Tables, links: Few) -> Parts
    requires { (links.count ≤ 16) × TableLinks t.now links }
    ensures { PartsOf result (map (gap_length_in t.now.firsts.now t.now.seconds.now t.now.own.now) (few_list links)) }
{
    let mut gaps = Parts::none();
    for j in 0..links.count {
        let k = links.index(j);
        gaps = gaps.with(gap(t, k));
    }
    gaps
}

// The links' distances, added up from the least.
pub fn chain_sum(t: &Tables, links: Few) -> Length
    requires { (1 ≤ links.count) × (links.count ≤ 16) × TableLinks t.now links }
    ensures { result ≡ chain_total_in t.now.firsts.now t.now.seconds.now t.now.own.now (few_list links) }
{
    let gaps = gaps_of(t, links);
    gaps.ascending_sum()
}
