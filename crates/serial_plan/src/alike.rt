// Members that are nearby and parallel.
ghost use Rattle.std.specs.Prelude.{◌≡◌, ◌<◌};
ghost use Rattle.order.specs.Tests.{every};
ghost use Rattle.serial_links.specs.HeldLimits.{limits_of};
ghost use Rattle.serial_plan.specs.Few.{few_list};
ghost use Rattle.serial_plan.specs.Shape.{alike_in, all_alike_in};
ghost use Rattle.serial_plan.specs.Fitting.{RankFits, RanksFit};

use crate::few::Few;
use areas::spans::span_at;
use serial_links::limits::Limits;
use serial_links::parallel::SpanPair;

// The span of rank i with that of rank j.
pub fn alike(limits: Limits, own: &[u32; 1024], i: usize, j: usize) -> bool
    requires { RankFits own.now i × RankFits own.now j }
    ensures { result ≡ alike_in (limits_of limits) own.now i j }
{
    let first = span_at(own, i);
    let second = span_at(own, j);
    let pair = SpanPair { first, second };
    pair.nearby_parallel(limits)
}

// The span of rank i with those of all the ranks.
fn alike_to_all(limits: Limits, own: &[u32; 1024], i: usize, ranks: Few) -> bool
    requires { RankFits own.now i × RanksFit own.now ranks }
    ensures { result ≡ every (alike_in (limits_of limits) own.now i) (few_list ranks) }
{
    let mut all = true;
    for j in (0..ranks.count).rev() {
        all = alike(limits, own, i, ranks.index(j)) & all;
    }
    all
}

// Every ordered pair of ranks.
pub fn all_alike(limits: Limits, own: &[u32; 1024], ranks: Few) -> bool
    requires { RanksFit own.now ranks }
    ensures { result ≡ all_alike_in (limits_of limits) own.now (few_list ranks) }
{
    let mut all = true;
    for j in (0..ranks.count).rev() {
        all = alike_to_all(limits, own, ranks.index(j), ranks) & all;
    }
    all
}
