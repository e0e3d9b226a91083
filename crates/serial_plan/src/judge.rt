// What becomes of the group that a part makes.
ghost use Rattle.std.specs.Prelude.{◌≡◌, cond, ◌≤◌};
ghost use Rattle.serial_links.specs.HeldLimits.{limits_of};
ghost use Rattle.serial_plan.specs.Shape.{retained_in};
ghost use Rattle.serial_plan.specs.Tables.{SafeTables, part_links, part_ranks};

use crate::accept::Rules;
use crate::few::Group;
use crate::gather::{links_of, ranks_of};
use crate::retain::representative;
use crate::tables::{Groups, Tables};
use serial_links::limits::Limits;

// The retained rank of the group of part c, 256 if the rules refuse it.
// Not an Option: serial_into and flat_into, and the arrays that they tell of, have 256 for no rank.
pub fn judge<R: Rules>(limits: Limits, rules: &R, t: &Tables, g: &Groups, c: u32) -> usize
    requires { (limits.most_spans ≤ 16) × SafeTables t.now }
    ensures { (result ≡ cond (R.accepted rules.now (limits_of limits) t.now (part_ranks t.now g.now c) (part_links t.now g.now c))
        (retained_in (limits_of limits) t.now.own.now t.now.bits.now (part_ranks t.now g.now c)) 256) × (result ≤ 256) }
{
    let ranks = ranks_of(t.n, g, c);
    let links = links_of(t, g, c);
    if !rules.accept(limits, t, &Group { ranks, links }) {
        return 256;
    }
    representative(limits, t.own, t.bits, ranks)
}
