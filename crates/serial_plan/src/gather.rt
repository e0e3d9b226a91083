// The ranks and the links of a part.
ghost use Rattle.std.specs.Prelude.{◌≡◌, ◌&&◌, ◌<◌, ◌≤◌, eqb};
ghost use Rattle.lists.specs.Rows.{at};
ghost use Rattle.order.specs.Lists.{keep, up_from};
ghost use Rattle.serial_plan.specs.Few.{few_of};
ghost use Rattle.serial_plan.specs.Arrays.{in_part, link_in_part};
ghost use Rattle.serial_plan.specs.Tables.{LinkedTables};

use crate::few::Few;
use crate::tables::{Groups, Tables};

fn in_part(joined: u8, part: u32, c: u32) -> bool
    ensures { result ≡ eqb joined 1 && eqb part c }
{
    (joined == 1) & (part == c)
}

// The joined ranks of part c.
pub fn ranks_of(n: usize, g: &Groups, c: u32) -> Few
    requires { n ≤ 256 }
    ensures { result ≡ few_of (keep (in_part g.now.joined.now g.now.parts.now c) (up_from 0 n)) }
{
    let mut found = Few::none();
    for i in (0..n).rev() {
        found = found.with(i as u32, in_part(g.joined[i], g.parts[i], c));
    }
    found
}

// The chosen links of part c, by number.
pub fn links_of(t: &Tables, g: &Groups, c: u32) -> Few
    requires { LinkedTables t.now }
    ensures { result ≡ few_of (keep (link_in_part g.now.chosen.now t.now.firsts.now g.now.parts.now c) (up_from 0 t.now.links)) }
{
    let mut found = Few::none();
    for k in (0..t.links).rev() {
        let part = g.parts[t.firsts[k] as usize];
        found = found.with(k as u32, in_part(g.chosen[k], part, c));
    }
    found
}
