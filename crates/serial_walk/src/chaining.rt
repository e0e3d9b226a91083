// Chains the records that touch each region.
ghost use Rattle.std.specs.Prelude.{◌≡◌, ◌<◌, length, set};
ghost use Rattle.lists.specs.Rows.{at};
ghost use Rattle.graph.specs.Slices.{Graph};
ghost use Rattle.serial_walk.specs.Slices.{IncidenceLists};

// Puts record k before the chains of its two regions.
fn link_record(
    lefts: &[u32],
    rights: &[u32],
    k: u32,
    heads: &mut [u32],
    left_nexts: &mut [u32],
    right_nexts: &mut [u32],
)
    requires { (k < length lefts.now) × (k < length rights.now) × (k < length left_nexts.old) × (k < length right_nexts.old)
        × (at lefts.now k < length heads.old) × (at rights.now k < length heads.old) }
    ensures lefts { left_nexts.new ≡ set left_nexts.old k (at heads.old (at lefts.now k)) }
    ensures rights { right_nexts.new ≡ set right_nexts.old k (at heads.old (at rights.now k)) }
    ensures heads { heads.new ≡ set (set heads.old (at lefts.now k) k) (at rights.now k) k }
{
    let at = k as usize;
    let left = lefts[at] as usize;
    let right = rights[at] as usize;
    left_nexts[at] = heads[left];
    right_nexts[at] = heads[right];
    heads[left] = k;
    heads[right] = k;
}

// Chains the records that touch each region, in their order, where no chain has a record yet.
pub fn full_graph(
    lefts: &[u32],
    rights: &[u32],
    count: u32,
    heads: &mut [u32],
    left_nexts: &mut [u32],
    right_nexts: &mut [u32],
)
    requires { Graph count (length heads.old) lefts.now rights.now
        × IncidenceLists count (length heads.old) lefts.now rights.now heads.old left_nexts.old right_nexts.old count }
    ensures { IncidenceLists count (length heads.old) lefts.now rights.now heads.new
        left_nexts.new
        right_nexts.new 0 }
{
    for k in (0..count).rev() {
        link_record(lefts, rights, k, heads, left_nexts, right_nexts);
    }
}
