// How many pairs each rank has, and its first one.
ghost use Rattle.std.specs.Prelude.{◌≡◌, cond, ◌+◌, ◌<◌, ◌≤◌, eqb, get_or, set};
ghost use Rattle.serial_candidates.specs.Owners.{Stored, OwnersBelow, Firsts};

// One pair more of a rank.
fn add_pair(
    rank: usize,
    left: u32,
    right: u32,
    counts: &mut [u32; 256],
    lowers: &mut [u32; 256],
    highers: &mut [u32; 256],
)
    requires { (rank < 256) × (get_or counts.old rank 0 ≤ 4096) }
    ensures counted { counts.new ≡ set counts.old rank (get_or counts.old rank 0 + 1) }
    ensures lower { lowers.new ≡ cond (eqb (get_or counts.old rank 0) 0) (set lowers.old rank left) lowers.old }
    ensures higher { highers.new ≡ cond (eqb (get_or counts.old rank 0) 0) (set highers.old rank right)
        highers.old }
{
    let count = counts[rank];
    counts[rank] = count + 1;
    if count == 0 {
        lowers[rank] = left;
        highers[rank] = right;
    }
}

// For each rank how many records it has, and the regions of the first one, 0 where there is none.
// 0, not an Option: `Firsts` of specs/Owners.antt has no_record's regions there.
pub fn first_pairs(
    owners: &[u32],
    lefts: &[u32],
    rights: &[u32],
    records: usize,
    counts: &mut [u32; 256],
    lowers: &mut [u32; 256],
    highers: &mut [u32; 256],
)
    requires { Stored owners.now lefts.now rights.now records × OwnersBelow owners.now records 256 }
    ensures { Firsts owners.now lefts.now rights.now records counts.new lowers.new
        highers.new }
{
    *counts = [0u32; 256];
    *lowers = [0u32; 256];
    *highers = [0u32; 256];
    for k in 0..records {
        let rank = owners[k] as usize;
        add_pair(rank, lefts[k], rights[k], counts, lowers, highers);
    }
}
