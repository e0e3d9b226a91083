// The links between boundaries that regions give: 000's `candidate_links`, without its measures.
// Arrays by rank and by record are lent, of fixed length, not Vec or maps: there is no heap.
#![tactic(auto)]

ghost use Rattle.std.specs.Prelude.{◌≤◌};
ghost use Rattle.serial_candidates.specs.Owners.{Stored, OwnersBelow};
ghost use Rattle.serial_candidates.specs.Gives.{OwnBounded};
ghost use Rattle.serial_candidates.specs.Top.{CandidateLinks};

pub mod pairs; // how many pairs each rank has, and its first one
pub mod touching; // the ranks that touch a region
pub mod linkable; // the ranks that can be linked
pub mod regions; // the regions of the ranks that can be linked, in order
pub mod gives; // whether a region gives a link
pub mod collect; // the links of all regions

use collect::collect;
use linkable::find_linkables;
use pairs::first_pairs;

// The links, by rising regions, and the first pairs of the ranks, from the labels of the anchors' cells. Gives how many links there are.
pub fn candidate_links(
    anchors: &[u32],
    n: usize,
    own: &[u32; 1024],
    ramps: &[u8; 256],
    removed: &[u32; 256],
    separated: &[u32; 256],
    owners: &[u32],
    lefts: &[u32],
    rights: &[u32],
    records: usize,
    counts: &mut [u32; 256],
    lowers: &mut [u32; 256],
    highers: &mut [u32; 256],
    regions: &mut [u32; 256],
    firsts: &mut [u32; 256],
    seconds: &mut [u32; 256],
) -> usize
    requires { (n ≤ 256) × OwnBounded own.now n
        × Stored owners.now lefts.now rights.now records × OwnersBelow owners.now records n }
    ensures { CandidateLinks anchors.now n own.now ramps.now
        removed.now separated.now owners.now lefts.now rights.now records counts.new
        lowers.new highers.new regions.new firsts.new seconds.new result }
{
    let mut linkables = [0u8; 256];
    first_pairs(owners, lefts, rights, records, counts, lowers, highers);
    find_linkables(n, own, ramps, removed, separated, counts, &mut linkables);
    collect(
        anchors, n, own, &linkables, lowers, highers, owners, lefts, rights, records, regions,
        firsts, seconds,
    )
}
