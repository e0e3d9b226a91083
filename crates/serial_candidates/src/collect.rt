// The links of all regions, by rising regions.
ghost use Rattle.std.specs.Prelude.{◌≡◌, true, ◌<◌, ◌≤◌};
ghost use Rattle.serial_candidates.specs.Owners.{Stored, OwnersBelow};
ghost use Rattle.serial_candidates.specs.Gives.{OwnBounded};
ghost use Rattle.serial_candidates.specs.Found.{given, found, LinkAdded, AllFound};

use crate::gives::gives_link;
use crate::regions::next_region;
use crate::touching::touching_of;

// Adds the region's link, if it gives one. Gives how many there are then.
fn consider(
    anchors: &[u32],
    n: usize,
    own: &[u32; 1024],
    linkables: &[u8; 256],
    lowers: &[u32; 256],
    highers: &[u32; 256],
    owners: &[u32],
    lefts: &[u32],
    rights: &[u32],
    records: usize,
    region: u32,
    count: usize,
    regions: &mut [u32; 256],
    firsts: &mut [u32; 256],
    seconds: &mut [u32; 256],
) -> usize
    requires { (n ≤ 256) × OwnBounded own.now n
        × Stored owners.now lefts.now rights.now records × OwnersBelow owners.now records n
        × (found (given anchors.now own.now linkables.now lowers.now highers.now owners.now
        lefts.now rights.now records) region ≡ true → count < 256) }
    ensures { LinkAdded
        (given anchors.now own.now linkables.now
        lowers.now highers.now owners.now lefts.now rights.now records) region count
        regions.old firsts.old seconds.old result regions.new firsts.new seconds.new }
{
    let t = touching_of(owners, lefts, rights, records, region);
    let first = t.first;
    let second = t.second;
    if gives_link(
        anchors, n, own, linkables, lowers, highers, t.count, first, second, region,
    ) {
        regions[count] = region;
        firsts[count] = first;
        seconds[count] = second;
        return count + 1;
    }
    count
}

// The links of all regions in the pairs of marked ranks. Gives how many there are.
pub fn collect(
    anchors: &[u32],
    n: usize,
    own: &[u32; 1024],
    linkables: &[u8; 256],
    lowers: &[u32; 256],
    highers: &[u32; 256],
    owners: &[u32],
    lefts: &[u32],
    rights: &[u32],
    records: usize,
    regions: &mut [u32; 256],
    firsts: &mut [u32; 256],
    seconds: &mut [u32; 256],
) -> usize
    requires { (n ≤ 256) × OwnBounded own.now n
        × Stored owners.now lefts.now rights.now records × OwnersBelow owners.now records n }
    ensures { AllFound
        (given anchors.now own.now linkables.now
        lowers.now highers.now owners.now lefts.now rights.now records) regions.new
        firsts.new seconds.new result }
{
    *regions = [0u32; 256];
    *firsts = [0u32; 256];
    *seconds = [0u32; 256];
    let mut count: usize = 0;
    let mut after: u32 = 0;
    let mut region = next_region(n, linkables, lowers, highers, after);
    while region != 0 {
        count = consider(
            anchors, n, own, linkables, lowers, highers, owners, lefts, rights, records, region,
            count, regions, firsts, seconds,
        );
        after = region;
        region = next_region(n, linkables, lowers, highers, after);
    }
    count
}
