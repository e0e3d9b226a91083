// Full pairs, and a pair's other region.
ghost use Rattle.std.specs.Prelude.{◌≡◌};
ghost use Rattle.areas.specs.Assessments.{region_pair};
ghost use Rattle.context.specs.FullPair.{other_region};
ghost use Rattle.context.specs.Numbers.{is_full};

// By how many steps a boundary removes, how many of them have different labels, and how many pairs it has.
pub fn has_full_pair(removed: u32, separated: u32, pairs: u32) -> bool
    ensures { result ≡ is_full removed separated pairs }
{
    ((0 < removed) & (separated == removed)) & (pairs == 1)
}

// The pair's other region: 000's `exterior`.
pub fn other_region(lower: u32, higher: u32, region: u32) -> u32
    ensures { result ≡ other_region (region_pair lower higher) region }
{
    if lower == region { higher } else { lower }
}
