// The eight fixed numbers, as every rule takes them. The numbers of source document 000 belong to the types whose rules they limit.
ghost use Rattle.std.specs.Prelude.{◌≡◌, ◌&&◌, leb};
ghost use Rattle.std.specs.Float.Ieee.{le};
ghost use Rattle.length.specs.Floats.{◌⊕◌};
ghost use Rattle.serial_links.specs.Limits.{limits000};
ghost use Rattle.serial_links.specs.HeldLimits.{limits_of};

use crate::link::Link;
use crate::parallel::SpanPair;
use length::Length;

// No ghost field bounds most_spans: half of what takes Limits asks nothing of it.
#[derive(Clone, Copy)]
pub struct Limits {
    pub least_spans: u32,
    pub most_spans: u32,
    pub chain: f64,
    pub width: f64,
    pub geometry: f64,
    pub duplicate: f64,
    pub envelope: f64,
    pub cosine: f64,
}

// How many spans a group has.
#[derive(Clone, Copy)]
pub struct GroupSize {
    pub spans: u32,
}

// The sum of a serial group's centre distances, and the distance of its ends.
#[derive(Clone, Copy)]
pub struct Chain {
    pub sum: Length,
    pub ends: Length,
}

// A member of a group, by its width.
#[derive(Clone, Copy)]
pub struct Member {
    pub width: f64,
}

impl GroupSize {
    pub const MIN_GROUP_SPANS: u32 = 3;

    pub const MAX_GROUP_SPANS: u32 = 4;

    // From the least number, that of serial groups or of flat ones, to the greatest.
    pub fn allowed(self, least: u32, limits: Limits) -> bool
        ensures { result ≡ leb least self.spans && leb self.spans (limits_of limits).most_spans }
    {
        let n = self.spans;
        (least <= n) & (n <= limits.most_spans)
    }
}

impl Chain {
    pub const MAX_CHAIN_DISTANCE_PIXELS: f64 = 384.0;

    pub fn short(self, limits: Limits) -> bool
        ensures { result ≡ le self.sum.value (limits_of limits).chain && le self.ends.value (limits_of limits).chain }
    {
        let sum = self.sum;
        let ends = self.ends;
        (sum.value <= limits.chain) & (ends.value <= limits.chain)
    }
}

impl Member {
    pub const WIDTH_TOLERANCE_PIXELS: f64 = 8.0;

    // No wider than the narrowest member and the tolerance.
    pub fn eligible(self, least: f64, limits: Limits) -> bool
        ensures { result ≡ le self.width (least ⊕ (limits_of limits).width) }
    {
        self.width <= least + limits.width
    }
}

impl Limits {
    // The numbers of source document 000.
    pub fn of_000() -> Limits
        ensures { limits_of result ≡ limits000 }
    {
        Limits {
            least_spans: GroupSize::MIN_GROUP_SPANS,
            most_spans: GroupSize::MAX_GROUP_SPANS,
            chain: Chain::MAX_CHAIN_DISTANCE_PIXELS,
            width: Member::WIDTH_TOLERANCE_PIXELS,
            geometry: Link::GEOMETRY_TOLERANCE_PIXELS,
            duplicate: SpanPair::FLAT_DUPLICATE_DISTANCE_PIXELS,
            envelope: Link::FLAT_ENVELOPE_TOLERANCE_PIXELS,
            cosine: SpanPair::PARALLEL_COSINE,
        }
    }
}
