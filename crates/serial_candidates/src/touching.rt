// The ranks that touch a region.
ghost use Rattle.std.specs.Prelude.{◌≡◌, cond, ◌||◌, ◌<◌, eqb};
ghost use Rattle.graph.specs.Records.{record_in};
ghost use Rattle.serial_candidates.specs.Owners.{Stored};
ghost use Rattle.serial_candidates.specs.Touchers.{with_owner, touched, touching_after};

// How many owners touch a region, the first two, and the last. Numbers, not Options: specs/Touchers.antt has 0 where there is none.
#[derive(Clone, Copy)]
pub struct Touching {
    pub count: u32,
    pub first: u32,
    pub second: u32,
    pub last: u32,
}

// A function, not an `if` in place: with_owner is by `cond`.
fn pick(test: bool, a: u32, b: u32) -> u32
    ensures { result ≡ cond test a b }
{
    if test { a } else { b }
}

impl Touching {
    // One owner more.
    fn with(self, owner: u32) -> Touching
        requires { self.count < 4294967295 }
        ensures { result ≡ with_owner self owner }
    {
        let count = self.count;
        let first = self.first;
        let second = self.second;
        Touching {
            count: count + 1,
            first: pick(count == 0, owner, first),
            second: pick(count == 1, owner, second),
            last: owner,
        }
    }

    // One record more: its owner, if it touches the region and is not the last one already.
    fn after(self, owner: u32, left: u32, right: u32, region: u32) -> Touching
        requires { self.count < 4294967295 }
        ensures { result ≡ touched self owner (eqb region left || eqb region right) }
    {
        let count = self.count;
        let last = self.last;
        if ((region == left) | (region == right)) & ((count == 0) | (last != owner)) {
            return self.with(owner);
        }
        self
    }
}

// Of the owners of the records, in their order.
pub fn touching_of(
    owners: &[u32],
    lefts: &[u32],
    rights: &[u32],
    records: usize,
    region: u32,
) -> Touching
    requires { Stored owners.now lefts.now rights.now records }
    ensures { result ≡ touching_after (record_in owners.now lefts.now rights.now) region records }
{
    let mut t = Touching {
        count: 0,
        first: 0,
        second: 0,
        last: 0,
    };
    for k in 0..records {
        t = t.after(owners[k], lefts[k], rights[k], region);
    }
    t
}
