// The first sixteen numbers of a list, and how many it has.
ghost use Rattle.std.specs.Prelude.{◌≡◌, cond, [], ◌<◌};
ghost use Rattle.serial_plan.specs.Few.{few_of, pushed, few_at};

// Not an ArrayVec: a number comes in before the others, and past sixteen the last is dropped, but counted.
// No ghost field bounds the count: few_of of specs/Few.antt makes one of every list.
#[derive(Clone, Copy)]
pub struct Few {
    pub count: u32,
    pub items: [u32; 16],
}

impl Few {
    // Of no number.
    pub fn none() -> Few
        ensures { result ≡ few_of [] }
    {
        Few {
            count: 0,
            items: [0u32; 16],
        }
    }

    // With x before the others, if asked.
    // The test comes in, here and in Near::with, not an `if` in each loop: `keep` of the definitions tests each.
    pub fn with(self, x: u32, on: bool) -> Few
        requires { self.count < 4294967295 }
        ensures { result ≡ cond on (pushed self x) self }
    {
        if !on {
            return self;
        }
        let a = self.items;
        Few {
            count: self.count + 1,
            items: [
                x, a[0], a[1], a[2], a[3], a[4], a[5], a[6], a[7], a[8], a[9], a[10], a[11], a[12],
                a[13], a[14],
            ],
        }
    }

    // Number j, of at most sixteen.
    #[tactic(auto, using(crate::proofs::FewLaws::slot_in, crate::proofs::FewLaws::slot_past))]
    pub fn get(self, j: u32) -> u32
        ensures { result ≡ few_at self j }
    {
        if 16 <= j {
            return 0;
        }
        let at = j as usize;
        self.items[at]
    }

    // Number j, as an index.
    pub fn index(self, j: u32) -> usize
        requires { few_at self j < 256 }
        ensures { (result ≡ few_at self j) × (result < 256) }
    {
        self.get(j) as usize
    }
}

// The ranks and the links of a group, by number.
#[derive(Clone, Copy)]
pub struct Group {
    pub ranks: Few,
    pub links: Few,
}
