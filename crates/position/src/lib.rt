// Positions in pixels (source document 006) and in cells, and spans between two of them.
#![tactic(auto)]

ghost use Rattle.std.specs.Prelude.{◌≡◌};
ghost use Rattle.position.specs.Order.{pos_le, pos_same, canonical};

// In order by column, then by row.
#[derive(Clone, Copy, PartialEq, Eq, PartialOrd, Ord)]
pub struct PixelPosition {
    pub x: u32,
    pub y: u32,
}

#[derive(Clone, Copy)]
pub struct WalkPosition {
    pub x: u32,
    pub y: u32,
}

// Two ends, in the order in which they are listed.
#[derive(Clone, Copy)]
pub struct Span {
    pub a: PixelPosition,
    pub b: PixelPosition,
}

impl PixelPosition {
    // No later than the other: by column, then by row.
    #[tactic(auto, using(crate::proofs::Order::le_by_fields, std::proofs::lemmas::Bool::Decides::nat_tests), unfolding(crate::specs::Order::pos_le))]
    pub fn le(self, other: PixelPosition) -> bool
        ensures { result ≡ pos_le self other }
    {
        self <= other
    }

    #[tactic(auto, unfolding(crate::specs::Order::pos_same))]
    pub fn same(self, other: PixelPosition) -> bool
        ensures { result ≡ pos_same self other }
    {
        self == other
    }
}

impl Span {
    // The same span with its earlier end first.
    pub fn canonical(self) -> Span
        ensures { result ≡ canonical self }
    {
        if self.a.le(self.b) {
            self
        } else {
            Span {
                a: self.b,
                b: self.a,
            }
        }
    }

    // The two ends are one position.
    pub fn coincides(self) -> bool
        ensures { result ≡ pos_same self.a self.b }
    {
        self.a.same(self.b)
    }
}
