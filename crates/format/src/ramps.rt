// The end of a ramp that a boundary lies at (source document 003).
ghost use Rattle.std.specs.Prelude.{◌≡◌};
ghost use Rattle.format.specs.RampSides.{side_number, end_number, end_in};

#[derive(Clone, Copy, PartialEq, Eq)]
pub enum RampSide {
    Lower,
    Upper,
}

// A side, where 003 has one; no ramp; or a byte that is no ramp end: three cases, not an Option, for a bad byte is refused by number 9.
#[derive(Clone, Copy, PartialEq, Eq)]
pub enum RampEnd {
    NoRamp,
    At(RampSide),
    Unknown,
}

impl From<RampSide> for u8 {
    ghost from_gives = { λ side byte. byte ≡ side_number side };

    // The byte that stands for it.
    fn from(side: RampSide) -> u8 {
        match side {
            RampSide::Lower => 1,
            RampSide::Upper => 2,
        }
    }
}

impl From<u8> for RampEnd {
    ghost from_gives = { λ byte end. end_number end ≡ end_in byte };

    // What a record's byte says.
    fn from(byte: u8) -> RampEnd {
        match byte {
            0 => RampEnd::NoRamp,
            1 => RampEnd::At(RampSide::Lower),
            2 => RampEnd::At(RampSide::Upper),
            _ => RampEnd::Unknown,
        }
    }
}
