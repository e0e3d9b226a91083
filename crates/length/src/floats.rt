// The magnitude, the lesser, the greater, and the total order of bit patterns.
// Written out, not std's methods: at a NaN or at both zeros those answer otherwise, and total_cmp takes no NaN.
ghost use Rattle.std.specs.Prelude.{◌≡◌};
ghost use Rattle.length.specs.Floats.{abs_of, min_of, max_of};
ghost use Rattle.length.specs.Total.{total_key, total_le};

pub fn abs(a: f64) -> f64
    ensures { result ≡ abs_of a }
{
    if a < 0.0 { -a } else { a }
}

pub fn min(a: f64, b: f64) -> f64
    ensures { result ≡ min_of a b }
{
    if b < a { b } else { a }
}

pub fn max(a: f64, b: f64) -> f64
    ensures { result ≡ max_of a b }
{
    if a < b { b } else { a }
}

// Where a bit pattern stands in IEEE 754's total_order.
pub fn total_key(bits: u64) -> u64
    ensures { result ≡ total_key bits }
{
    if bits < 0x8000_0000_0000_0000 {
        bits + 0x8000_0000_0000_0000
    } else {
        0xFFFF_FFFF_FFFF_FFFF - bits
    }
}

// The pattern a comes no later than b in IEEE 754's total_order.
pub fn total_le(a: u64, b: u64) -> bool
    ensures { result ≡ total_le a b }
{
    let x = total_key(a);
    let y = total_key(b);
    x <= y
}
