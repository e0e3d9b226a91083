// The whole square root of a number, and the length of a doubled difference: the f64 nearest to half a square root.
#![tactic(auto)]

ghost use Rattle.std.specs.Prelude.{◌≡◌, ◌*◌, ◌^◌, ◌≤◌, ◌<◌};
ghost use Rattle.length.specs.Root.{DigitStep, DoubledDigits, root_of};
ghost use Rattle.length.specs.Length.{length_at};

pub mod floats;

// A whole square root and what is left over: two numbers, each with a name of its own.
#[derive(Clone, Copy)]
pub struct Root {
    pub root: u64,
    pub rem: u64,
}

// A length, and whether it is √d ÷ 2 itself and not only the f64 nearest to it. No Option: a length that is not exact is one too.
#[derive(Clone, Copy)]
pub struct Length {
    pub value: f64,
    pub exact: bool,
}

// One more binary digit of a root: the number under the root is four times what it was, plus b.
fn digit(r: Root, b: u64) -> Root
    requires { (r.root < 2 ^ 58) × (r.rem ≤ 2 * r.root) × (b < 4) }
    ensures { DigitStep r.root r.rem b result.root result.rem }
{
    let root = r.root * 2;
    let rem = r.rem * 4 + b;
    let trial = root * 2 + 1;
    if trial <= rem {
        Root {
            root: root + 1,
            rem: rem - trial,
        }
    } else {
        Root { root, rem }
    }
}

// Twice as many binary digits of a root that has 27: by one division, for the digits so far are the first half of the root's
// (Zimmermann 1999, Karatsuba square root).
fn doubled(r: Root) -> Root
    requires { (2 ^ 26 ≤ r.root) × (r.root < 2 ^ 27) × (r.rem ≤ 2 * r.root) }
    ensures { DoubledDigits r.root r.rem result.root result.rem }
{
    let twice = r.root * 2;
    let over = r.rem * 0x800_0000;
    let half = over / twice;
    let root = r.root * 0x800_0000 + half;
    let rem = over % twice * 0x800_0000;
    let square = half * half;
    if square <= rem {
        Root {
            root,
            rem: rem - square,
        }
    } else {
        Root {
            root: root - 1,
            rem: rem + (root * 2 - 1) - square,
        }
    }
}

// The whole square root of n, and the rest.
pub fn root_of(n: u64) -> Root
    requires { n < 2 ^ 36 }
    ensures { result ≡ root_of n }
{
    let mut r = Root { root: 0, rem: 0 };
    for i in (0u32..18).rev() {
        r = digit(r, (n >> (2 * i)) % 4);
    }
    r
}

// The length of d, the sum of the squares of two doubled differences. A square's is half its root. Any other root gets digits
// after the point until it has 54, one more than an f64 holds; the last one says whether to round up.
pub fn length_of(d: u32) -> Length
    requires { d ≤ 2 ^ 29 }
    ensures { result ≡ length_at d }
{
    if d == 0 {
        return Length {
            value: 0.0,
            exact: true,
        };
    }
    let mut r = root_of(d as u64);
    if r.rem == 0 {
        return Length {
            value: (r.root as f64) / 2.0,
            exact: true,
        };
    }
    let mut p = 1u64;
    while r.root < 0x400_0000 {
        r = digit(r, 0);
        p = p * 2;
    }
    r = doubled(r);
    p = p * 0x800_0000;
    let m = r.root / 2 + r.root % 2;
    let value = (m as f64) / (p as f64);
    Length {
        value,
        exact: false,
    }
}
