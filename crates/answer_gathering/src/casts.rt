// A test of a number, as a number.
ghost use Rattle.std.specs.Prelude.{◌≡◌, cond, ◌≤◌, eqb};

// 1 if x is i.
pub fn counted(x: u32, i: usize) -> usize
    ensures { (result ≡ cond (eqb x i) 1 0) × (result ≤ 1) }
{
    usize::from(x as usize == i)
}
