// The element at a place of a slice.
ghost use Rattle.std.specs.Prelude.{◌≡◌, get_or};

// `none` past the slice's end.
pub fn read_or<T: Copy>(xs: &[T], i: usize, none: T) -> T
    ensures { result ≡ get_or xs.now i none }
{
    if i < xs.len() { xs[i] } else { none }
}
