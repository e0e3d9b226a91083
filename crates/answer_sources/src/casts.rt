// Two numbers in one.
ghost use Rattle.std.specs.Prelude.{◌≡◌, ◌<◌};
ghost use Rattle.order.specs.Keys.{pack};

pub fn packed(x: u32, y: u32) -> u64
    ensures { (result ≡ pack x y) × (x < 0x1_0000_0000) × (y < 0x1_0000_0000) }
{
    u64::from(x) * 0x1_0000_0000 + u64::from(y)
}
