// Boundaries and spans by rank, in arrays: the code's view of a run's listing.
// Arrays by rank are lent, of fixed length, not Vec: there is no heap.
#![tactic(auto)]

ghost use Rattle.std.specs.Prelude.{◌≡◌, ◌+◌, ◌*◌, ◌<◌, ◌≤◌, length};
ghost use Rattle.order.specs.Keys.{pack};
ghost use Rattle.position.specs.Order.{canonical};
ghost use Rattle.format.specs.Sizes.{boundary_size};
ghost use Rattle.serial_ranks.specs.Tables.{record_place, Records, put_span, SpansOf, WidthsOf, RampsOf, KeysOf, Identity};

use format::{BOUNDARY_SIZE, read_span};
use position::{PixelPosition, Span};
use wire::read_u64;

// Where the record of a rank begins.
fn record_place(s: &[u8], at: usize, stride: usize, order: &[u32; 256], n: usize, i: usize) -> usize
    requires { Records s.now at stride order.now n × (i < n) }
    ensures { (result ≡ record_place at stride order.now i) × (result + stride ≤ length s.now) }
{
    at + order[i] as usize * stride
}

// Puts a span at place i of the array.
fn put_span(ends: &mut [u32; 1024], i: usize, s: Span)
    requires { i < 256 }
    ensures { ends.new ≡ put_span ends.old i s }
{
    let a = s.a;
    let b = s.b;
    ends[4 * i] = a.x;
    ends[4 * i + 1] = a.y;
    ends[4 * i + 2] = b.x;
    ends[4 * i + 3] = b.y;
}

// The spans of the records by rank, earlier end first, and 0 behind them.
pub fn fill_spans(
    s: &[u8],
    at: usize,
    stride: usize,
    order: &[u32; 256],
    n: usize,
    ends: &mut [u32; 1024],
)
    requires { Records s.now at stride order.now n × (length ends.old ≡ 1024) }
    ensures { SpansOf s.now at stride order.now n ends.new }
{
    *ends = [0u32; 1024];
    for i in 0..n {
        let place = record_place(s, at, stride, order, n, i);
        put_span(ends, i, read_span(s, place).canonical());
    }
}

// The widths of boundaries by rank, and 0 behind them. Not one function with fill_spans and fill_ramps over a closure: the loops are two lines each, and the
// closure's clauses on its place would be longer.
pub fn fill_widths(s: &[u8], at: usize, order: &[u32; 256], n: usize, bits: &mut [u64; 256])
    requires { Records s.now at boundary_size order.now n × (length bits.old ≡ 256) }
    ensures { WidthsOf s.now at order.now n bits.new }
{
    *bits = [0u64; 256];
    for i in 0..n {
        let place = record_place(s, at, BOUNDARY_SIZE, order, n, i);
        bits[i] = read_u64(s, place + 16);
    }
}

// The ramp ends of boundaries by rank: 0 where there is no ramp.
pub fn fill_ramps(s: &[u8], at: usize, order: &[u32; 256], n: usize, ramps: &mut [u8; 256])
    requires { Records s.now at boundary_size order.now n × (length ramps.old ≡ 256) }
    ensures { RampsOf s.now at order.now n ramps.new }
{
    for i in 0..n {
        let place = record_place(s, at, BOUNDARY_SIZE, order, n, i);
        ramps[i] = s[place + 32];
    }
}

// A position in one number that orders positions.
fn pack(p: PixelPosition) -> u64
    ensures { result ≡ pack p.x p.y }
{
    u64::from(p.x) * 0x1_0000_0000 + u64::from(p.y)
}

// The canonical ends of the records, by place, each end in one number.
pub fn fill_keys(s: &[u8], at: usize, n: usize, first: &mut [u64; 256], second: &mut [u64; 256])
    requires { (n ≤ 256) × (at + n * boundary_size ≤ length s.now) × (length first.old ≡ 256) × (length second.old ≡ 256) }
    ensures { KeysOf s.now at boundary_size n first.new second.new }
{
    for i in 0..n {
        let ends = read_span(s, at + i * BOUNDARY_SIZE).canonical();
        first[i] = pack(ends.a);
        second[i] = pack(ends.b);
    }
}

// Each rank is its own place.
pub fn fill_identity(order: &mut [u32; 256])
    requires { length order.old ≡ 256 }
    ensures { Identity order.new }
{
    for i in 0..256 {
        order[i as usize] = i;
    }
}
