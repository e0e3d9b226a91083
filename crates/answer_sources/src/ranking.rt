// What observations are ordered by before their sources: ends and width.
ghost use Rattle.std.specs.Prelude.{◌≡◌, ℕ, ◌+◌, ◌<◌};
ghost use Rattle.position.specs.declared.Span.{Span};
ghost use Rattle.answer_sources.specs.Ranked.{RankRoom, RankKeys};

use crate::casts::packed;
use length::floats::total_key;
use position::Span;

// One record's canonical ends and width, at place q.
fn rank_one(
    ends: Span,
    bits: u64,
    q: usize,
    first: &mut [u64],
    second: &mut [u64],
    third: &mut [u64],
)
    requires { RankRoom first.old second.old third.old (q + 1) }
    ensures { RankKeys (λ k. ends) (λ k. bits) q 1 first.old second.old third.old first.new
        second.new third.new }
{
    let e = ends.canonical();
    let a = e.a;
    let b = e.b;
    first[q] = packed(a.x, a.y);
    second[q] = packed(b.x, b.y);
    third[q] = total_key(bits);
}

// n records, each at `base` and its place; `read` gives each one's ends and width.
pub fn rank_records<F: Fn(usize) -> (Span, u64)>(
    read: F,
    n: usize,
    base: usize,
    first: &mut [u64],
    second: &mut [u64],
    third: &mut [u64],
)
    requires readable { (k : ℕ) → k < n → F.pre read k }
    requires room { RankRoom first.old second.old third.old (base + n) }
    ensures { (ends : ℕ → Span) (bits : ℕ → ℕ)
        → ((k : ℕ) → k < n → (r : _) → F.post read k r → (r.0 ≡ ends k) × (r.1 ≡ bits k))
        → RankKeys ends bits base n first.old second.old third.old first.new second.new third.new }
{
    for p in 0..n {
        let (ends, bits) = read(p);
        rank_one(ends, bits, base + p, first, second, third);
    }
}
