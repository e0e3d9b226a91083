// A source looked up among those found before it, and added where it is new.
ghost use Rattle.std.specs.Prelude.{◌≡◌, true, false, ◌+◌, ◌*◌, ◌%◌, ◌≤◌, ◌<◌, length, MatchResult};
ghost use Rattle.answer_firsts.specs.Links.{mix, head_of, Linked, Looked, PlaceAdded, Covers};

use answer_sorting::keys::key_at;

// A number that a source tells.
fn mixed(x: u64) -> usize
    ensures { (result ≡ mix x) × (result < 0x4000) }
{
    ((x / 0x1_0000_0000 * 0x5F35_6495 + x % 0x1_0000_0000 * 0x4CF5_AD43) / 0x4_0000
        % 0x4000) as usize
}

// The head of a source.
fn head(x: u64, heads: usize) -> usize
    requires { heads ≤ 0x4000 }
    ensures { result ≡ head_of heads x }
{
    mixed(x) * heads / 0x4000
}

// The last binary digit of a number.
fn digit(y: u64) -> usize
    ensures { (result ≡ y % 2) × (result < 2) }
{
    (y % 2) as usize
}

// Looks x up among the sources from number `first` on: the cell from which it is linked, or as an error that from which it is to be.
fn look_up(
    job: &[u8],
    base: usize,
    x: u64,
    heads: usize,
    first: usize,
    count: usize,
    links: &[u16],
    places: &[u16],
) -> Result<usize, usize>
    requires { Linked heads job.now base first count links.now places.now × (0 < heads) }
    ensures { MatchResult result
        (λ cell. Looked heads job.now base first count links.now places.now x cell true)
        (λ cell. Looked heads job.now base first count links.now places.now x cell false) }
{
    let mut cell = head(x, heads);
    let mut y = x;
    let mut v = links[cell] as usize;
    while v > first {
        let k = v - 1;
        let p = places[k] as usize;
        if key_at(job, base, p) == x {
            return Ok(cell);
        }
        cell = heads + 2 * k + digit(y);
        y /= 2;
        v = links[cell] as usize;
    }
    Err(cell)
}

// Adds the place p, unless a source from number `first` on is the same: how many numbers there are then.
pub fn add_place(
    job: &[u8],
    base: usize,
    p: u16,
    heads: usize,
    first: usize,
    count: usize,
    links: &mut [u16],
    places: &mut [u16],
) -> usize
    requires { Linked heads job.now base first count links.old places.old
        × (first ≤ count)
        × (4 * count + 4 ≤ heads)
        × (base + 8 * p + 8 ≤ length job.now) }
    ensures { PlaceAdded heads job.now base first count p places.old links.new places.new result }
{
    let x = key_at(job, base, p as usize);
    let Err(cell) = look_up(job, base, x, heads, first, count, links, places) else {
        return count;
    };
    links[cell] = (count + 1) as u16;
    links[heads + 2 * count] = 0;
    links[heads + 2 * count + 1] = 0;
    places[count] = p;
    count + 1
}

// Adds the n places from `from` on: those whose sources are the first of their kind, from number `first` on.
pub fn add_places(
    job: &[u8],
    base: usize,
    from: usize,
    n: usize,
    heads: usize,
    first: usize,
    count: usize,
    links: &mut [u16],
    places: &mut [u16],
) -> usize
    requires linked { Linked heads job.now base first count links.old places.old }
    requires first_le_count { (first ≤ count)
        × (4 * (count + n) ≤ heads)
        × (base + 8 * (from + n) ≤ length job.now)
        × (from + n ≤ 0x1_0000) }
    ensures { Covers heads job.now base first count from n places.old links.new places.new result }
{
    let mut found = count;
    for i in 0..n {
        found = add_place(
            job,
            base,
            (from + i) as u16,
            heads,
            first,
            found,
            links,
            places,
        );
    }
    found
}
