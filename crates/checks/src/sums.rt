// Refusal 8: the counts in the records against those of the header, in sums that cannot wrap.
ghost use Rattle.std.specs.Prelude.{◌≡◌, ◌+◌, ◌*◌, ◌≤◌, length};
ghost use Rattle.format.specs.Sizes.{boundary_size, observation_size};
ghost use Rattle.format.specs.Decode.{boundary_records, observation_records, observation_total, own_total, source_count};
ghost use Rattle.format.specs.Bounds.{max_boundaries, max_observations};
ghost use Rattle.checks.specs.Passed.{Laid};
ghost use Rattle.checks.specs.Single.{sums_fault};

use format::{BOUNDARY_SIZE, Header, OBSERVATION_SIZE, read_boundary, read_observation};

// The observations that the boundaries name.
pub fn observation_total(job: &[u8], at: usize, n: usize) -> u64
    requires { (at + n * boundary_size ≤ length job.now) × (n ≤ max_boundaries) }
    ensures { result ≡ observation_total (boundary_records job.now at n) }
{
    let mut total: u64 = 0;
    for i in 0..n {
        let b = read_boundary(job, at + i * BOUNDARY_SIZE);
        total += u64::from(b.observations);
    }
    total
}

// The sources that the boundaries name as their own.
pub fn own_total(job: &[u8], at: usize, n: usize) -> u64
    requires { (at + n * boundary_size ≤ length job.now) × (n ≤ max_boundaries) }
    ensures { (result ≡ own_total (boundary_records job.now at n)) × (result ≤ n * 0xFFFF_FFFF) }
{
    let mut total: u64 = 0;
    for i in 0..n {
        let b = read_boundary(job, at + i * BOUNDARY_SIZE);
        total += u64::from(b.sources);
    }
    total
}

// The sources of the observations.
pub fn source_count(job: &[u8], at: usize, n: usize) -> u64
    requires { (at + n * observation_size ≤ length job.now) × (n ≤ max_observations) }
    ensures { (result ≡ source_count (observation_records job.now at n)) × (result ≤ n * 0xFFFF_FFFF) }
{
    let mut total: u64 = 0;
    for i in 0..n {
        let o = read_observation(job, at + i * OBSERVATION_SIZE);
        total += u64::from(o.sources);
    }
    total
}

pub fn sums_fault(job: &[u8], h: Header) -> bool
    requires { Laid job.now h }
    ensures { result ≡ sums_fault job.now h.counts }
{
    let c = h.counts;
    let o = h.offsets;
    let at = o.boundaries as usize;
    let n = c.boundaries as usize;
    let observed = observation_total(job, at, n);
    let sources = own_total(job, at, n)
        + source_count(job, o.observations as usize, c.observations as usize);
    !((observed == u64::from(c.observations)) & (sources == u64::from(c.sources)))
}
