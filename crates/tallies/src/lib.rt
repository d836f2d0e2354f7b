// Tallies added up.
#![tactic(auto)]

ghost use Rattle.std.specs.Prelude.{◌≡◌};
ghost use Rattle.tallies.specs.Sums.{together, wrapped};

use counter::Tally;
use std::num::wrapping_add_u64;

// The sum of two tallies, each number modulo 2^64.
pub fn sum(a: Tally, b: Tally) -> Tally
    ensures { result ≡ wrapped (together a b) }
{
    let taken = wrapping_add_u64(a.taken, b.taken);
    let spoilt = wrapping_add_u64(a.spoilt, b.spoilt);
    let unclaimed = wrapping_add_u64(a.unclaimed, b.unclaimed);
    let mut counts = a.counts;
    let mut r: usize = 0;
    while r < 64 {
        let x = counts[r];
        let y = b.counts[r];
        counts[r] = wrapping_add_u64(x, y);
        r += 1;
    }
    Tally {
        taken: taken,
        spoilt: spoilt,
        counts: counts,
        unclaimed: unclaimed,
    }
}
