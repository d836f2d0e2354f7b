// Counting by a plan that passes, in groups of events: each step is read once for a group, and asked of a set of its events.
ghost use Rattle.std.specs.Prelude.{◌≡◌, false, ℕ, ◌+◌, ◌*◌, ◌<◌, ◌≤◌, ◌^◌, length, get_or};
ghost use Rattle.plans.specs.Refusals.{passed};
ghost use Rattle.plans.specs.Form.{width, check_of};
ghost use Rattle.counter.specs.Judging.{taken};
ghost use Rattle.counter.specs.Counting.{taken_at, tally_of};
ghost use Rattle.counter.specs.Inner.Groups.{SetOf, Those, first_of, from_to, Candidates, MemberSets, in_set, in_none};
ghost use Rattle.counter.specs.Inner.Raising.{bumped};

use crate::Tally;
use crate::reading::{bit_in, number_in, settle};
use crate::sets::{complement, event_of, step_of};

// Whether all values are on the scale. No jump, so that the machine asks several at once.
fn on_scale(values: &[i32]) -> bool
    ensures { result ≡ taken values.now }
{
    let mut good = true;
    for &v in values {
        good = good & (-65536 <= v) & (v <= 65535);
    }
    good
}

// The set of the events from one on, up to another.
fn from_to(from: usize, to: usize) -> u64
    requires { (from < to) × (to ≤ 64) × (to ≤ from + 8) }
    ensures { SetOf (from_to from to) result }
{
    ((1u64 << (to - from)) - 1) << from
}

// The events taken of those before `to`, where `taken` has those before `from`: asked one by one.
fn taken_each(group: &[i32], n: usize, taken: u64, from: usize, to: usize) -> u64
    requires { (from ≤ to) × (to ≤ 64) × (to * n ≤ length group.now) × SetOf (first_of (taken_at n group.now) from) taken }
    ensures { SetOf (first_of (taken_at n group.now) to) result }
{
    let mut all = taken;
    for e in from..to {
        let whole = on_scale(event_of(group, n, e));
        all = settle(all, e, whole);
    }
    all
}

// The same of at most eight events: spoilt ones are few, so all values are asked first.
fn taken_some(group: &[i32], n: usize, taken: u64, from: usize, to: usize) -> u64
    requires { (from < to) × (to ≤ 64) × (to * n ≤ length group.now) × SetOf (first_of (taken_at n group.now) from) taken × (to ≤ from + 8) }
    ensures { SetOf (first_of (taken_at n group.now) to) result }
{
    let start = from * n;
    let end = to * n;
    if on_scale(&group[start..end]) {
        return taken | from_to(from, to);
    }
    taken_each(group, n, taken, from, to)
}

// The events of a group that are taken; g is their number.
fn taken_of(group: &[i32], n: usize, g: usize) -> u64
    requires { (g ≤ 64) × (g * n ≤ length group.now) }
    ensures { SetOf (first_of (taken_at n group.now) g) result }
{
    let mut taken = 0u64;
    let mut e = 0;
    while e < g {
        let next = e + (g - e).min(8);
        taken = taken_some(group, n, taken, e, next);
        e = next;
    }
    taken
}

// The set of members of each region.
fn sets_of(plan: &[i32], group: &[i32], n: usize, g: usize, taken: u64) -> [u64; 64]
    requires { (check_of plan.now ≡ passed) × (n ≡ width plan.now) × Candidates n group.now g taken }
    ensures { MemberSets plan.now n group.now taken result }
{
    let mut sets = [0u64; 64];
    let mut at = 2;
    for _ in 0..number_in(plan, 1) {
        let found = step_of(plan, group, n, g, taken, &sets, at);
        let r = number_in(plan, at + 1);
        // No step before has set region r, so old is 0; the union spares the proof of it.
        let old = sets[r];
        sets[r] = old | found;
        at = at + 4 + number_in(plan, at + 3);
    }
    sets
}

// The events taken that are in none of the first m sets.
fn in_none(taken: u64, sets: &[u64; 64], m: usize) -> u64
    requires { (length sets.now ≡ 64) × (m ≤ 64) }
    ensures { Those taken (in_none sets.now m) result }
{
    let mut rest = taken;
    for q in 0..m {
        rest = rest & complement(sets[q]);
    }
    rest
}

// One more in the count of each region whose set has event e; none has from m on. As many turns for each event.
fn bump(counts: &mut [u64; 64], sets: &[u64; 64], e: usize, m: usize)
    requires { (length counts.old ≡ 64) × (length sets.now ≡ 64) × ((r : ℕ) → r < 64 → get_or counts.old r 0 < 2 ^ 63)
        × (m ≤ 64) × (e < 64) × ((r : ℕ) → m ≤ r → r < 64 → in_set sets.now e r ≡ false) }
    ensures { counts.new ≡ bumped counts.old (in_set sets.now e) }
{
    for r in 0..m {
        let x = counts[r];
        let set = sets[r];
        counts[r] = x + (set >> e) % 2;
    }
}

// The tally with the g events from the j-th on.
pub fn count_group(
    tally: Tally,
    plan: &[i32],
    events: &[i32],
    n: usize,
    j: usize,
    g: usize,
) -> Tally
    requires { (check_of plan.now ≡ passed) × (n ≡ width plan.now) × (tally ≡ tally_of plan.now events.now j)
        × (g ≤ 64) × ((j + g) * n ≤ length events.now) × (j + g < 2 ^ 62) }
    ensures { result ≡ tally_of plan.now events.now (j + g) }
{
    let start = j * n;
    let group = &events[start..start + g * n];
    let taken = taken_of(group, n, g);
    let sets = sets_of(plan, group, n, g, taken);
    let steps = number_in(plan, 1);
    let unclaimed = in_none(taken, &sets, steps);
    let mut t = tally;
    for e in 0..g {
        if bit_in(taken, e) {
            bump(&mut t.counts, &sets, e, steps);
            t.taken += 1;
            t.unclaimed += (unclaimed >> e) % 2;
        } else {
            t.spoilt += 1;
        }
    }
    t
}
