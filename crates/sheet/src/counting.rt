// Counting the lists of an input by a plan: the numbers of each, and their sum.
ghost use Rattle.std.specs.Prelude.{◌≡◌, ◌≤◌, length};
ghost use Rattle.text.specs.Output.{Writes};
ghost use Rattle.text.specs.Inner.Writing.{WritesFrom};
ghost use Rattle.counter.specs.Counting.{count_of};
ghost use Rattle.tallies.specs.Inner.Bounds.{Within};
ghost use Rattle.events.specs.Parting.{table_end};
ghost use Rattle.events.specs.Listing.{values};
ghost use Rattle.sheet.specs.Inner.Columns.{numbers_of};
ghost use Rattle.sheet.specs.Inner.Counts.{SomeEvents, SomeLists, CountedLists};

use counter::counting::count;
use counter::{Tally, no_tally};
use events::listing::put_lines;
use events::parting::split;
use tallies::sum;
use text::lines::find;
use text::output::{put, put_from, rest_from};

// How many lists there are, and the sum of their tallies.
#[derive(Clone, Copy)]
pub struct Counts {
    pub lists: usize,
    pub total: Tally,
}

// Writes the numbers of a tally over the beginning of rest, as far as it goes, and answers how many there are.
fn put_numbers(rest: &mut [u32], tally: Tally) -> usize
    requires { Within 32768 tally }
    ensures { Writes (numbers_of tally) rest.old rest.new result }
{
    for r in 0..64 {
        put(rest, r, tally.counts[r] as u32);
    }
    put(rest, 64, tally.taken as u32);
    put(rest, 65, tally.spoilt as u32);
    put(rest, 66, tally.unclaimed as u32);
    67
}

// The same from index a on.
fn put_numbers_from(columns: &mut [u32], a: usize, tally: Tally) -> usize
    requires { Within 32768 tally }
    ensures { WritesFrom a (numbers_of tally) columns.old columns.new result }
{
    put_from(columns, a, |rest: &mut [u32]| put_numbers(rest, tally))
}

// The tally of the events of a text, with room for their values.
fn count_list(part: &[u8], plan: &[i32], list: &mut [i32]) -> Tally
    requires { (length part.now ≤ 65535) × (length list.old ≡ 32768) × SomeEvents part.now }
    ensures { (result ≡ (count_of plan.now (values part.now)).tally) × Within 32768 result × (length list.new ≡ 32768) }
{
    let m = put_lines(list, part);
    match count(plan, &list[..m]) {
        Ok(tally) => tally,
        Err(_) => no_tally(),
    }
}

// Counts the lists of an input, of which the first begins at place `from`, and writes the numbers of each over the columns.
pub fn count_lists(
    input: &[u8],
    from: usize,
    plan: &[i32],
    list: &mut [i32],
    columns: &mut [u32],
) -> Counts
    requires { (length input.now ≤ 65536) × (from ≡ table_end input.now) × SomeLists input.now × (length list.old ≡ 32768) }
    ensures { CountedLists plan.now input.now columns.old result columns.new }
{
    let mut at = from;
    let mut lists: usize = 0;
    let mut total = no_tally();
    while at < input.len() {
        let begin = find(input, at + 7, b'\n') + 1;
        let part = rest_from(input, begin);
        let end = split(part).table;
        let tally = count_list(&part[..end], plan, list);
        put_numbers_from(columns, lists * 67, tally);
        total = sum(total, tally);
        lists += 1;
        at = begin + end;
    }
    Counts { lists, total }
}
