// The lines of a sheet, written into a slice that is lent.
ghost use Rattle.std.specs.Prelude.{◌≡◌, ◌+◌, ◌*◌, ◌<◌, ◌≤◌, length, get_or};
ghost use mathlib.Core.List.{[], ◌∷◌, ◌++◌, flat_map};
ghost use Rattle.text.specs.Output.{Writes};
ghost use Rattle.text.specs.Inner.Writing.{WritesFrom};
ghost use Rattle.tallies.specs.Inner.Bounds.{Within};
ghost use Rattle.gates.specs.Gate.{regions};
ghost use Rattle.tables.specs.Head.{gates};
ghost use Rattle.tables.specs.Refusals.{table_verdict};
ghost use Rattle.resolve.specs.Inner.Reading.{gates_at};
ghost use Rattle.events.specs.Printing.{number_field, numbers_line};
ghost use Rattle.report.specs.Report.{region_lines};
ghost use Rattle.report.specs.Inner.Short.{Printable};
ghost use Rattle.sheet.specs.Inner.Numbers.{column, count_by, numbers_by, summaries_by, lines_by, Placed};

use crate::numbers::Columns;
use counter::Tally;
use events::printing::{put_bytes_from, put_count_from, put_field_from};
use resolve::Table;
use stepwriter::parent_at;
use tableregions::name_at;

// The count of the region of that number; the number taken for 64.
#[tactic(auto, unfolding(crate::specs::Inner::Numbers::count_by))]
fn count_by(tally: &Tally, r: usize) -> u64
    ensures { result ≡ count_by tally.now r }
{
    tally.counts.get(r).copied().unwrap_or(tally.taken)
}

// Writes number r of each list from index `at` on, as far as out goes, and answers how many bytes they are.
fn put_column(out: &mut [u8], at: usize, columns: &Columns, r: usize) -> usize
    requires { (at ≤ 2000000000) × (r < 67) }
    ensures writes_from { WritesFrom at (flat_map number_field (column columns.now r)) out.old out.new result }
    ensures within { result ≤ 21 * columns.now.lists }
{
    let mut bytes: usize = 0;
    for j in 0..columns.lists {
        bytes += put_field_from(out, at + bytes, columns.number(j, r));
    }
    bytes
}

// Writes a name, number r of each list and their sum from index `at` on: the beginning of a line.
fn put_listed(
    out: &mut [u8],
    at: usize,
    name: &[u8],
    columns: &Columns,
    r: usize,
    sum: u64,
) -> usize
    requires { Placed at r × (length name.now ≤ 16) }
    ensures writes_from { WritesFrom at (name.now ++ (flat_map number_field (column columns.now r) ++ number_field sum))
        out.old out.new result }
    ensures within { result ≤ 21 * columns.now.lists + 37 }
{
    let a = put_bytes_from(out, at, name);
    let b = a + put_column(out, at + a, columns, r);
    b + put_field_from(out, at + b, sum)
}

// Writes the line of region r, whose parent has that number.
fn put_region(
    out: &mut [u8],
    at: usize,
    name: &[u8],
    columns: &Columns,
    r: usize,
    total: &Tally,
    parent: usize,
) -> usize
    requires { Placed at r × (length name.now ≤ 16) × (r ≤ 63) }
    ensures writes_from { WritesFrom at (numbers_line name.now (column columns.now r
        ++ (get_or total.now.counts r 0 ∷ get_or total.now.counts r 0 ∷ count_by total.now parent ∷ []))) out.old out.new result }
    ensures within { result ≤ 21 * columns.now.lists + 80 }
{
    let count = count_by(total, r);
    let a = put_listed(out, at, name, columns, r, count);
    let b = a + put_field_from(out, at + a, count);
    let c = b + put_field_from(out, at + b, count_by(total, parent));
    c + put_bytes_from(out, at + c, b"\n")
}

// Writes a line that follows the regions.
fn put_summary(
    out: &mut [u8],
    at: usize,
    name: &[u8],
    columns: &Columns,
    r: usize,
    sum: u64,
) -> usize
    requires { Placed at r × (length name.now ≤ 16) }
    ensures writes_from { WritesFrom at (numbers_line name.now (column columns.now r ++ (sum ∷ [])))
        out.old out.new result }
    ensures within { result ≤ 21 * columns.now.lists + 38 }
{
    let a = put_listed(out, at, name, columns, r, sum);
    a + put_bytes_from(out, at + a, b"\n")
}

// Writes the lines of the first m regions of a table over the beginning of out, as far as it goes, and answers how long they are.
fn put_regions(out: &mut [u8], table: &Table, m: usize, columns: &Columns, total: &Tally) -> usize
    requires { Printable (regions (gates_at table.now.text.now table.now.starts table.now.gates)) m }
    ensures writes { Writes (region_lines (regions (gates_at table.now.text.now table.now.starts table.now.gates))
        (numbers_by (regions (gates_at table.now.text.now table.now.starts table.now.gates)) columns.now.numbers.now columns.now.lists total.now) m)
        out.old out.new result }
    ensures within { result ≤ 12800000 }
{
    let mut at: usize = 0;
    for r in 0..m {
        let name = name_at(table, r);
        let parent = parent_at(table, r);
        at += put_region(out, at, name, columns, r, total, parent);
    }
    at
}

// Writes the lines that follow the regions, from index `at` on: this function decides which they are.
fn put_summaries(out: &mut [u8], at: usize, columns: &Columns, total: &Tally) -> usize
    requires { at ≤ 12800000 }
    ensures writes_from { WritesFrom at (summaries_by columns.now.numbers.now columns.now.lists total.now) out.old out.new result }
    ensures within { result ≤ 600000 }
{
    let a = put_summary(out, at, b"taken", columns, 64, total.taken);
    let b = a + put_summary(out, at + a, b"unclaimed", columns, 66, total.unclaimed);
    b + put_summary(out, at + b, b"spoilt", columns, 65, total.spoilt)
}

// Writes the lines of a sheet over the beginning of out, as far as it goes, by an accepted table with m regions.
pub fn put_sheet(out: &mut [u8], text: &[u8], m: usize, columns: &Columns, total: &Tally) -> usize
    requires { ((table_verdict 4096 text.now).number ≡ 0) × (m ≡ length (regions (gates text.now))) × Within 1000000000 total.now }
    ensures { Writes (lines_by text.now columns.now.numbers.now columns.now.lists total.now) out.old out.new result }
{
    let a = put_regions(out, &Table::new(text), m, columns, total);
    let b = a + put_summaries(out, a, columns, total);
    b + put_count_from(out, b, b"events", total.taken + total.spoilt)
}
