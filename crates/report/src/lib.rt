// The report of a whole input: what `gatecount` prints.
#![tactic(auto)]

ghost use Rattle.std.specs.Prelude.{◌≡◌, [], ◌∷◌, ◌≤◌, length};
ghost use Rattle.text.specs.Output.{Writes};
ghost use Rattle.gates.specs.Gate.{regions};
ghost use Rattle.tables.specs.Head.{gates};
ghost use Rattle.tables.specs.Refusals.{table_verdict};
ghost use Rattle.resolve.specs.Inner.Reading.{gates_at};
ghost use Rattle.tables.specs.Columns.{columns_verdict};
ghost use Rattle.events.specs.Listing.{list, ragged};
ghost use Rattle.events.specs.Printing.{refused_line, unless_refused};
ghost use Rattle.report.specs.Report.{region_lines, count_numbers, tally_lines, printed, report_of};
ghost use Rattle.report.specs.Inner.Short.{Printable};
ghost use Rattle.report.specs.Inner.ColumnLine.{column_line};

use compiler::table_verdict;
use counter::Tally;
use counttable::count_table;
use events::listing::{ListRefusal, read_events};
use events::parting::split;
use events::printing::{put_count_from, put_refusal, put_refused, put_spoilt, put_taken};
use gatefields::fields::name_count;
use heads::{head_line, right_line, test_columns};
use resolve::Table;
use tableregions::name_at;
use text::lines::line_from;
use text::output::rest_from;

// Writes the lines of the first m regions of a table over the beginning of out, as far as it goes, and answers how long they are.
fn put_regions(out: &mut [u8], table: &Table, m: usize, counts: &[u64; 64]) -> usize
    requires { Printable (regions (gates_at table.now.text.now table.now.starts table.now.gates)) m }
    ensures writes { Writes (region_lines (regions (gates_at table.now.text.now table.now.starts table.now.gates)) (count_numbers counts.now) m)
        out.old out.new result }
    ensures within { result ≤ 2432 }
{
    let mut at: usize = 0;
    for r in 0..m {
        at += put_count_from(out, at, name_at(table, r), counts[r]);
    }
    at
}

// Writes the lines of a tally over the beginning of out, by an accepted table with m regions.
fn put_tally(out: &mut [u8], text: &[u8], m: usize, tally: &Tally) -> usize
    requires { ((table_verdict 4096 text.now).number ≡ 0) × (m ≡ length (regions (gates text.now))) }
    ensures { Writes (tally_lines (regions (gates text.now)) tally.now) out.old out.new result }
{
    let a = put_regions(out, &Table::new(text), m, &tally.counts);
    let b = a + put_taken(out, a, tally.taken);
    b + put_spoilt(out, b, tally.spoilt)
}

// The column line of an input's list: the line behind `events`. Where no list is opened none is asked for, and the right one stands for it.
fn column_line(input: &[u8]) -> &[u8]
    ensures { result.now ≡ column_line input.now }
{
    let parted = split(input);
    match parted.start {
        Some(start) => line_from(rest_from(input, start), 0),
        None => right_line(&input[..parted.table]),
    }
}

// Writes what counting a list of values by a table prints, with room for its plan.
fn put_counted(
    out: &mut [u8],
    table: &[u8],
    columns: &[u8],
    plan: &mut [i32],
    values: &[i32],
) -> usize
    requires { length plan.old ≡ 4096 }
    ensures { Writes (printed table.now (columns.now ∷ []) (list values.now)) out.old out.new result }
{
    match count_table(table, columns, plan, values) {
        Ok(counted) => put_tally(out, table, counted.regions, &counted.tally),
        Err(refusal) => put_refusal(out, refusal),
    }
}

// Writes what an accepted table with a ragged line of events prints: a wrong column line comes first.
fn put_bad_line(out: &mut [u8], table: &[u8], columns: &[u8], line: usize) -> usize
    ensures { Writes (unless_refused (columns_verdict table.now (columns.now ∷ [])) (refused_line 23 line))
        out.old out.new result }
{
    match test_columns(table, columns) {
        Ok(()) => put_refused(out, 23, line as u64),
        Err(wrong) => put_refusal(out, wrong),
    }
}

// Writes what a table with a ragged line of events prints: the table's refusals come first.
fn put_ragged(out: &mut [u8], table: &[u8], columns: &[u8], line: usize) -> usize
    ensures { Writes (printed table.now (columns.now ∷ []) (ragged line)) out.old out.new result }
{
    match table_verdict(table, 4096) {
        Ok(()) => put_bad_line(out, table, columns, line),
        Err(refusal) => put_refusal(out, refusal),
    }
}

// Writes the report of an input of at most 65,536 bytes, with room for its plan and its events.
fn put_report(input: &[u8], plan: &mut [i32], list: &mut [i32], out: &mut [u8]) -> usize
    requires { (length input.now ≤ 65536) × (length plan.old ≡ 4096) × (length list.old ≡ 32768) }
    ensures { Writes (report_of input.now) out.old out.new result }
{
    let table = &input[..split(input).table];
    let columns = column_line(input);
    match read_events(input, name_count(head_line(table)), true, list) {
        Ok(k) => put_counted(out, table, columns, plan, &list[..k]),
        Err(ListRefusal::Ragged { line }) => put_ragged(out, table, columns, line),
        // never: 65,536 bytes hold at most 32,768 values
        Err(ListRefusal::Short) => 0,
    }
}

// Writes the report of an input over the beginning of out, as far as it goes, and answers how long it is: at most 4,096 bytes
// (the theorem report-fits).
pub fn report(input: &[u8], out: &mut [u8]) -> usize
    ensures { Writes (report_of input.now) out.old out.new result }
{
    if 65536 < input.len() {
        return put_refused(out, 1, 0);
    }
    // room for the words of a plan, and for the values of 65,536 bytes
    let mut plan = [0; 4096];
    let mut list = [0; 32768];
    put_report(input, &mut plan, &mut list, out)
}
