// The sheet of a whole input: what `gatesheet` prints.
#![tactic(auto)]

mod columns;
mod counting;
mod numbers;
mod printing;

ghost use Rattle.std.specs.Prelude.{◌≡◌, ◌≤◌, length};
ghost use Rattle.text.specs.Output.{Writes};
ghost use Rattle.sheet.specs.Sheet.{sheet_of};

use crate::columns::test_lists;
use crate::counting::count_lists;
use crate::numbers::Columns;
use crate::printing::put_sheet;
use compiler::compile;
use events::listing::ragged_line;
use events::parting::split;
use events::printing::{put_refusal, put_refused};
use gatefields::fields::name_count;
use heads::head_line;

// Writes the sheet of an input of at most 65,536 bytes, with room for its plan, the events of one list and the numbers of every list.
fn put_input(
    input: &[u8],
    plan: &mut [i32],
    list: &mut [i32],
    columns: &mut [u32],
    out: &mut [u8],
) -> usize
    requires { (length input.now ≤ 65536) × (length plan.old ≡ 4096) × (length list.old ≡ 32768) × (length columns.old ≡ 627254) }
    ensures { Writes (sheet_of input.now) out.old out.new result }
{
    let end = split(input).table;
    let table = &input[..end];
    let ragged = ragged_line(input, name_count(head_line(table)), true, true);
    let written = match compile(table, plan) {
        Ok(written) => written,
        Err(refusal) => return put_refusal(out, refusal),
    };
    if let Err(wrong) = test_lists(table, input) {
        return put_refusal(out, wrong);
    }
    if let Some(line) = ragged {
        return put_refused(out, 23, line as u64);
    }
    let counts = count_lists(input, end, &plan[..written.words], list, columns);
    put_sheet(
        out,
        table,
        written.regions,
        &Columns {
            numbers: columns,
            lists: counts.lists,
        },
        &counts.total,
    )
}

// Room for 67 numbers of each of 9,362 lists: more do not begin in 65,536 bytes. (A function: where so many zeros are lent as they stand, the check
// runs out of stack.)
fn columns_room() -> [u32; 627254]
    ensures { length result ≡ 627254 }
{
    [0; 627254]
}

// Writes the sheet of an input over the beginning of out, as far as it goes, and answers how long it is: at most 1,300,000 bytes
// (the theorem sheet-fits).
pub fn sheet(input: &[u8], out: &mut [u8]) -> usize
    ensures { Writes (sheet_of input.now) out.old out.new result }
{
    if 65536 < input.len() {
        return put_refused(out, 1, 0);
    }
    // room for the words of a plan, and for the values of a list
    let mut plan = [0; 4096];
    let mut list = [0; 32768];
    let mut columns = columns_room();
    put_input(input, &mut plan, &mut list, &mut columns, out)
}
