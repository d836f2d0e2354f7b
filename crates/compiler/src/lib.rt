// Compiling a table into a lent slice.
#![tactic(auto)]

ghost use Rattle.std.specs.Prelude.{◌≡◌, ◌≤◌, ◌<◌, length, eqb};
ghost use Rattle.plans.specs.Refusals.{passed};
ghost use Rattle.text.specs.Output.{Writes};
ghost use Rattle.text.specs.Inner.Writing.{WritesFrom};
ghost use Rattle.tables.specs.Head.{dimensions};
ghost use Rattle.tables.specs.Steps.{order, step_words, steps_words, plan_words};
ghost use Rattle.tables.specs.Refusals.{table_verdict};
ghost use Rattle.tables.specs.Compile.{compile_of};
ghost use Rattle.resolve.specs.Inner.Reading.{regions_at};
ghost use Rattle.tableregions.specs.Inner.Settled.{Settled};
ghost use Rattle.compiler.specs.Answers.{acceptance, accepts, compiling};
ghost use Rattle.compiler.specs.Inner.Unrefused.{Unrefused};

use gatefields::fields::name_count;
use graph::next_row;
use heads::head_line;
use plans::bits::with_bit;
use resolve::Table;
use stepwriter::put_step;
pub use tablecheck::Refusal;
use tablecheck::check_table;
use tableregions::{locate, region_rows};
use writer::put_number;

// What compiling wrote.
#[derive(Clone, Copy, Debug, PartialEq, Eq)]
pub struct Written {
    pub words: usize,
    pub regions: usize,
}

// Lends what stands from index `at` on to the step writer, for the step of region r, and answers how many words the step has.
fn put_step_from(rest: &mut [i32], at: usize, table: &Table, r: usize) -> usize
    requires settled { Settled table.now.text.now table.now.starts table.now.gates }
    requires region { r < length (regions_at table.now.text.now table.now.starts table.now.gates) }
    ensures { WritesFrom at (step_words (regions_at table.now.text.now table.now.starts table.now.gates) r) rest.old rest.new result }
{
    let b = at.min(rest.len());
    match locate(table, r) {
        Some(place) => put_step(&mut rest[b..], table, place, r),
        // never: there is region r
        None => 0,
    }
}

// Writes the steps in their order over the beginning of rest, as far as it goes, and answers how many words they have.
fn put_steps(rest: &mut [i32], table: &Table, total: usize) -> usize
    requires settled { Settled table.now.text.now table.now.starts table.now.gates }
    requires total { total ≡ length (regions_at table.now.text.now table.now.starts table.now.gates) }
    ensures within { result ≤ 4194496 }
    ensures writes { Writes (steps_words (regions_at table.now.text.now table.now.starts table.now.gates)
        (order (regions_at table.now.text.now table.now.starts table.now.gates))) rest.old rest.new result }
{
    let rows = region_rows(table);
    let mut written = 0u64;
    let mut at: usize = 0;
    for _ in 0..total {
        let r = next_row(&rows, written, total);
        if total <= r {
            return at;
        }
        at += put_step_from(rest, at, table, r);
        written = with_bit(written, r);
    }
    at
}

// Writes the plan over the beginning of a slice, as far as it goes, and answers how many words the plan has.
fn put_plan(plan: &mut [i32], table: &Table) -> usize
    requires { Settled table.now.text.now table.now.starts table.now.gates }
    ensures { Writes (plan_words (length (dimensions table.now.text.now)) (regions_at table.now.text.now table.now.starts table.now.gates))
        plan.old plan.new result }
{
    let total = table.region_total();
    put_number(plan, 0, name_count(head_line(table.text)));
    put_number(plan, 1, total);
    let b = 2.min(plan.len());
    2 + put_steps(&mut plan[b..], table, total)
}

// 17 and 18 of a table to which none of refusals 1 to 16 applies: its plan is measured by writing over next to nothing, and no slice is needed.
fn measured(table: &[u8], room: usize) -> Result<(), Refusal>
    requires { Unrefused table.now }
    ensures verdict { acceptance result ≡ table_verdict room table.now }
    ensures accepted { accepts result ≡ eqb (table_verdict room table.now).number 0 }
{
    let mut word = [0i32; 1];
    let words = put_plan(&mut word, &Table::new(table));
    if 4096 < words {
        return Err(Refusal::LongPlan);
    }
    if room < words {
        return Err(Refusal::ShortSlice);
    }
    Ok(())
}

// The refusal of 1 to 18 of a table for a slice of that many words, if there is one. Nothing is written.
pub fn table_verdict(table: &[u8], room: usize) -> Result<(), Refusal>
    ensures verdict { acceptance result ≡ table_verdict room table.now }
    ensures accepted { accepts result ≡ eqb (table_verdict room table.now).number 0 }
{
    check_table(table)?;
    measured(table, room)
}

// Compiles a table whose plan fits.
fn compile_accepted(table: &[u8], plan: &mut [i32]) -> Written
    requires { table_verdict (length plan.old) table.now ≡ passed }
    ensures { compiling (Ok result) plan.new ≡ compile_of table.now plan.old }
{
    let lines = Table::new(table);
    Written {
        words: put_plan(plan, &lines),
        regions: lines.region_total(),
    }
}

// Compiles a table: writes its plan over the beginning of a slice, and answers the words and regions written, or the refusal of 1 to 18, the slice
// then unchanged.
pub fn compile(table: &[u8], plan: &mut [i32]) -> Result<Written, Refusal>
    ensures { compiling result plan.new ≡ compile_of table.now plan.old }
{
    table_verdict(table, plan.len())?;
    Ok(compile_accepted(table, plan))
}
