// Counting events by a table in one call, and demand 3 for it.
#![tactic(auto)]

ghost use Rattle.std.specs.Prelude.{◌≡◌};
ghost use Rattle.counttable.specs.declared.Refusal.TheVariants.{Table, Columns, List};
ghost use Rattle.tables.specs.TableCount.{count_table_of};
ghost use Rattle.tables.specs.Demand.{KeepsDemand3};
ghost use Rattle.counttable.specs.Answers.{table_counting, count_refusal};
ghost use Rattle.counttable.specs.Inner.Ragged.{ragged};

use compiler::{compile, table_verdict};
use counter::Tally;
use counter::counting::count;
use gatefields::fields::name_count;
use heads::{WrongColumns, head_line, test_columns};
use plans::refusals::Numbered;

// What counting by a table answers: the words and regions of the plan that was written and counted by, and the tally.
#[derive(Clone, Copy)]
pub struct Counted {
    pub words: usize,
    pub regions: usize,
    pub tally: Tally,
}

// Why nothing is counted: the table is refused (1 to 18), or the list's column line (31), or the list (21 to 23).
#[derive(Clone, Copy, Debug, PartialEq, Eq)]
pub enum Refusal {
    Table(compiler::Refusal),
    Columns(WrongColumns),
    List(plans::Refusal),
}

impl From<compiler::Refusal> for Refusal {
    ghost from_gives = { λ r e. e ≡ Table r };

    fn from(r: compiler::Refusal) -> Refusal {
        Refusal::Table(r)
    }
}

impl From<WrongColumns> for Refusal {
    ghost from_gives = { λ r e. e ≡ Columns r };

    fn from(r: WrongColumns) -> Refusal {
        Refusal::Columns(r)
    }
}

impl From<plans::Refusal> for Refusal {
    ghost from_gives = { λ r e. e ≡ List r };

    fn from(r: plans::Refusal) -> Refusal {
        Refusal::List(r)
    }
}

impl Numbered for Refusal {
    ghost verdict = { count_refusal };

    fn number(self) -> u64 {
        match self {
            Refusal::Table(r) => r.number(),
            Refusal::Columns(r) => r.number(),
            Refusal::List(r) => r.number(),
        }
    }

    fn place(self) -> u64 {
        match self {
            Refusal::Table(r) => r.place(),
            Refusal::Columns(r) => r.place(),
            Refusal::List(r) => r.place(),
        }
    }
}

// Whether m values are no complete events of n values.
fn is_ragged(n: usize, m: usize) -> bool
    ensures { result ≡ ragged n m }
{
    n != 0 && m % n != 0
}

// Compiles a table into a slice, then checks and counts by exactly the words that compiling reported; `columns` is the list's column line, without its
// LF. The slice is written only where nothing is refused: a wrong column line, or a list that is no whole number of events, is seen before.
pub fn count_table(
    table: &[u8],
    columns: &[u8],
    plan: &mut [i32],
    events: &[i32],
) -> Result<Counted, Refusal>
    ensures plan_after { table_counting result plan.new
        ≡ count_table_of table.now columns.now plan.old events.now }
    ensures keeps_demand3 { KeepsDemand3 table.now columns.now plan.old events.now (table_counting result plan.new) }
{
    let tested = test_columns(table, columns);
    if tested.is_err() || is_ragged(name_count(head_line(table)), events.len()) {
        table_verdict(table, plan.len())?;
        tested?;
        return Err(Refusal::List(plans::Refusal::Ragged {
            length: events.len(),
        }));
    }
    let written = compile(table, plan)?;
    let tally = count(&plan[..written.words], events)?;
    Ok(Counted {
        words: written.words,
        regions: written.regions,
        tally,
    })
}
