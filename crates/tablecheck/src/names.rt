// Names and references over the gate lines of a table, each of which passes 4 to 12: refusals 13 to 16.
ghost use Rattle.std.specs.Prelude.{◌≡◌, ◌&&◌, ℕ, ◌≤◌, ◌<◌, ltb, length};
ghost use Rattle.plans.specs.Bits.{has_bit};
ghost use Rattle.plans.specs.Indices.{first_bad};
ghost use Rattle.plans.specs.Refusals.{Verdict};
ghost use Rattle.tables.specs.Head.{gates};
ghost use Rattle.tables.specs.Refusals.{uncrowded, unrepeated, living, uncircled};
ghost use Rattle.graph.specs.Inner.Rows.{bit_at};
ghost use Rattle.resolve.specs.Inner.Reading.{gates_at, regions_at};
ghost use Rattle.tablecheck.specs.Inner.Names.{GoodLines, below, repeats_at, refers_by};
ghost use Rattle.tablecheck.specs.Inner.TextVerdict.{answered, names_verdict};

use crate::Refusal;
use gatelines::regions::region_count;
use graph::{Rows, reach};
use linenames::{has_reference, own_different, reference, reference_end, refers_to, shares_name};
use plans::bits::has_bit;
use resolve::{Table, settle};

// Whether gate i gives a name twice, or one that an earlier gate gives.
fn repeats(table: &Table, i: usize) -> bool
    ensures { result ≡ repeats_at table.now.text.now table.now.starts i }
{
    let line = table.line(i);
    !own_different(line) || (0..i).any(|j| shares_name(line, table.line(j)))
}

// The first gate that gives a name again, if there is one.
fn first_repeated(table: &Table) -> Option<usize>
    ensures { result ≡ below table.now.gates (first_bad (unrepeated (gates_at table.now.text.now table.now.starts table.now.gates)) 0 table.now.gates) }
{
    (0..table.gates).find(|&i| repeats(table, i))
}

// The first gate by which there are more than 64 regions, if there is one.
fn first_crowded(table: &Table) -> Option<usize>
    ensures { result ≡ below table.now.gates (first_bad (uncrowded (gates_at table.now.text.now table.now.starts table.now.gates)) 0 table.now.gates) }
{
    let mut total = 0;
    for i in 0..table.gates {
        let m = region_count(table.line(i));
        if 64 - total < m {
            return Some(i);
        }
        total += m;
    }
    None
}

// Whether each reference of gate i names a region.
fn is_living(table: &Table, i: usize) -> bool
    requires few { length (regions_at table.now.text.now table.now.starts table.now.gates) ≤ 64 }
    requires gate { i < table.now.gates }
    ensures { result ≡ living (gates_at table.now.text.now table.now.starts table.now.gates) i }
{
    let total = table.region_total();
    let line = table.line(i);
    (2..reference_end(line)).all(|k| !has_reference(line, k)
        || table.number_of(reference(line, k)) < total)
}

// The first gate that refers to no region, if there is one.
fn first_dead(table: &Table) -> Option<usize>
    requires { length (regions_at table.now.text.now table.now.starts table.now.gates) ≤ 64 }
    ensures { result ≡ below table.now.gates (first_bad (living (gates_at table.now.text.now table.now.starts table.now.gates)) 0 table.now.gates) }
{
    (0..table.gates).find(|&i| !is_living(table, i))
}

// The gates that gate i refers to, as bits.
fn gate_row(table: &Table, i: usize) -> u64
    ensures { (j : ℕ) → j < 64 → has_bit result j ≡ (ltb j table.now.gates && refers_by table.now.text.now table.now.starts i j) }
{
    let line = table.line(i);
    let mut row = 0u64;
    for j in 0..table.gates {
        row = settle(row, j, refers_to(line, table.line(j)));
    }
    row
}

// The references of at most 64 gates, row by row.
fn gate_rows(table: &Table) -> Rows
    requires { table.now.gates ≤ 64 }
    ensures { (i j : ℕ) → i < table.now.gates → j < table.now.gates → bit_at result.bits i j ≡ refers_by table.now.text.now table.now.starts i j }
{
    let mut rows = Rows::new();
    for i in 0..64 {
        rows.bits[i] = gate_row(table, i);
    }
    rows
}

// The first gate that reaches itself, if there is one.
fn first_circled(table: &Table) -> Option<usize>
    requires { table.now.gates ≤ 64 }
    ensures { result ≡ below table.now.gates (first_bad (uncircled (gates_at table.now.text.now table.now.starts table.now.gates)) 0 table.now.gates) }
{
    let rows = reach(gate_rows(table), table.gates);
    (0..table.gates).find(|&i| has_bit(rows.row(i), i))
}

// The first of refusals 13 to 16 that applies to a table whose lines are good, if one does.
pub fn names_refusal(text: &[u8]) -> Result<(), Refusal>
    requires { GoodLines text.now }
    ensures { (v : Verdict) → answered result v ≡ names_verdict (gates text.now) v }
{
    let table = Table::new(text).up_to(65);
    if let Some(gate) = first_crowded(&table) {
        return Err(Refusal::Crowded { line: gate + 2 });
    }
    if let Some(gate) = first_repeated(&table) {
        return Err(Refusal::TwinName { line: gate + 2 });
    }
    if let Some(gate) = first_dead(&table) {
        return Err(Refusal::DeadReference { line: gate + 2 });
    }
    if let Some(gate) = first_circled(&table) {
        return Err(Refusal::Circle { line: gate + 2 });
    }
    Ok(())
}
