// The step of a region of a table, written over the beginning of a lent rest, and the number of a region's parent.
#![tactic(auto)]

ghost use Rattle.std.specs.Prelude.{◌≡◌};
ghost use Rattle.text.specs.Lines.{fields};
ghost use Rattle.text.specs.Output.{Writes};
ghost use Rattle.tables.specs.Head.{dimensions};
ghost use Rattle.tables.specs.Table.{nth_region};
ghost use Rattle.resolve.specs.Inner.Reading.{fields_at, regions_at};
ghost use Rattle.writer.specs.Inner.Words.{step_by, operand_at, parent_number, line_step};
ghost use Rattle.stepwriter.specs.Inner.Parents.{number_of_parent};

use gatefields::fields::{is_complement, is_none, operand_name};
use gatelines::regions::{body_length, operand_field, parent_field, step_number};
use heads::head_line;
use resolve::Table;
use tableregions::{Located, locate};
use writer::{has_operands, put_header, put_leaf_step, put_operand};

// The number of the parent of a gate line among the regions of a table; 64 for none.
fn parent_number(table: &Table, line: &[u8]) -> usize
    ensures { result ≡ parent_number (regions_at table.now.text.now table.now.starts table.now.gates) (fields line.now) }
{
    let name = parent_field(line);
    if is_none(name) {
        64
    } else {
        table.number_of(name)
    }
}

// The number of the parent of region r; 64 for none, and where there is no such region.
pub fn parent_at(table: &Table, r: usize) -> usize
    ensures { result ≡ number_of_parent (regions_at table.now.text.now table.now.starts table.now.gates)
        (nth_region (regions_at table.now.text.now table.now.starts table.now.gates) r).parent }
{
    match locate(table, r) {
        Some(place) => parent_number(table, table.line(place.gate)),
        None => 64,
    }
}

// Writes the step of a combination over the beginning of rest, and answers how many words it has. Its operands are among the table's regions.
fn put_combination_step(
    rest: &mut [i32],
    table: &Table,
    line: &[u8],
    region: usize,
    parent: usize,
) -> usize
    ensures { Writes
        (step_by (fields line.now) region parent (operand_at (regions_at table.now.text.now table.now.starts table.now.gates) (fields line.now)))
        rest.old rest.new result }
{
    let m = body_length(line);
    put_header(rest, step_number(line), region, parent, m);
    for j in 0..m {
        let operand = operand_field(line, j);
        let number = table.number_of(operand_name(operand));
        put_operand(rest, 4 + j, number, is_complement(operand));
    }
    4 + m
}

// Writes the step of a region over the beginning of rest, as far as it goes, and answers how many words it has.
pub fn put_step(rest: &mut [i32], table: &Table, place: Located, region: usize) -> usize
    ensures { Writes (line_step (dimensions table.now.text.now) (regions_at table.now.text.now table.now.starts table.now.gates)
        (fields_at table.now.text.now table.now.starts place.gate) place.quadrant region)
        rest.old rest.new result }
{
    let line = table.line(place.gate);
    let parent = parent_number(table, line);
    if has_operands(line) {
        return put_combination_step(rest, table, line, region, parent);
    }
    put_leaf_step(
        rest,
        head_line(table.text),
        line,
        place.quadrant,
        region,
        parent,
    )
}
