// The regions of a table by number: where each stands, its name, and what it refers to.
#![tactic(auto)]

ghost use Rattle.std.specs.Prelude.{◌≡◌, []};
ghost use Rattle.text.specs.Bounded.{tab};
ghost use Rattle.tables.specs.Table.{nth_region};
ghost use Rattle.resolve.specs.Inner.Reading.{regions_at};
ghost use Rattle.tableregions.specs.Inner.Located.{in_table, located_at, row_of};

use gatelines::regions::{region_count, region_name};
use graph::Rows;
use linenames::{has_reference, reference, reference_end};
use resolve::{Table, settle};

// A region's gate line, and which of its regions it is.
#[derive(Clone, Copy)]
pub struct Located {
    pub gate: usize,
    pub quadrant: usize,
}

// Where region r stands, if there is such a region.
pub fn locate(table: &Table, r: usize) -> Option<Located>
    ensures { result ≡ in_table table.now.gates (located_at table.now.text.now table.now.starts table.now.gates r) }
{
    let mut left = r;
    for gate in 0..table.gates {
        let m = region_count(table.line(gate));
        if left < m {
            return Some(Located {
                gate,
                quadrant: left,
            });
        }
        left -= m;
    }
    None
}

// The name of region r, and nothing where there is no such region.
pub fn name_at<'a>(table: &Table<'a>, r: usize) -> &'a [u8]
    ensures { result.now ≡ (nth_region (regions_at table.now.text.now table.now.starts table.now.gates) r).name }
{
    let Some(place) = locate(table, r) else {
        return &table.text[..0];
    };
    region_name(table.line(place.gate), place.quadrant)
}

// The regions that region r refers to, as bits; none where there is no such region.
fn region_row(table: &Table, r: usize) -> u64
    ensures { result ≡ row_of (regions_at table.now.text.now table.now.starts table.now.gates) r }
{
    let Some(place) = locate(table, r) else {
        return 0;
    };
    let line = table.line(place.gate);
    let mut row = 0u64;
    for k in 2..reference_end(line) {
        let number = table.number_of(reference(line, k));
        row = settle(row, number, has_reference(line, k));
    }
    row
}

// The references of all regions, row by row.
pub fn region_rows(table: &Table) -> Rows
    ensures { result.bits ≡ tab (row_of (regions_at table.now.text.now table.now.starts table.now.gates)) 64 }
{
    let mut rows = Rows::new();
    for r in 0..64 {
        rows.bits[r] = region_row(table, r);
    }
    rows
}
