// Testing the column lines of the lists of an input.
ghost use Rattle.std.specs.Prelude.{◌≡◌, cond, true, [], ◌∷◌};
ghost use Rattle.tables.specs.Columns.{columns_verdict};
ghost use Rattle.heads.specs.Answers.{columns_said};
ghost use Rattle.events.specs.Listing.{column_lines};
ghost use Rattle.events.specs.Inner.Columns.{columns_from};

use events::listing::opens;
use events::parting::split;
use heads::{WrongColumns, test_columns};
use text::lines::{find, line_from};
use text::output::rest_from;

// Tests a line by a table where it is a column line.
fn test_line(table: &[u8], line: &[u8], headed: bool) -> Result<(), WrongColumns>
    ensures { columns_said result ≡ columns_verdict table.now (cond headed (line.now ∷ []) []) }
{
    if headed {
        return test_columns(table, line);
    }
    Ok(())
}

// Tests the column lines in what stands behind the first `events`, line by line.
fn test_part(table: &[u8], part: &[u8]) -> Result<(), WrongColumns>
    ensures { columns_said result ≡ columns_verdict table.now (columns_from true true part.now 0) }
{
    let mut at = 0;
    // the next line is a column line
    let mut headed = true;
    while at <= part.len() {
        let line = line_from(part, at);
        test_line(table, line, headed)?;
        headed = !headed & opens(line, true);
        at = find(part, at, b'\n') + 1;
    }
    Ok(())
}

// Tests the column lines of all lists of an input by a table: the first wrong one is told.
pub fn test_lists(table: &[u8], input: &[u8]) -> Result<(), WrongColumns>
    ensures { columns_said result ≡ columns_verdict table.now (column_lines true input.now) }
{
    match split(input).start {
        Some(start) => test_part(table, rest_from(input, start)),
        None => Ok(()),
    }
}
