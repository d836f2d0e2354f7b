// Line 1 of a table: refusal 3; and the column line of a list by it: refusal 31.
#![tactic(auto)]

ghost use Rattle.std.specs.Prelude.{◌≡◌, [], ◌∷◌, length, get_or, drop};
ghost use Rattle.text.specs.Bytes.{every};
ghost use Rattle.text.specs.Lines.{fields, lines};
ghost use Rattle.text.specs.Names.{is_name};
ghost use Rattle.tables.specs.Table.{different};
ghost use Rattle.tables.specs.Head.{is_dims, head_good};
ghost use Rattle.tables.specs.Columns.{first_differing, right_line, columns_verdict};
ghost use Rattle.heads.specs.Answers.{columns_said, wrong_columns};

use plans::refusals::Numbered;
use text::lines::{field, field_count, find, find_field, line_from};
use text::names::{is_name, same};

// Line 1.
pub fn head_line(text: &[u8]) -> &[u8]
    ensures { result.now ≡ get_or (lines text.now) 0 [] }
{
    line_from(text, 0)
}

fn is_dims(x: &[u8]) -> bool
    ensures { result ≡ is_dims x.now }
{
    same(x, b"dims")
}

// Whether each field behind the first is a name.
fn all_names(head: &[u8]) -> bool
    ensures { result ≡ every is_name (drop 1 (fields head.now)) }
{
    (1..field_count(head)).all(|k| is_name(field(head, k)))
}

// Whether the fields behind the first are different.
fn all_different(head: &[u8]) -> bool
    ensures { result ≡ different (drop 1 (fields head.now)) }
{
    (1..field_count(head)).all(|k| find_field(head, 1, field(head, k)) == k)
}

// Whether line 1 is `dims` and 1 to 8 different names.
pub fn head_good(text: &[u8]) -> bool
    ensures { result ≡ head_good text.now }
{
    let head = head_line(text);
    let n = field_count(head);
    let sized = (2 <= n) & (n <= 9);
    is_dims(field(head, 0)) & (sized & (all_names(head) & all_different(head)))
}

// A column line that is not right: refusal 31, with the first field that differs.
#[derive(Clone, Copy, Debug, PartialEq, Eq)]
pub struct WrongColumns {
    pub field: usize,
}

impl Numbered for WrongColumns {
    ghost verdict = { wrong_columns };

    fn number(self) -> u64 {
        31
    }

    fn place(self) -> u64 {
        self.field as u64
    }
}

// The first field of a line that differs from a head's names, or the end of the shorter. A field is searched for in the head from its own place on.
fn first_differing(head: &[u8], line: &[u8]) -> usize
    ensures { result ≡ first_differing (drop 1 (fields head.now)) (fields line.now) }
{
    let n = field_count(head);
    let m = field_count(line);
    let mut k: usize = 0;
    while (k < m) & (k + 1 < n) {
        let name = k + 1;
        if name < find_field(head, name, field(line, k)) {
            return k;
        }
        k += 1;
    }
    k
}

// Tests the column line of a list, without its LF, by a table.
pub fn test_columns(table: &[u8], columns: &[u8]) -> Result<(), WrongColumns>
    ensures { columns_said result ≡ columns_verdict table.now (columns.now ∷ []) }
{
    let head = head_line(table);
    let n = field_count(head);
    let k = first_differing(head, columns);
    if (k + 1 == n) & (k == field_count(columns)) {
        return Ok(());
    }
    Err(WrongColumns { field: k })
}

// The column line that is right for a table: what stands behind the first tab of line 1.
pub fn right_line(table: &[u8]) -> &[u8]
    ensures { result.now ≡ right_line table.now }
{
    let head = head_line(table);
    let end = find(head, 0, b'\t');
    if head.len() <= end {
        return &head[..0];
    }
    &head[end + 1..]
}
