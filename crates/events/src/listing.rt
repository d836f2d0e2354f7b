// The events of an input as a flat list of values.
ghost use Rattle.std.specs.Prelude.{◌≡◌, ◌+◌, ◌≤◌, length, drop};
ghost use Rattle.text.specs.Output.{over, Writes};
ghost use Rattle.text.specs.Inner.Writing.{WritesFrom};
ghost use Rattle.events.specs.Listing.{opens as opens_list, is_event, list_part, bad_line, ragged_line, events_of};
ghost use Rattle.events.specs.Inner.Answers.{above_zero, answer_of, listed, line_kept, values_kept};

use crate::parting::split;
use text::lines::{ends_in_lf, field, field_count, find, line_from};
use text::numbers::{is_number, read_number};
use text::output::{put, put_from, rest_from};

// Why the events of an input are not listed.
#[derive(Clone, Copy, Debug, PartialEq, Eq)]
pub enum ListRefusal {
    // refusal 23 and its line
    Ragged { line: usize },
    // the slice lent has not room for all values
    Short,
}

// Whether a line is an event of n values.
fn is_event(line: &[u8], n: usize) -> bool
    ensures { result ≡ is_event n line.now }
{
    field_count(line) == n && (0..n).all(|k| is_number(field(line, k)))
}

// Whether a line that is not a column line opens a further list: `events`, where there may be several lists.
#[tactic(auto, using(crate::proofs::PartingLaws::same_as))]
pub fn opens(line: &[u8], several: bool) -> bool
    ensures { result ≡ opens_list several line.now }
{
    several & (line == b"events".as_slice())
}

// The lowest bad line of the event part, counted from 1 in it, if there is one. Its first line is a column line, or not.
fn bad_line(part: &[u8], n: usize, several: bool, headed: bool) -> Option<usize>
    ensures { result ≡ above_zero (bad_line several headed n part.now) }
{
    let mut at = 0;
    let mut k: usize = 0;
    // the next line is a column line
    let mut columns = headed;
    while at < part.len() {
        let line = line_from(part, at);
        let opening = !columns & opens(line, several);
        if !(columns | opening) & !is_event(line, n) {
            return Some(k + 1);
        }
        columns = opening;
        at = find(part, at, b'\n') + 1;
        k += 1;
    }
    ((0 < k) & !ends_in_lf(part)).then_some(k)
}

// Writes the values kept of a line over the beginning of rest, as far as it goes, and answers how many there are.
fn put_line(rest: &mut [i32], line: &[u8]) -> usize
    ensures { Writes (line_kept line.now) rest.old rest.new result }
{
    let n = field_count(line);
    for k in 0..n {
        put(rest, k, read_number(field(line, k)).unwrap_or(0));
    }
    n
}

// The same from index a on.
fn put_line_from(values: &mut [i32], a: usize, line: &[u8]) -> usize
    ensures { WritesFrom a (line_kept line.now) values.old values.new result }
{
    put_from(values, a, |rest: &mut [i32]| put_line(rest, line))
}

// Writes the values kept of all lines over the beginning of list, as far as it goes, and answers how many there are.
pub fn put_lines(list: &mut [i32], part: &[u8]) -> usize
    ensures { Writes (values_kept part.now) list.old list.new result }
{
    let mut at = 0;
    let mut m: usize = 0;
    while at < part.len() {
        let c = put_line_from(list, m, line_from(part, at));
        at = find(part, at, b'\n') + 1;
        m += c;
    }
    m
}

// The lines of events in what stands behind the line `events`, without its column line where one comes first.
fn list_part(part: &[u8], headed: bool) -> &[u8]
    ensures { result.now ≡ list_part headed part.now }
{
    if headed {
        rest_from(part, find(part, 0, b'\n') + 1)
    } else {
        part
    }
}

// The lowest bad line of an input, counted from 1 over all of it, if there is one. It has one list, or several. The first line behind the first `events`
// is a column line (headed), or not; behind a further `events` always.
pub fn ragged_line(input: &[u8], n: usize, several: bool, headed: bool) -> Option<usize>
    ensures { result ≡ above_zero (ragged_line several headed n input.now) }
{
    let parted = split(input);
    let line = parted.line?;
    let Some(start) = parted.start else {
        return Some(line);
    };
    let bad = bad_line(rest_from(input, start), n, several, headed)?;
    Some(line + bad)
}

// Reads the events of n values that the input has, behind a column line or not, into list. A list of half as many values as the input has bytes is never too
// short (the theorem never-short).
pub fn read_events(
    input: &[u8],
    n: usize,
    headed: bool,
    list: &mut [i32],
) -> Result<usize, ListRefusal>
    ensures answer { result ≡ answer_of (events_of headed n input.now) (length list.old) }
    ensures values { list.new ≡ over (listed (events_of headed n input.now)) list.old }
{
    if let Some(line) = ragged_line(input, n, false, headed) {
        return Err(ListRefusal::Ragged { line });
    }
    let table = split(input).table;
    let m = put_lines(list, list_part(rest_from(input, table + 7), headed));
    if list.len() < m {
        return Err(ListRefusal::Short);
    }
    Ok(m)
}
