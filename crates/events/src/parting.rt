// The input parted into the table and the events.
ghost use Rattle.std.specs.Prelude.{◌≡◌, ◌+◌, ◌≤◌, length, IfSome};
ghost use Rattle.events.specs.Inner.Answers.{opening_of, parted_of};

use text::lines::{find, line_from};

// Where the input is parted.
#[derive(Clone, Copy)]
pub struct Parted {
    // the end of the table part
    pub table: usize,
    // the number of the line `events`, if it is there
    pub line: Option<usize>,
    // where the event lines start, if that line ends in LF
    pub start: Option<usize>,
}

// The line `events`: where it begins, or the end of the input where there is none, and its number.
#[derive(Clone, Copy)]
struct Opening {
    at: usize,
    line: Option<usize>,
}

// Looks for the first line that is exactly `events`.
fn find_events(input: &[u8]) -> Opening
    ensures opening { result ≡ opening_of input.now }
    ensures within { result.at ≤ length input.now }
    ensures near { IfSome result.line (λ n. n ≤ result.at + 2) }
{
    let mut at = 0;
    let mut line: usize = 1;
    while at < input.len() {
        if line_from(input, at) == b"events".as_slice() {
            return Opening {
                at,
                line: Some(line),
            };
        }
        at = find(input, at, b'\n') + 1;
        line += 1;
    }
    Opening {
        at: input.len(),
        line: None,
    }
}

// Parts the input at the first line that is exactly `events`.
pub fn split(input: &[u8]) -> Parted
    ensures parted { result ≡ parted_of input.now }
    ensures within { result.table ≤ length input.now }
    ensures near { IfSome result.line (λ n. n ≤ result.table + 2) }
{
    let Opening { at, line } = find_events(input);
    let ended = input.get(at + 6) == Some(&b'\n');
    Parted {
        table: at,
        line,
        start: ended.then_some(at + 7),
    }
}
