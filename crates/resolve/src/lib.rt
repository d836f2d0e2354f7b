// The gate lines of a table through the places where they begin, and the numbers of its regions.
#![tactic(auto)]

ghost use Rattle.std.specs.Prelude.{◌≡◌, cond, min, length};
ghost use Rattle.plans.specs.Bits.{with_bit};
ghost use Rattle.tables.specs.Table.{number_of};
ghost use Rattle.resolve.specs.Inner.Reading.{starts_of, gate_count, line_at, regions_at};

use gatelines::regions::region_count;
use linenames::find_region;
use plans::bits::with_bit;
use text::lines::{index_lines, line_from};

// A table read by its lines: its text, the places where they begin, the head first, then up to 65 gate lines, and how many gates are looked at.
#[derive(Clone, Copy)]
pub struct Table<'a> {
    pub text: &'a [u8],
    pub starts: [usize; 66],
    pub gates: usize,
}

impl<'a> Table<'a> {
    // A text as a table with all its gates.
    pub fn new(text: &'a [u8]) -> Table<'a>
        ensures text { result.text.now ≡ text.now }
        ensures starts { result.starts ≡ starts_of text.now }
        ensures gates { result.gates ≡ gate_count text.now }
    {
        let mut starts = [0; 66];
        let lines = index_lines(text, &mut starts);
        Table {
            text,
            starts,
            gates: lines.saturating_sub(1),
        }
    }

    // The same with at most so many gates.
    pub fn up_to(self, most: usize) -> Table<'a>
        ensures text { result.text.now ≡ self.entry.text.now }
        ensures starts { result.starts ≡ self.entry.starts }
        ensures gates { result.gates ≡ min self.entry.gates most }
    {
        Table {
            gates: self.gates.min(most),
            ..self
        }
    }

    // Gate line i.
    pub fn line(&self, i: usize) -> &'a [u8]
        ensures { result.now ≡ line_at self.now.text.now self.now.starts i }
    {
        let start = if i < 65 { self.starts[i + 1] } else { 0 };
        line_from(self.text, start)
    }

    // The number of the region with a name, or how many regions there are; 64 where it is more.
    pub fn number_of(&self, name: &[u8]) -> usize
        ensures { result ≡ min 64 (number_of (regions_at self.now.text.now self.now.starts self.now.gates) name.now) }
    {
        let mut base = 0;
        for i in 0..self.gates {
            let line = self.line(i);
            let m = region_count(line);
            let q = find_region(line, name);
            if 64 - base <= q {
                return 64;
            }
            if q < m {
                return base + q;
            }
            base += m;
        }
        base
    }

    // How many regions there are; 64 where these are more.
    pub fn region_total(&self) -> usize
        ensures { result ≡ min 64 (length (regions_at self.now.text.now self.now.starts self.now.gates)) }
    {
        let mut total = 0;
        for i in 0..self.gates {
            let m = region_count(self.line(i));
            if 64 - total <= m {
                return 64;
            }
            total += m;
        }
        total
    }
}

// The set with j put into it, where b holds.
pub fn settle(set: u64, j: usize, b: bool) -> u64
    ensures { result ≡ cond b (with_bit set j) set }
{
    if b { with_bit(set, j) } else { set }
}
