// The lines of a run, written into a slice that is lent.
ghost use Rattle.std.specs.Prelude.{◌≡◌, ◌≤◌};
ghost use Rattle.text.specs.Output.{Writes};
ghost use Rattle.runreport.specs.Running.{number_lines, numbered_tally, unread_text};

use counter::Tally;
use events::printing::{put_count_from, put_number_from, put_spoilt, put_taken};

// Writes the line `unread` over the beginning of out, as far as it goes, and answers how long it is.
pub fn put_unread(out: &mut [u8], line: u64) -> usize
    ensures { Writes (unread_text line) out.old out.new result }
{
    put_count_from(out, 0, b"unread", line)
}

// Writes the lines of the regions below k over the beginning of out, as far as it goes, and answers how long they are.
fn put_regions(out: &mut [u8], k: usize, counts: &[u64; 64]) -> usize
    requires { k ≤ 64 }
    ensures { (Writes (number_lines counts.now k) out.old out.new result) × (result ≤ 2688) }
{
    let mut at: usize = 0;
    for r in 0..k {
        at += put_number_from(out, at, r as u64);
        at += put_count_from(out, at, b"", counts[r]);
    }
    at
}

// Writes the lines of a tally by a plan of k steps.
pub fn put_tally(out: &mut [u8], k: usize, tally: &Tally) -> usize
    requires { k ≤ 64 }
    ensures { Writes (numbered_tally k tally.now) out.old out.new result }
{
    let a = put_regions(out, k, &tally.counts);
    let b = a + put_taken(out, a, tally.taken);
    b + put_spoilt(out, b, tally.spoilt)
}
