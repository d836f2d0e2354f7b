// Rows of bits: what each row reaches, and the next row whose bits are all in a set.
#![tactic(auto)]

ghost use Rattle.std.specs.Prelude.{◌≡◌, ℕ, length, get_or, cond};
ghost use Rattle.std.specs.Int.Bits.{bit_or};
ghost use Rattle.plans.specs.Bits.{has_bit};
ghost use Rattle.plans.specs.Indices.{first_bad};
ghost use Rattle.text.specs.Bounded.{tab};
ghost use Rattle.tables.specs.Reaching.{reaches_by};
ghost use Rattle.graph.specs.Inner.Rows.{bit_at, zero_rows, joined, is_subset, held};

use plans::bits::has_bit;

// Row a has bit b: a refers to b, or reaches it.
#[derive(Clone, Copy)]
pub struct Rows {
    pub bits: [u64; 64],
}

impl Rows {
    // Rows with no bit.
    pub fn new() -> Rows
        ensures { result.bits ≡ zero_rows }
    {
        Rows { bits: [0; 64] }
    }

    // Row i, and 0 where there is none.
    pub fn row(&self, i: usize) -> u64
        ensures { result ≡ get_or self.now.bits i 0 }
    {
        self.bits.get(i).copied().unwrap_or(0)
    }
}

// The row with another put into it, where it has bit s.
fn put_into(row: u64, s: usize, other: u64) -> u64
    ensures { result ≡ cond (has_bit row s) (bit_or row other) row }
{
    if has_bit(row, s) { row | other } else { row }
}

// Puts row s into each row that has bit s.
fn round(rows: &mut [u64; 64], s: usize)
    requires { length rows.old ≡ 64 }
    ensures { rows.new ≡ tab (joined rows.old s) (length rows.old) }
{
    let other = if s < 64 { rows[s] } else { 0 };
    for i in 0..64 {
        rows[i] = put_into(rows[i], s, other);
    }
}

// Row a afterwards: what a reaches by way of rows below n.
pub fn reach(rows: Rows, n: usize) -> Rows
    ensures { (a b : ℕ) → bit_at result.bits a b ≡ reaches_by (bit_at rows.bits) n a b }
{
    let mut r = rows;
    for s in 0..n.min(64) {
        round(&mut r.bits, s);
    }
    r
}

// Whether each bit of a is one of b.
fn is_within(a: u64, b: u64) -> bool
    ensures { result ≡ is_subset a b }
{
    (a | b) == b
}

// The lowest row below n that is not in the set and whose bits all are, or n.
pub fn next_row(rows: &Rows, set: u64, n: usize) -> usize
    ensures { result ≡ first_bad (held rows.now.bits set) 0 n }
{
    (0..n)
        .find(|&r| !has_bit(set, r) & is_within(rows.row(r), set))
        .unwrap_or(n)
}
