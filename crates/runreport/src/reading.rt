// The words of a plan's text.
ghost use Rattle.std.specs.Prelude.{◌≡◌, cond, ◌+◌, ◌≤◌, min, pos, length};
ghost use Rattle.text.specs.Numbers.{digits_value, signed};
ghost use Rattle.text.specs.Output.{Writes};
ghost use Rattle.text.specs.Inner.Writing.{WritesFrom};
ghost use Rattle.events.specs.Inner.Answers.{above_zero};
ghost use Rattle.runreport.specs.PlanReading.{fits_word, is_word, word_of, is_word_line, unread_line, line_words, words_of};

use text::lines::{ends_in_lf, field, field_count, find, line_from};
use text::numbers::{is_number, negative, unsigned, value_at_most};
use text::output::{put, put_from};

// The value of some digits, and at most 2^32 - 1.
fn magnitude(s: &[u8]) -> u32
    ensures { result ≡ min (digits_value 0 s.now) 4294967295 }
{
    value_at_most::<4294967295>(s)
}

// Whether n, or -n where b holds, fits 32 bits.
fn fits(b: bool, n: u32) -> bool
    ensures { result ≡ fits_word (signed b n) }
{
    (n < 2147483648) | (b & (n == 2147483648))
}

// n, or -n where b holds, and 0 where it does not fit 32 bits.
fn word(b: bool, n: u32) -> i32
    ensures { result ≡ cond (fits_word (signed b n)) (signed b n) (pos 0) }
{
    if n < 2147483648 {
        return if b { 0 - n as i32 } else { n as i32 };
    }
    if fits(b, n) { -2147483648 } else { 0 }
}

// Whether a field is a word.
fn is_word(s: &[u8]) -> bool
    ensures { result ≡ is_word s.now }
{
    is_number(s) & fits(negative(s), magnitude(unsigned(s)))
}

// The word that a field is, and 0 where it is none.
fn read_word(s: &[u8]) -> i32
    ensures { result ≡ word_of s.now }
{
    if !is_number(s) {
        return 0;
    }
    word(negative(s), magnitude(unsigned(s)))
}

// Whether each field of a line is a word.
fn is_word_line(line: &[u8]) -> bool
    ensures { result ≡ is_word_line line.now }
{
    line.split(|c| *c == b'\t').all(|word| is_word(word))
}

// The lowest line that cannot be read, counted from 1, if there is one.
pub fn unread_line(part: &[u8]) -> Option<usize>
    ensures { result ≡ above_zero (unread_line part.now) }
{
    let mut at = 0;
    let mut k: usize = 0;
    while at < part.len() {
        if !is_word_line(line_from(part, at)) {
            return Some(k + 1);
        }
        at = find(part, at, b'\n') + 1;
        k += 1;
    }
    ((0 < k) & !ends_in_lf(part)).then_some(k)
}

// Writes the words of a line over the beginning of rest, as far as it goes, and answers how many there are.
fn put_line(rest: &mut [i32], line: &[u8]) -> usize
    ensures { Writes (line_words line.now) rest.old rest.new result }
{
    let n = field_count(line);
    for k in 0..n {
        put(rest, k, read_word(field(line, k)));
    }
    n
}

// The same from index a on.
fn put_line_from(words: &mut [i32], a: usize, line: &[u8]) -> usize
    ensures { WritesFrom a (line_words line.now) words.old words.new result }
{
    put_from(words, a, |rest: &mut [i32]| put_line(rest, line))
}

// Writes the words of a plan's text over the beginning of plan, as far as it goes, and answers how many there are.
pub fn put_words(plan: &mut [i32], part: &[u8]) -> usize
    ensures { (Writes (words_of part.now) plan.old plan.new result) × (result ≤ length part.now + 1) }
{
    let mut at = 0;
    let mut m: usize = 0;
    while at < part.len() {
        let c = put_line_from(plan, m, line_from(part, at));
        at = find(part, at, b'\n') + 1;
        m += c;
    }
    m
}
