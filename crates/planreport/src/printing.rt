// The text of a plan, written into a slice that is lent.
ghost use Rattle.std.specs.Prelude.{◌≡◌, cond, [], ◌∷◌, ◌++◌, ◌*◌, ◌≤◌, nat_abs, length};
ghost use Rattle.text.specs.Output.{Writes};
ghost use Rattle.text.specs.Inner.Writing.{WritesFrom};
ghost use Rattle.plans.specs.Refusals.{passed};
ghost use Rattle.plans.specs.Form.{check_of};
ghost use Rattle.planreport.specs.PlanText.{word_text, words_line, plan_text};

use events::printing::put_number_from;
use plans::words::{number_at, part_at};
use text::output::{put, put_bytes, put_from, put_number};

// Writes a word over the beginning of rest, as far as it goes, and answers how many bytes it has.
fn put_word(rest: &mut [u8], w: i32) -> usize
    ensures { Writes (word_text w) rest.old rest.new result }
{
    let m = w.unsigned_abs() as u64;
    if w < 0 {
        let a = put_bytes(rest, b"-");
        return a + put_number_from(rest, a, m);
    }
    put_number(rest, m)
}

// The same from index a on.
fn put_word_from(rest: &mut [u8], a: usize, w: i32) -> usize
    ensures { WritesFrom a (word_text w) rest.old rest.new result }
{
    put_from(rest, a, |rest: &mut [u8]| put_word(rest, w))
}

// What stands behind a word: a tab where more words follow, else LF.
fn word_end(more: bool) -> u8
    ensures { result ≡ cond more 9 10 }
{
    if more { b'\t' } else { b'\n' }
}

// Writes a line of words and its LF over the beginning of rest, as far as it goes, and answers how long it is.
fn put_line(rest: &mut [u8], words: &[i32]) -> usize
    requires { (1 ≤ length words.now) × (length words.now ≤ 4096) }
    ensures writes { Writes (words_line words.now ++ (10 ∷ [])) rest.old rest.new result }
    ensures upper_bound { result ≤ 22 * length words.now }
{
    let mut at: usize = 0;
    for (i, &word) in words.iter().enumerate() {
        at += put_word_from(rest, at, word);
        put(rest, at, word_end(i + 1 < words.len()));
        at += 1;
    }
    at
}

// The same from index a on.
fn put_line_from(rest: &mut [u8], a: usize, words: &[i32]) -> usize
    requires { (1 ≤ length words.now) × (length words.now ≤ 4096) }
    ensures writes_from { WritesFrom a (words_line words.now ++ (10 ∷ [])) rest.old rest.new result }
    ensures upper_bound { result ≤ 22 * length words.now }
{
    put_from(rest, a, |rest: &mut [u8]| put_line(rest, words))
}

// Writes the text of a plan that passes over the beginning of out, as far as it goes, and answers how long it is.
pub fn put_plan(out: &mut [u8], plan: &[i32]) -> usize
    requires { check_of plan.now ≡ passed }
    ensures { Writes (plan_text plan.now) out.old out.new result }
{
    let mut at = put_line(out, part_at(plan, 0, 2));
    let mut word: usize = 2;
    for _ in 0..number_at(plan, 1) {
        let m = 4 + number_at(plan, word + 3);
        at += put_line_from(out, at, part_at(plan, word, m));
        word += m;
    }
    at
}
