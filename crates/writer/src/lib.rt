// The step writer: each step is written over the beginning of a slice that is lent, as far as it goes.
#![tactic(auto)]

ghost use Rattle.std.specs.Prelude.{◌≡◌, set, drop};
ghost use Rattle.text.specs.Bounded.{tab};
ghost use Rattle.text.specs.Lines.{fields};
ghost use Rattle.text.specs.Output.{Writes};
ghost use Rattle.gates.specs.Kinds.{line_kind};
ghost use Rattle.gates.specs.Inner.Regions.{body_length, body_word_of, combines as combines_of};
ghost use Rattle.writer.specs.Inner.Words.{number_word, parent_number_word, header, operand_number_word, step_by};

use gatefields::fields::{combines, kind_of};
use gatelines::regions::{body_length, step_number, word_of};
use text::output::put;

// Whether the gate of a line combines operands.
pub fn has_operands(line: &[u8]) -> bool
    ensures { result ≡ combines_of (line_kind (fields line.now)) }
{
    combines(kind_of(line))
}

// A number as a word.
fn number_word(n: usize) -> i32
    ensures { result ≡ number_word n }
{
    n.min(65535) as i32
}

// The word of a parent's region; 64 or more for none.
fn parent_word(parent: usize) -> i32
    ensures { result ≡ parent_number_word parent }
{
    if parent < 64 { parent as i32 } else { -1 }
}

// The word of an operand.
fn operand_word(region: usize, complement: bool) -> i32
    ensures { result ≡ operand_number_word region complement }
{
    let twice = 2 * region.min(65535);
    if complement {
        return number_word(twice + 1);
    }
    number_word(twice)
}

// Puts a number at index i, where there is one.
pub fn put_number(rest: &mut [i32], i: usize, n: usize)
    ensures { rest.new ≡ set rest.old i (number_word n) }
{
    put(rest, i, number_word(n));
}

// Writes a step's header over the beginning of rest, and answers how many words it has. A parent of 64 or more is none.
pub fn put_header(rest: &mut [i32], kind: u8, region: usize, parent: usize, length: usize) -> usize
    ensures { Writes (header kind region parent length) rest.old rest.new result }
{
    put(rest, 0, kind as i32);
    put(rest, 1, number_word(region));
    put(rest, 2, parent_word(parent));
    put(rest, 3, number_word(length));
    4
}

// Writes the body of region q of a box, polygon or ellipse over the beginning of rest, and answers how many words it has.
pub fn put_leaf(rest: &mut [i32], head: &[u8], line: &[u8], q: usize) -> usize
    ensures { Writes (tab (body_word_of (drop 1 (fields head.now)) (fields line.now) q) (body_length (fields line.now)))
        rest.old rest.new result }
{
    let n = body_length(line);
    for i in 0..n {
        put(rest, i, word_of(head, line, q, i));
    }
    n
}

// Puts the word of an operand at index i, where there is one.
pub fn put_operand(rest: &mut [i32], i: usize, region: usize, complement: bool)
    ensures { rest.new ≡ set rest.old i (operand_number_word region complement) }
{
    put(rest, i, operand_word(region, complement));
}

// Writes the step of region q of a box, polygon or ellipse over the beginning of rest, and answers how many words it has.
pub fn put_leaf_step(
    rest: &mut [i32],
    head: &[u8],
    line: &[u8],
    q: usize,
    region: usize,
    parent: usize,
) -> usize
    ensures { Writes
        (step_by (fields line.now) region parent (body_word_of (drop 1 (fields head.now)) (fields line.now) q))
        rest.old rest.new result }
{
    put_header(rest, step_number(line), region, parent, body_length(line));
    if rest.len() < 4 {
        return 4 + body_length(line);
    }
    4 + put_leaf(&mut rest[4..], head, line, q)
}
