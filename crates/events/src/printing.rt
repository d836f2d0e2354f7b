// The lines that the programs print, written into a slice that is lent.
ghost use Rattle.std.specs.Prelude.{◌≡◌};
ghost use Rattle.text.specs.Output.{decimal, over, Writes};
ghost use Rattle.text.specs.Inner.Writing.{WritesFrom};
ghost use Rattle.events.specs.Printing.{number_field, count_line, taken_line, spoilt_line, refused_line};

use plans::refusals::Numbered;
use text::output::{put_bytes, put_from, put_number};

// Writes s from index a on, as far as rest goes, and answers how many bytes s has.
pub fn put_bytes_from(rest: &mut [u8], a: usize, s: &[u8]) -> usize
    ensures { WritesFrom a s.now rest.old rest.new result }
{
    put_from(rest, a, |rest: &mut [u8]| put_bytes(rest, s))
}

// Writes the digits of x from index a on, as far as rest goes, and answers how many there are.
pub fn put_number_from(rest: &mut [u8], a: usize, x: u64) -> usize
    ensures { WritesFrom a (decimal x) rest.old rest.new result }
{
    put_from(rest, a, |rest: &mut [u8]| put_number(rest, x))
}

// Writes a tab and the digits of x over the beginning of rest, as far as it goes, and answers how many bytes they are.
fn put_field(rest: &mut [u8], x: u64) -> usize
    ensures { Writes (number_field x) rest.old rest.new result }
{
    let a = put_bytes(rest, b"\t");
    a + put_number_from(rest, a, x)
}

// The same from index a on.
pub fn put_field_from(rest: &mut [u8], a: usize, x: u64) -> usize
    ensures { WritesFrom a (number_field x) rest.old rest.new result }
{
    put_from(rest, a, |rest: &mut [u8]| put_field(rest, x))
}

// Writes the line of a name and a count over the beginning of rest, as far as it goes, and answers how long the line is.
fn put_count(rest: &mut [u8], name: &[u8], count: u64) -> usize
    ensures { Writes (count_line name.now count) rest.old rest.new result }
{
    let a = put_bytes(rest, name);
    let b = a + put_field_from(rest, a, count);
    b + put_bytes_from(rest, b, b"\n")
}

// The same from index a on.
pub fn put_count_from(rest: &mut [u8], a: usize, name: &[u8], count: u64) -> usize
    ensures { WritesFrom a (count_line name.now count) rest.old rest.new result }
{
    put_from(rest, a, |rest: &mut [u8]| put_count(rest, name, count))
}

// The line `taken`, from index a on.
pub fn put_taken(rest: &mut [u8], a: usize, count: u64) -> usize
    ensures { WritesFrom a (taken_line count) rest.old rest.new result }
{
    put_count_from(rest, a, b"taken", count)
}

// The line `spoilt`, from index a on.
pub fn put_spoilt(rest: &mut [u8], a: usize, count: u64) -> usize
    ensures { WritesFrom a (spoilt_line count) rest.old rest.new result }
{
    put_count_from(rest, a, b"spoilt", count)
}

// The line `refused` with the number and the place of a refusal.
pub fn put_refusal<R: Numbered + Copy>(rest: &mut [u8], refusal: R) -> usize
    ensures { Writes (refused_line (R.verdict refusal).number (R.verdict refusal).place) rest.old rest.new result }
{
    put_refused(rest, refusal.number(), refusal.place())
}

// The line `refused` with a number and a place.
pub fn put_refused(rest: &mut [u8], number: u64, place: u64) -> usize
    ensures { Writes (refused_line number place) rest.old rest.new result }
{
    let a = put_bytes(rest, b"refused");
    let b = a + put_field_from(rest, a, number);
    let c = b + put_field_from(rest, b, place);
    c + put_bytes_from(rest, c, b"\n")
}
