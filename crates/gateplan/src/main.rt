// gateplan: reads a table from standard input and prints its plan, or the refusal.
#![tactic(auto)]

ghost use Rattle.std.specs.Prelude.{◌≡◌, length};

use planreport::plan_report;
use std::io::{self, Write};
use streams::read_all;

// Room for one byte more than an input may have.
fn room() -> [u8; 32769]
    ensures { 32769 ≡ length result }
{
    [0; 32769]
}

// Room for the text of a plan.
fn text_room() -> [u8; 49152]
    ensures { 49152 ≡ length result }
{
    [0; 49152]
}

// Writes the report of an input.
fn print_report<W: Write>(to: &mut W, input: &[u8]) -> io::Result<()> {
    let mut out = text_room();
    let n = plan_report(input, &mut out);
    to.write_all(&out[..n])
}

fn main(rt: HostRuntime) -> io::Result<()> {
    let mut input = room();
    let n = read_all(&mut rt.reader(), &mut input)?;
    print_report(&mut io::writer(&rt), &input[..n])
}
