// gatesheet: reads a table and lists of events from standard input and prints the counts of each list, their sums and shares, or the refusal.
#![tactic(auto)]

ghost use Rattle.std.specs.Prelude.{◌≡◌, length};

use sheet::sheet;
use std::io::{self, Write};
use streams::read_all;

// Room for one byte more than an input may have.
fn input_room() -> [u8; 65537]
    ensures { 65537 ≡ length result }
{
    [0; 65537]
}

// Room for every sheet.
fn sheet_room() -> [u8; 1300000]
    ensures { 1300000 ≡ length result }
{
    [0; 1300000]
}

// Writes the sheet of an input.
fn print_sheet<W: Write>(to: &mut W, input: &[u8]) -> io::Result<()> {
    let mut out = sheet_room();
    let n = sheet(input, &mut out);
    to.write_all(&out[..n])
}

fn main(rt: HostRuntime) -> io::Result<()> {
    let mut input = input_room();
    let n = read_all(&mut rt.reader(), &mut input)?;
    print_sheet(&mut io::writer(&rt), &input[..n])
}
