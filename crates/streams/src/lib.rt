// Reading a whole input from a stream.
#![tactic(auto)]

ghost use Rattle.std.specs.Prelude.{◌≡◌, ℕ, ◌<◌, ◌≤◌, length, take, IfOk, OnOk, OnErr};
ghost use Rattle.std.specs.Io.KnownBytes.{Appends, Consumes, IsAtEnd};

use std::io::{Read, Result, Write};

// Reads until the input ends, buf is full or a read fails, and answers how many bytes were read, which stand at the beginning of buf. After an error
// buf holds what was read before it.
pub fn read_all<R: Read>(reader: &mut R, buf: &mut [u8]) -> Result<usize>
    ensures count { IfOk result (λ n. n ≤ length buf.new) }
    ensures bytes { IfOk result (λ n. Consumes (R.remaining reader.old) (R.remaining reader.new) (take n buf.new)) }
    ensures end { IfOk result (λ n. n < length buf.new → IsAtEnd (R.remaining reader.new)) }
    ensures err { OnErr result ((n : ℕ) × (n ≤ length buf.new) × Consumes (R.remaining reader.old) (R.remaining reader.new) (take n buf.new)) }
{
    let mut n = 0;
    while n < buf.len() {
        let count = reader.read(&mut buf[n..])?;
        if count == 0 {
            return Ok(n);
        }
        n += count;
    }
    Ok(n)
}

// Reads an input as far as there is room for it, and writes the report of it: the bytes that report puts first into out, as many as it answers.
pub fn print_report<R: Read, W: Write, F: FnOnce(&[u8], &mut [u8]) -> usize>(
    reader: &mut R,
    writer: &mut W,
    input: &mut [u8],
    out: &mut [u8],
    report: F,
) -> Result<()>
    requires callable { F.IsAlwaysCallable report }
    requires fits { (x : _) (y : _) (n : _) (z : _) → F.post report x y n z → n ≤ length out.old }
    ensures { OnOk result ((x : _) × (y : _) × (n : _) × (z : _) × F.post report x y n z × (y.now ≡ out.old) × (z.now ≡ out.new)
        × Consumes (R.remaining reader.old) (R.remaining reader.new) x.now × (length x.now < length input.old → IsAtEnd (R.remaining reader.new))
        × Appends (W.contents writer.old) (W.contents writer.new) (take n out.new)) }
{
    let n = read_all(reader, input)?;
    let length = report(&input[..n], out);
    writer.write_all(&out[..length])
}
