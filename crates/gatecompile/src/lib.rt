// The C interface of the compiler. The answer is written whole into `out`.
// `sets` (of std's lemmas on lists) stores the elements of a row one by one from an index on, as far as `out` goes.
#![tactic(auto)]

ghost use Rattle.std.specs.Prelude.{◌≡◌};
ghost use Rattle.std.proofs.lemmas.List.Edits.{sets};
ghost use Rattle.tables.specs.Compile.{compile_of};
ghost use Rattle.gatecompile.specs.Answers.{compile_row};

use compiler::compile;
use plans::refusals::Numbered;

// out: number, place, words, regions. The plan is written over the beginning of a slice; after a refusal the slice is unchanged.
#[unsafe(no_mangle)]
pub extern "C" fn gate_compile(table: &[u8], plan: &mut [i32], out: &mut [u64; 4])
    ensures row { out.new ≡ sets out.old 0 (compile_row (compile_of table.now plan.old)) }
    ensures slice { plan.new ≡ (compile_of table.now plan.old).slice }
{
    *out = match compile(table, plan) {
        Ok(written) => [0, 0, written.words as u64, written.regions as u64],
        Err(r) => [r.number(), r.place(), 0, 0],
    };
}
