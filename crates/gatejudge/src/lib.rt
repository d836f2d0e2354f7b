// The C interface: judging one event. An archive of its own, so that the counting loop is the only caller of its body in the other.
// `sets` (of std's lemmas on lists) stores the elements of a row one by one from an index on, as far as `out` goes.
#![tactic(auto)]

ghost use Rattle.std.specs.Prelude.{◌≡◌};
ghost use Rattle.std.proofs.lemmas.List.Edits.{sets};
ghost use Rattle.counter.specs.Judging.{judge_of};
ghost use Rattle.gatejudge.specs.Answers.{judge_row};

use counter::judging::judge;
use plans::refusals::Numbered;

// out: number, place, 64 bits of the members, 64 outline bits. A longer row has another symbol, its length in the name, so that what was built for a
// shorter one does not link.
#[unsafe(no_mangle)]
pub extern "C" fn gate_judge_row4(plan: &[i32], event: &[i32], out: &mut [u64; 4])
    ensures { out.new ≡ sets out.old 0 (judge_row (judge_of plan.now event.now)) }
{
    *out = match judge(plan, event) {
        Ok(bits) => [0, 0, bits.members, bits.outline],
        Err(r) => [r.number(), r.place(), 0, 0],
    };
}
