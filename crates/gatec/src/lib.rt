// The C interface: checking and counting over lent slices. Each answer is written whole into `out`.
// `sets` (of std's lemmas on lists) stores the elements of a row one by one from an index on, as far as `out` goes.
#![tactic(auto)]

ghost use Rattle.std.specs.Prelude.{◌≡◌};
ghost use Rattle.std.proofs.lemmas.List.Edits.{sets};
ghost use Rattle.plans.specs.Form.{check_of};
ghost use Rattle.counter.specs.Counting.{count_of};
ghost use Rattle.gatec.specs.Answers.{check_row, count_row};

use counter::counting::count;
use plans::form::check;
use plans::refusals::Numbered;

// out: number, place.
#[unsafe(no_mangle)]
pub extern "C" fn gate_check(plan: &[i32], out: &mut [u64; 2])
    ensures { out.new ≡ sets out.old 0 (check_row (check_of plan.now)) }
{
    *out = match check(plan) {
        Ok(()) => [0, 0],
        Err(r) => [r.number(), r.place()],
    };
}

// out: number, place, taken, spoilt, 64 counts, unclaimed. A longer row has another symbol, its length in the name, so that what was built for a
// shorter one does not link.
#[unsafe(no_mangle)]
pub extern "C" fn gate_count_row69(plan: &[i32], events: &[i32], out: &mut [u64; 69])
    ensures { out.new ≡ sets out.old 0 (count_row (count_of plan.now events.now)) }
{
    let counted = count(plan, events);
    *out = [0; 69];
    match counted {
        Ok(t) => {
            out[2] = t.taken;
            out[3] = t.spoilt;
            out[4..68].copy_from_slice(&t.counts);
            out[68] = t.unclaimed;
        }
        Err(r) => {
            out[0] = r.number();
            out[1] = r.place();
        }
    }
}
