// The report of a run: what `gaterun` prints of a plan's text and its events.
#![tactic(auto)]

ghost use Rattle.std.specs.Prelude.{◌≡◌, false, ◌≤◌, length};
ghost use Rattle.text.specs.Output.{Writes};
ghost use Rattle.plans.specs.Refusals.{passed};
ghost use Rattle.plans.specs.Form.{width, check_of};
ghost use Rattle.counter.specs.Counting.{count_of};
ghost use Rattle.events.specs.Listing.{events_of};
ghost use Rattle.runreport.specs.Running.{count_text, ran_text, run_report_of};

mod printing;
mod reading;

use crate::printing::{put_tally, put_unread};
use crate::reading::{put_words, unread_line};
use counter::counting::count;
use events::listing::{ListRefusal, read_events};
use events::parting::split;
use events::printing::{put_refusal, put_refused};
use plans::form::check;
use plans::words::number_at;

// Writes what counting a list of values by a plan of k steps answers.
fn put_counted(out: &mut [u8], plan: &[i32], k: usize, values: &[i32]) -> usize
    requires { k ≤ 64 }
    ensures { Writes (count_text k (count_of plan.now values.now)) out.old out.new result }
{
    match count(plan, values) {
        Ok(tally) => put_tally(out, k, &tally),
        Err(refusal) => put_refusal(out, refusal),
    }
}

// Writes what is printed of the events of an input by a plan that passes.
fn put_events(input: &[u8], plan: &[i32], list: &mut [i32], out: &mut [u8]) -> usize
    requires { (length input.now ≤ 131072) × (length list.old ≡ 65536) × (check_of plan.now ≡ passed) }
    ensures { Writes (ran_text plan.now (events_of false (width plan.now) input.now))
        out.old out.new result }
{
    let k = number_at(plan, 1);
    match read_events(input, number_at(plan, 0), false, list) {
        Ok(m) => put_counted(out, plan, k, &list[..m]),
        Err(ListRefusal::Ragged { line }) => put_refused(out, 23, line as u64),
        // never: 131,072 bytes hold at most 65,536 values
        Err(ListRefusal::Short) => 0,
    }
}

// Writes the refusal of a plan, or what is printed of the events.
fn put_plan(input: &[u8], plan: &[i32], list: &mut [i32], out: &mut [u8]) -> usize
    requires { (length input.now ≤ 131072) × (length list.old ≡ 65536) }
    ensures { Writes (ran_text plan.now (events_of false (width plan.now) input.now))
        out.old out.new result }
{
    match check(plan) {
        Ok(()) => put_events(input, plan, list, out),
        Err(refusal) => put_refusal(out, refusal),
    }
}

// Writes what is printed of an input of at most 131,072 bytes, with room for its words and its events.
fn put_run(input: &[u8], plan: &mut [i32], list: &mut [i32], out: &mut [u8]) -> usize
    requires { (length input.now ≤ 131072) × (length plan.old ≡ 131073) × (length list.old ≡ 65536) }
    ensures { Writes (run_report_of input.now) out.old out.new result }
{
    let part = &input[..split(input).table];
    if let Some(line) = unread_line(part) {
        return put_unread(out, line as u64);
    }
    let m = put_words(plan, part);
    put_plan(input, &plan[..m], list, out)
}

// Writes the report of a run over the beginning of out, as far as it goes, and answers how long it is: at most 4,096 bytes
// (the theorem run-fits).
pub fn run_report(input: &[u8], out: &mut [u8]) -> usize
    ensures { Writes (run_report_of input.now) out.old out.new result }
{
    if 131072 < input.len() {
        return put_unread(out, 0);
    }
    // room for the words of 131,072 bytes, one more than bytes, and for their values
    let mut plan = [0; 131073];
    let mut list = [0; 65536];
    put_run(input, &mut plan, &mut list, out)
}
