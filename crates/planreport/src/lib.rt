// The report of a plan: what `gateplan` prints of a table.
#![tactic(auto)]

ghost use Rattle.std.specs.Prelude.{◌≡◌};
ghost use Rattle.text.specs.Output.{Writes};
ghost use Rattle.planreport.specs.PlanReport.{plan_report_of};

mod printing;

use crate::printing::put_plan;
use compiler::compile;
use events::printing::put_refusal;

// Writes the report of a table over the beginning of out, as far as it goes, and answers how long it is: at most 49,152 bytes
// (the theorem plan-report-fits).
pub fn plan_report(table: &[u8], out: &mut [u8]) -> usize
    ensures { Writes (plan_report_of table.now) out.old out.new result }
{
    // room for the words of a plan
    let mut plan = [0; 4096];
    match compile(table, &mut plan) {
        Ok(written) => put_plan(out, &plan[..written.words]),
        Err(refusal) => put_refusal(out, refusal),
    }
}
