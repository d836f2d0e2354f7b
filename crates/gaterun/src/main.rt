// gaterun: reads the text of a plan and its events from standard input and prints the count of each region by its number, or the refusal.
#![tactic(auto)]

use runreport::run_report;
use std::io;
use streams::print_report;

fn main(rt: HostRuntime) -> io::Result<()> {
    // one byte more than an input may have
    let mut input = [0; 131073];
    // room for every report
    let mut out = [0; 4096];
    print_report(
        &mut rt.reader(),
        &mut io::writer(&rt),
        &mut input,
        &mut out,
        run_report,
    )
}
