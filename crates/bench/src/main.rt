// Runs the plans on the bench and the public examples of the SCALE description, reading and writing each. A line each says whether all came out as it stands
// here, and the last line how many there are and how many differ.
#![tactic(auto)]

mod appends;
mod checks;
mod compacts;
mod report;
mod tables;

use report::Report;

fn main(rt: HostRuntime) {
    let mut report = Report::new(&rt);
    compacts::plans(&mut report);
    compacts::refusals(&mut report);
    compacts::examples(&mut report);
    tables::bit_heads(&mut report);
    tables::memory_limits(&mut report);
    tables::numbers(&mut report);
    tables::compounds(&mut report);
    appends::plans(&mut report);
    report.end();
}
