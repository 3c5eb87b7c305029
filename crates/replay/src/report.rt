// Counting the outcomes, and the lines that are printed. What can't be written is left out, and the run goes on.
use crate::names::names_of;
use crate::{Damage, Outcome};
use cases::Op;
use std::fmt;

// So many of the cases that differ have a line each.
const MOST_LINES: u64 = 20;

// What was found so far. Cases of unknown ops are no cases of this format, and not counted among them.
#[derive(Clone, Copy, Default)]
pub(crate) struct Tally {
    cases: u64,
    differ: u64,
    unknown: u64,
}

impl fmt::Display for Tally {
    fn fmt<W: fmt::Write>(&self, f: &mut fmt::Formatter<W>) -> fmt::Result {
        let Tally {
            cases,
            differ,
            unknown,
        } = *self;
        if 0 < unknown {
            writeln!(f, "{unknown} of unknown ops passed over")?;
        }
        write!(f, "{cases} cases, {differ} differ")
    }
}

// Each field of an answer has a name.
fn say_difference(rt: &impl Print, index: u64, op: Op, field: usize) {
    let name = names_of(op).get(field).copied().unwrap_or("");
    let _ = println!(rt; "case {index} op {op}: {name}");
}

impl Tally {
    // With what a case came to.
    pub(crate) fn count(&mut self, rt: &impl Print, index: u64, outcome: Outcome) {
        match outcome {
            Outcome::Unknown => self.unknown = self.unknown.saturating_add(1),
            Outcome::Same => self.cases = self.cases.saturating_add(1),
            Outcome::Differs(op, field) => {
                self.cases = self.cases.saturating_add(1);
                self.differ = self.differ.saturating_add(1);
                if self.differ <= MOST_LINES {
                    say_difference(rt, index, op, field);
                }
            }
        }
    }
}

// Where the file is given up. What was counted before is not printed: it is no answer.
pub(crate) fn give_up(rt: &impl Print, index: u64, damage: Damage) {
    let _ = match damage {
        Damage::Misfit(op) => println!(rt;
            "damaged: case {index} op {op} has a body that the op doesn't allow"
        ),
        Damage::CutOff => println!(rt; "damaged: case {index} is cut off"),
        Damage::Unreadable => println!(rt; "unreadable: case {index} can't be read"),
    };
}
