// Test cases of the written rules: what a case's body holds, and running it through the public functions. A case tells the arguments and then the answer, so
// its outcome is whether every field of the answer, and all memory that was lent, came back as the case says.
#![tactic(auto)]

ghost use Rattle.std.specs.Prelude.{◌≡◌, is_some};
ghost use Rattle.cases.specs.Ops.{op_of};

mod fields;
mod memory;
mod ops;

pub use ops::run;
use std::fmt;

// The longest body that the bounds of the format allow: that of a read, with a table and a message of 2,048 bytes each, 512 cells twice, and 62 bytes of
// numbers.
pub const LONGEST_BODY: usize = 2 * (4 + 2048) + 2 * (4 + 4096) + 62;

// What a case runs. A case says it by its number.
#[derive(Clone, Copy)]
pub enum Op {
    CompactRead = 1,
    CompactWrite = 2,
    TableCheck = 3,
    Longest = 4,
    Read = 5,
    Write = 6,
    Append = 7,
}

impl Op {
    // The op of this format that a number stands for.
    pub fn of(number: u8) -> Option<Op>
        ensures { result ≡ op_of number }
    {
        match number {
            1 => Some(Op::CompactRead),
            2 => Some(Op::CompactWrite),
            3 => Some(Op::TableCheck),
            4 => Some(Op::Longest),
            5 => Some(Op::Read),
            6 => Some(Op::Write),
            7 => Some(Op::Append),
            _ => None,
        }
    }
}

// Whether a number stands for an op of this format.
pub fn known(number: u8) -> bool
    ensures { result ≡ is_some (op_of number) }
{
    Op::of(number).is_some()
}

impl fmt::Display for Op {
    fn fmt<W: fmt::Write>(&self, f: &mut fmt::Formatter<W>) -> fmt::Result {
        let number = *self as u8;
        write!(f, "{number}")
    }
}

// Why a case did not run as it says.
#[derive(Clone, Copy)]
pub enum Failure {
    // The first field of the answer that came out otherwise, counted among those of the answer, from 0. One past the last is what a function beside the op's
    // own says of the answer.
    Differs(usize),
    // The body is not what the op needs: not just its fields, a field beyond the bounds, or a number that means nothing there.
    Misfit,
    // No op of this format.
    Unknown,
}
