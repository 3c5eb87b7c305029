// Runs the cases of the file vectors.hrv, which stands in the working folder, and says how many there are and how many differ. A case at a time is read, so a
// file of any size will do. A file that is damaged is given up there, and the last line says why.
#![tactic(auto)]

mod names;
mod report;

use cases::{Failure, LONGEST_BODY, Op};
use report::{Tally, give_up};
use std::fs;
use std::io::{ErrorKind, Read};

// So many bytes are passed over at a time.
const STRIDE: usize = 4096;

// What a case of the file came to.
#[derive(Clone, Copy)]
pub(crate) enum Outcome {
    Same,
    Differs(Op, usize),
    // Of no op of this format.
    Unknown,
}

// Why there is no case where one should be.
#[derive(Clone, Copy)]
pub(crate) enum Damage {
    Misfit(Op),
    CutOff,
    Unreadable,
}

// Does the file begin with the mark?
fn has_mark(file: &mut impl Read) -> bool {
    let mut mark = [0u8; 4];
    file.read_exact(&mut mark).is_ok() && mark == *b"HRV1"
}

// Within a case each byte has to be there.
fn fill(file: &mut impl Read, room: &mut [u8]) -> Result<(), Damage> {
    file.read_exact(room).map_err(|_| Damage::CutOff)
}

// The first byte of a case, the number of its op, if the file does not end before it.
fn op_number(file: &mut impl Read) -> Result<Option<u8>, Damage> {
    let mut byte = [0u8; 1];
    match file.read_exact(&mut byte) {
        Ok(()) => Ok(Some(byte[0])),
        Err(error) if error.kind() == ErrorKind::UnexpectedEof => Ok(None),
        Err(_) => Err(Damage::Unreadable),
    }
}

// Passes over the body of an unknown op, which may be longer than the bounds of this format allow.
fn pass_over(file: &mut impl Read, length: usize) -> Result<(), Damage> {
    let mut room = [0u8; STRIDE];
    for start in (0..length).step_by(STRIDE) {
        let n = (length - start).min(STRIDE);
        fill(file, &mut room[..n])?;
    }
    Ok(())
}

// Runs a case of a known op, if the bounds allow the length of its body.
fn run_body(file: &mut impl Read, op: Op, length: usize) -> Result<Outcome, Damage> {
    let mut room = [0u8; LONGEST_BODY];
    let body = room.get_mut(..length).ok_or(Damage::Misfit(op))?;
    fill(file, body)?;
    // By its number, as whoever has no `Op` runs it: so what is printed is said of `cases::run` too.
    match cases::run(op as u8, body) {
        Ok(()) => Ok(Outcome::Same),
        Err(Failure::Differs(field)) => Ok(Outcome::Differs(op, field)),
        Err(Failure::Misfit) => Err(Damage::Misfit(op)),
        Err(Failure::Unknown) => Ok(Outcome::Unknown),
    }
}

// Reads and runs the next case, if there is one: its op and its length come first.
fn next_case(file: &mut impl Read) -> Result<Option<Outcome>, Damage> {
    let Some(number) = op_number(file)? else {
        return Ok(None);
    };
    let mut length = [0u8; 4];
    fill(file, &mut length)?;
    let length = u32::from_le_bytes(length) as usize;
    let outcome = match Op::of(number) {
        Some(op) => run_body(file, op, length)?,
        None => {
            pass_over(file, length)?;
            Outcome::Unknown
        }
    };
    Ok(Some(outcome))
}

// A loop has to end, and nothing says that a file does: so it goes to a number of cases that no file has.
fn replay_all(rt: &impl Print, file: &mut impl Read) {
    let mut tally = Tally::default();
    for index in 0..u64::MAX {
        match next_case(file) {
            Ok(Some(outcome)) => tally.count(rt, index, outcome),
            Ok(None) => {
                let _ = rt.println(tally);
                return;
            }
            Err(damage) => return give_up(rt, index, damage),
        }
    }
}

fn main(rt: HostRuntime) {
    let Ok(mut file) = fs::open(&rt, "vectors.hrv") else {
        let _ = println!(rt; "no file: vectors.hrv is not there or can't be opened");
        return;
    };
    if !has_mark(&mut file) {
        let _ = println!(rt; "no mark: vectors.hrv doesn't begin with HRV1");
        return;
    }
    replay_all(&rt, &mut file);
}
