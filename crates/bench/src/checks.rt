// Running a plan, and comparing what comes out with what stands in the plan.
use rules::{Limits, Refusal, Totals};

// The limits that the program `wave` reads with.
pub(crate) fn usual() -> Limits {
    Limits {
        depth: 16,
        memory: 65536,
        cells: 4096,
    }
}

// The same with M.
pub(crate) fn with_memory(memory: u64) -> Limits {
    Limits {
        depth: 16,
        memory,
        cells: 4096,
    }
}

// Are the cells of the plan at the front, with nines behind them? Lent cells hold 9 before.
fn hold(lent: &[u64], cells: &[u64]) -> bool {
    match lent.strip_prefix(cells) {
        Some(rest) => rest.iter().all(|&cell| cell == 9),
        None => false,
    }
}

// Does writing take all of the output, and is this the message then?
fn writes_in(table: &[u8], cells: &[u64], message: &[u8], out: &mut [u8]) -> bool {
    encode::write(table, cells, out) == Ok(out.len()) && &*out == message
}

// Are the cells written as the message, into an output of just its length?
fn writes(table: &[u8], cells: &[u64], message: &[u8]) -> bool {
    let n = message.len();
    if 16 < n {
        return false;
    }
    let mut out = [0u8; 16];
    writes_in(table, cells, message, &mut out[..n])
}

// Is the whole message read as the cells, with this charge and depth?
fn reads(
    table: &[u8],
    message: &[u8],
    limits: Limits,
    cells: &[u64],
    charge: u64,
    depth: u32,
) -> bool {
    let mut lent = [9u64; 8];
    let totals = Totals {
        depth,
        charge,
        cells: cells.len() as u64,
    };
    let answer = decode::read_whole(table, message, limits, &mut lent);
    answer == Ok((totals, message.len())) && hold(&lent, cells)
}

// Is it so, and are the cells written as the message?
pub(crate) fn reads_and_writes(
    table: &[u8],
    message: &[u8],
    limits: Limits,
    cells: &[u64],
    charge: u64,
    depth: u32,
) -> bool {
    reads(table, message, limits, cells, charge, depth) && writes(table, cells, message)
}

// No plan's refusal has a place; the plans are given with the rules' numbers, so these are what is compared.
fn is_refusal(y: Refusal, number: u32) -> bool {
    y.place == 0 && u32::from(y.reason) == number
}

// Is the message refused, and are the lent cells as they were? The first is 9, and so are all behind it.
pub(crate) fn refuses(table: &[u8], message: &[u8], limits: Limits, number: u32) -> bool {
    let mut lent = [9u64; 8];
    let answer = decode::read_whole(table, message, limits, &mut lent);
    answer.is_err_and(|y| is_refusal(y, number)) && hold(&lent, &[9])
}

// Is it refused where no cells are lent, so that C is as large as it says?
pub(crate) fn refuses_unlent(table: &[u8], message: &[u8], limits: Limits, number: u32) -> bool {
    decode::measure_whole(table, message, limits).is_err_and(|y| is_refusal(y, number))
}
