// A function for each op: it takes the arguments and the answer from the body, calls the op's public function, and compares. What the fields are stands above
// each.
ghost use Rattle.std.specs.Prelude.{◌≡◌, None, Err};
ghost use Rattle.cases.specs.Ops.{op_of};

use crate::fields::Fields;
use crate::memory::is_encoded;
use crate::{Failure, Op};
use compact::Reading;
use node::width_of;
use rules::{Answer, Halves, Limits, Reason, Refusal, Totals, Width};

// ---- what an answer is in numbers, in the order of the fields

fn of_refusal(y: Refusal) -> [u64; 2] {
    [u32::from(y.reason) as u64, y.place as u64]
}

fn of_reading(answer: Reading) -> [u64; 4] {
    match answer {
        Ok((value, used)) => [0, value.low, value.high, used as u64],
        Err(fault) => [u32::from(Reason::from(fault)) as u64, 0, 0, 0],
    }
}

fn of_check(answer: Answer<()>) -> [u64; 2] {
    match answer {
        Ok(()) => [0, 0],
        Err(y) => of_refusal(y),
    }
}

fn of_longest(answer: Answer<Option<u64>>) -> [u64; 4] {
    match answer {
        Ok(Some(n)) => [0, 0, 1, n],
        Ok(None) => [0, 0, 0, 0],
        Err(y) => {
            let [number, place] = of_refusal(y);
            [number, place, 0, 0]
        }
    }
}

fn of_read(answer: Answer<(Totals, usize)>) -> [u64; 6] {
    match answer {
        Ok((t, used)) => [0, 0, used as u64, t.cells, t.charge, t.depth as u64],
        Err(y) => {
            let [number, place] = of_refusal(y);
            [number, place, 0, 0, 0, 0]
        }
    }
}

fn of_written(answer: Answer<usize>) -> [u64; 3] {
    match answer {
        Ok(n) => [0, 0, n as u64],
        Err(y) => {
            let [number, place] = of_refusal(y);
            [number, place, 0]
        }
    }
}

// ---- comparing

// Whether the numbers, and the memory behind them, are those that the body says.
fn compare<const N: usize>(
    got: [u64; N],
    expected: [u64; N],
    same_memory: bool,
) -> Result<(), Failure> {
    for (i, (x, y)) in got.iter().zip(expected.iter()).enumerate() {
        if *x != *y {
            return Err(Failure::Differs(i));
        }
    }
    if same_memory {
        Ok(())
    } else {
        Err(Failure::Differs(N))
    }
}

// ---- compact numbers

// The width that the next field names.
fn width(fields: &mut Fields) -> Result<Width, Failure> {
    width_of(fields.number(1)? as usize).ok_or(Failure::Misfit)
}

// Width, bytes; number, low, high, used.
fn run_compact_read(mut fields: Fields) -> Result<(), Failure> {
    let width = width(&mut fields)?;
    let bytes = fields.blob()?;
    let expected = fields.numbers([1, 8, 8, 8])?;
    fields.end()?;
    compare(of_reading(compact::read(bytes, width)), expected, true)
}

// Is the value one of the width? Only such a one is ever written.
fn in_width(value: Halves, width: Width) -> bool {
    match width {
        Width::W1 => value.high == 0 && value.low >> 8 == 0,
        Width::W2 => value.high == 0 && value.low >> 16 == 0,
        Width::W4 => value.high == 0 && value.low >> 32 == 0,
        Width::W8 => value.high == 0,
        Width::W16 => true,
    }
}

// Both the encoding and its length, which is found without it, are compared.
fn compare_encoding(value: Halves, expected: &[u8]) -> Result<(), Failure> {
    if !is_encoded(value, expected) {
        return Err(Failure::Differs(0));
    }
    if compact_put::encoded_len(value) != expected.len() {
        return Err(Failure::Differs(1));
    }
    Ok(())
}

// Width, low, high; bytes.
fn run_compact_write(mut fields: Fields) -> Result<(), Failure> {
    let width = width(&mut fields)?;
    let [low, high] = fields.numbers([8, 8])?;
    let expected = fields.blob()?;
    fields.end()?;
    let value = Halves { low, high };
    if !in_width(value, width) {
        return Err(Failure::Misfit);
    }
    compare_encoding(value, expected)
}

// ---- tables

// Table; number, place.
fn run_table_check(mut fields: Fields) -> Result<(), Failure> {
    let table = fields.blob()?;
    let expected = fields.numbers([1, 8])?;
    fields.end()?;
    compare(of_check(table::check(table)), expected, true)
}

// Table; number, place, has, length.
fn run_longest(mut fields: Fields) -> Result<(), Failure> {
    let table = fields.blob()?;
    let expected = fields.numbers([1, 8, 1, 8])?;
    fields.end()?;
    compare(of_longest(totals::longest(table)), expected, true)
}

// ---- reading

// Reads as the flags say: 1 for the whole message, 2 for lent cells, and there are cells only where they are lent. Lent cells may be none, and then C is cut to
// 0: reading without cells is something else.
fn read(
    table: &[u8],
    message: &[u8],
    limits: Limits,
    flags: u64,
    cells: &mut [u64],
) -> Result<Answer<(Totals, usize)>, Failure> {
    match flags {
        0 if cells.is_empty() => Ok(decode::measure_front(table, message, limits)),
        1 if cells.is_empty() => Ok(decode::measure_whole(table, message, limits)),
        2 => Ok(decode::read_front(table, message, limits, cells)),
        3 => Ok(decode::read_whole(table, message, limits, cells)),
        _ => Err(Failure::Misfit),
    }
}

// Table, message, D, M, C, flags, cells before; number, place, bytes, cells, charge, depth, cells after.
fn run_read(mut fields: Fields) -> Result<(), Failure> {
    let table = fields.blob()?;
    let message = fields.blob()?;
    let limits = fields.limits()?;
    let flags = fields.number(1)?;
    let mut cells = fields.cells()?;
    let expected = fields.numbers([1, 8, 8, 8, 8, 8])?;
    let after = fields.cells()?;
    fields.end()?;
    let got = of_read(read(table, message, limits, flags, cells.used_mut())?);
    compare(got, expected, cells.used() == after.used())
}

// ---- writing

// Does the size that is found without writing go with the answer that the case says? It is the same answer, but where the output was too small.
fn size_agrees(answer: Answer<usize>, expected: [u64; 3], room: usize) -> bool {
    if let Ok(n) = answer
        && expected[0] == 22
    {
        return room < n;
    }
    of_written(answer) == expected
}

// Table, cells, out before; number, place, length, out after.
fn run_write(mut fields: Fields) -> Result<(), Failure> {
    let table = fields.blob()?;
    let cells = fields.cells()?;
    let mut out = fields.memory()?;
    let expected = fields.numbers([1, 8, 8])?;
    let after = fields.blob()?;
    fields.end()?;
    let got = of_written(encode::write(table, cells.used(), out.used_mut()));
    compare(got, expected, out.used() == after)?;
    let size = encode::encoded_size(table, cells.used());
    if size_agrees(size, expected, out.used().len()) {
        Ok(())
    } else {
        Err(Failure::Differs(4))
    }
}

// ---- appending

// Table, buffer before, used, k, cells; number, place, used, buffer after.
fn run_append(mut fields: Fields) -> Result<(), Failure> {
    let table = fields.blob()?;
    let mut buffer = fields.memory()?;
    let used = fields.number(8)? as usize;
    let k = fields.number(8)?;
    let cells = fields.cells()?;
    let expected = fields.numbers([1, 8, 8])?;
    let after = fields.blob()?;
    fields.end()?;
    let got = of_written(encode_append::append(table, buffer.used_mut(), used, k, cells.used()));
    compare(got, expected, buffer.used() == after)
}

// ---- all

impl Op {
    // Runs a case of this op, from its body.
    pub fn run(self, body: &[u8]) -> Result<(), Failure> {
        let fields = Fields::new(body);
        match self {
            Op::CompactRead => run_compact_read(fields),
            Op::CompactWrite => run_compact_write(fields),
            Op::TableCheck => run_table_check(fields),
            Op::Longest => run_longest(fields),
            Op::Read => run_read(fields),
            Op::Write => run_write(fields),
            Op::Append => run_append(fields),
        }
    }
}

// The same from the number of an op, if it is one.
pub fn run(number: u8, body: &[u8]) -> Result<(), Failure>
    ensures { op_of number ≡ None → result ≡ Err Failure.Unknown }
{
    Op::of(number).ok_or(Failure::Unknown)?.run(body)
}
