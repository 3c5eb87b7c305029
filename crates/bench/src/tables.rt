// Messages of other types, read whole and written back.
use crate::checks::{reads_and_writes, refuses, refuses_unlent, usual, with_memory};
use crate::report::Report;
use rules::Limits;

// A message that says the cells, without a charge and at depth 0.
fn accepted(
    report: &mut Report<impl Print>,
    name: &[u8],
    table: &[u8],
    message: &[u8],
    cells: &[u64],
) {
    let same = reads_and_writes(table, message, usual(), cells, 0, 0);
    report.say_plan(same, name);
    report.say_bytes(message);
    report.count(same);
}

// A vector of u16s: two bytes are charged for each, and the vector is one deep.
fn shorts(
    report: &mut Report<impl Print>,
    name: &[u8],
    message: &[u8],
    limits: Limits,
    cells: &[u64],
    charge: u64,
) {
    let table = b"WTD\x01\x00\x02\x03\x02\x00\x00\x0a\x00\x00\x00";
    let same = reads_and_writes(table, message, limits, cells, charge, 1);
    report.say_plan(same, name);
    report.say_bytes(message);
    report.count(same);
}

// A bit head that is not refused as such: what refuses it comes later. No cells are lent, since no array could be as long as C.
fn bit_head(report: &mut Report<impl Print>, name: &[u8], limits: Limits, number: u32) {
    let bytes = b"\xfe\xff\xff\x7f";
    let same = refuses_unlent(b"WTD\x01\x00\x01\x0b\x00\x00\x00", bytes, limits, number);
    report.say_plan(same, name);
    report.say_bytes(bytes);
    report.say_refusal(number);
    report.count(same);
}

fn refused(
    report: &mut Report<impl Print>,
    name: &[u8],
    table: &[u8],
    message: &[u8],
    limits: Limits,
    number: u32,
) {
    let same = refuses(table, message, limits, number);
    report.say_plan(same, name);
    report.say_bytes(message);
    report.say_refusal(number);
    report.count(same);
}

// Only D limits.
fn with_depth(depth: u32) -> Limits {
    Limits {
        depth,
        memory: 0xffff_ffff_ffff_ffff,
        cells: 0xffff_ffff_ffff_ffff,
    }
}

pub(crate) fn bit_heads(report: &mut Report<impl Print>) {
    bit_head(report, b"2^29 - 1 bits under the usual limits", usual(), 16);
    bit_head(report, b"2^29 - 1 bits under D 0", with_depth(0), 15);
    let limits = with_memory(0xffff_ffff_ffff_ffff);
    bit_head(report, b"2^29 - 1 bits under the usual C", limits, 17);
    bit_head(report, b"2^29 - 1 bits under no limit", with_depth(16), 10);
    let lanes = b"WTD\x01\x00\x01\x0b\x00\x00\x00";
    refused(
        report,
        b"2^29 bits",
        lanes,
        b"\x02\x00\x00\x80",
        usual(),
        14,
    );
}

fn two_shorts(report: &mut Report<impl Print>, name: &[u8], limits: Limits) {
    let message = b"\x08\x01\x00\x02\x00";
    shorts(report, name, message, limits, &[2, 1, 2], 4);
}

pub(crate) fn memory_limits(report: &mut Report<impl Print>) {
    let table = b"WTD\x01\x00\x02\x03\x02\x00\x00\x0a\x00\x00\x00";
    let message = b"\x08\x01\x00\x02\x00";
    refused(
        report,
        b"two u16s under M 4",
        table,
        message,
        with_memory(4),
        16,
    );
    two_shorts(report, b"two u16s under M 5", with_memory(5));
    two_shorts(report, b"two u16s", usual());
}

// A message of one byte, and the same number in the one cell.
fn one_byte(report: &mut Report<impl Print>, name: &[u8], table: &[u8], byte: u8) {
    accepted(report, name, table, &[byte], &[byte as u64]);
}

fn integers(report: &mut Report<impl Print>) {
    let table = b"WTD\x01\x00\x01\x03\x01\x00\x00";
    one_byte(report, b"69 as i8", table, 69);
    let table = b"WTD\x01\x00\x01\x03\x02\x00\x00";
    accepted(report, b"42 as u16", table, b"\x2a\x00", &[42]);
    let table = b"WTD\x01\x00\x01\x03\x04\x00\x00";
    accepted(
        report,
        b"16777215 as u32",
        table,
        b"\xff\xff\xff\x00",
        &[16777215],
    );
}

fn bools(report: &mut Report<impl Print>) {
    let table = b"WTD\x01\x00\x01\x01\x00\x00\x00";
    one_byte(report, b"false", table, 0);
    one_byte(report, b"true", table, 1);
}

pub(crate) fn numbers(report: &mut Report<impl Print>) {
    integers(report);
    bools(report);
}

fn vector(report: &mut Report<impl Print>) {
    let message = b"\x18\x04\x00\x08\x00\x0f\x00\x10\x00\x17\x00\x2a\x00";
    let cells = [6, 4, 8, 15, 16, 23, 42];
    shorts(
        report,
        b"u16s 4, 8, 15, 16, 23, 42",
        message,
        usual(),
        &cells,
        12,
    );
}

fn results(report: &mut Report<impl Print>) {
    let table = b"WTD\x01\x00\x03\x03\x01\x00\x00\x01\x00\x00\x00\x07\x00\x01\x00";
    accepted(report, b"Ok(42)", table, b"\x00\x2a", &[0, 42]);
    accepted(report, b"Err(false)", table, b"\x01\x00", &[1, 0]);
}

fn pair(report: &mut Report<impl Print>) {
    let table = b"WTD\x01\x00\x03\x04\x04\x00\x00\x01\x00\x00\x00\x08\x00\x01\x00";
    accepted(report, b"compact 3 and false", table, b"\x0c\x00", &[3, 0]);
}

fn options(report: &mut Report<impl Print>) {
    let table = b"WTD\x01\x00\x01\x02\x00\x00\x00";
    one_byte(report, b"no bool", table, 0);
    one_byte(report, b"a bool that is true", table, 1);
    one_byte(report, b"a bool that is false", table, 2);
}

pub(crate) fn compounds(report: &mut Report<impl Print>) {
    vector(report);
    results(report);
    pair(report);
    options(report);
}
