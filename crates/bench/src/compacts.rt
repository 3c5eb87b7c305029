// Compact numbers: each by the compact reader and writer, and as the one node of a table.
use crate::checks::{reads_and_writes, refuses, usual};
use crate::report::Report;
use compact::Reading;
use rules::{Halves, Reason, Width};

// The table of one compact number.
fn table_of(width: Width) -> [u8; 10] {
    let size = compact::size(width);
    [b'W', b'T', b'D', 1, 0, 1, 4, size, 0, 0]
}

// A value of 128 bits has two cells.
fn table_accepts(width: Width, bytes: &[u8], value: u64) -> bool {
    let table = table_of(width);
    match width {
        Width::W16 => reads_and_writes(&table, bytes, usual(), &[value, 0], 0, 0),
        _ => reads_and_writes(&table, bytes, usual(), &[value], 0, 0),
    }
}

// Are the bytes read as the value, and the value written as the bytes?
#[tactic(auto, using(compact_put::specs::Laws::written_room))]
fn accepts(width: Width, bytes: &[u8], value: u64) -> bool {
    let value = Halves::from(value);
    let encoded = compact_put::write(value);
    compact::read(bytes, width) == Ok((value, bytes.len()))
        && &encoded.bytes[..encoded.len] == bytes
}

fn say_compact(
    report: &Report<impl Print>,
    same: bool,
    name: &[u8],
    width: Width,
    how: &[u8],
    bytes: &[u8],
) {
    report.say_plan(same, name);
    report.say_width(width);
    report.say(how);
    report.say_bytes(bytes);
}

// The bytes are the value.
fn accepted(report: &mut Report<impl Print>, name: &[u8], width: Width, bytes: &[u8], value: u64) {
    let same = accepts(width, bytes, value);
    say_compact(report, same, name, width, b"", bytes);
    report.count(same);
    let same = table_accepts(width, bytes, value);
    say_compact(report, same, name, width, b" by a table", bytes);
    report.count(same);
}

fn number_of(answer: Reading) -> u32 {
    match answer {
        Ok(_) => 0,
        Err(fault) => Reason::from(fault).into(),
    }
}

fn table_refuses(width: Width, bytes: &[u8], number: u32) -> bool {
    let table = table_of(width);
    refuses(&table, bytes, usual(), number)
}

// The bytes are no value.
fn refused(report: &mut Report<impl Print>, name: &[u8], width: Width, bytes: &[u8], number: u32) {
    let same = number_of(compact::read(bytes, width)) == number;
    say_compact(report, same, name, width, b"", bytes);
    report.say_refusal(number);
    report.count(same);
    let same = table_refuses(width, bytes, number);
    say_compact(report, same, name, width, b" by a table", bytes);
    report.say_refusal(number);
    report.count(same);
}

pub(crate) fn plans(report: &mut Report<impl Print>) {
    accepted(
        report,
        b"2^32",
        Width::W8,
        b"\x07\x00\x00\x00\x00\x01",
        0x1_0000_0000,
    );
    let bytes = b"\x13\x00\x00\x00\x00\x00\x00\x00\x01";
    accepted(report, b"2^56", Width::W8, bytes, 0x100_0000_0000_0000);
    accepted(report, b"255", Width::W1, b"\xfd\x03", 255);
}

// 0 in a byte more than it needs.
fn zero_in_two_bytes(report: &mut Report<impl Print>, width: Width) {
    refused(report, b"0 in two bytes", width, b"\x01\x00", 13);
}

fn zero_at_every_width(report: &mut Report<impl Print>) {
    zero_in_two_bytes(report, Width::W1);
    zero_in_two_bytes(report, Width::W2);
    zero_in_two_bytes(report, Width::W4);
    zero_in_two_bytes(report, Width::W8);
    zero_in_two_bytes(report, Width::W16);
}

// The least value that the width does not hold.
fn too_large(report: &mut Report<impl Print>) {
    refused(report, b"256", Width::W1, b"\x01\x04", 13);
    refused(report, b"65536", Width::W2, b"\x02\x00\x04\x00", 13);
}

// The first byte of an encoding of several bytes.
fn first_byte_alone(report: &mut Report<impl Print>, width: Width, byte: u8, number: u32) {
    refused(report, b"first byte alone", width, &[byte], number);
}

fn first_byte_at_every_width(report: &mut Report<impl Print>) {
    first_byte_alone(report, Width::W1, 0x02, 12);
    first_byte_alone(report, Width::W2, 0x03, 12);
    first_byte_alone(report, Width::W4, 0x07, 13);
    first_byte_alone(report, Width::W8, 0x17, 12);
    first_byte_alone(report, Width::W16, 0x37, 12);
}

pub(crate) fn refusals(report: &mut Report<impl Print>) {
    zero_at_every_width(report);
    too_large(report);
    first_byte_at_every_width(report);
}

// A value of u64 and wider, of u16 and wider, and of every width.
fn from_u64(report: &mut Report<impl Print>, name: &[u8], bytes: &[u8], value: u64) {
    accepted(report, name, Width::W8, bytes, value);
    accepted(report, name, Width::W16, bytes, value);
}

fn from_u16(report: &mut Report<impl Print>, name: &[u8], bytes: &[u8], value: u64) {
    accepted(report, name, Width::W2, bytes, value);
    accepted(report, name, Width::W4, bytes, value);
    from_u64(report, name, bytes, value);
}

fn from_u8(report: &mut Report<impl Print>, name: &[u8], bytes: &[u8], value: u64) {
    accepted(report, name, Width::W1, bytes, value);
    from_u16(report, name, bytes, value);
}

fn small_examples(report: &mut Report<impl Print>) {
    from_u8(report, b"compact 0", b"\x00", 0);
    from_u8(report, b"compact 1", b"\x04", 1);
    from_u8(report, b"compact 42", b"\xa8", 42);
    from_u8(report, b"compact 69", b"\x15\x01", 69);
}

fn large_examples(report: &mut Report<impl Print>) {
    from_u16(report, b"compact 65535", b"\xfe\xff\x03\x00", 65535);
    let bytes = b"\x0b\x00\x40\x7a\x10\xf3\x5a";
    from_u64(report, b"compact 100000000000000", bytes, 100000000000000);
}

pub(crate) fn examples(report: &mut Report<impl Print>) {
    small_examples(report);
    large_examples(report);
}
