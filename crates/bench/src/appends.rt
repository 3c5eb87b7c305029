// Appends to a vector of bytes.
use crate::report::Report;
use rules::Answer;

fn append(buffer: &mut [u8], used: usize, k: u64, cells: &[u64]) -> Answer<usize> {
    let table = b"WTD\x01\x00\x02\x03\x01\x00\x00\x0a\x00\x00\x00";
    encode_append::append(table, buffer, used, k, cells)
}

// Is it accepted, with so many bytes used, and is this the buffer then?
fn accepts(
    buffer: &mut [u8],
    used: usize,
    k: u64,
    cells: &[u64],
    new_used: usize,
    after: &[u8],
) -> bool {
    append(buffer, used, k, cells) == Ok(new_used) && &*buffer == after
}

// Is it refused because the count would be too large, and is the buffer as it was?
fn refuses(buffer: &mut [u8], used: usize, k: u64, cells: &[u64], before: &[u8]) -> bool {
    let refused = append(buffer, used, k, cells).is_err_and(|y| u32::from(y.reason) == 33);
    refused && &*buffer == before
}

// The bytes 1 to 63 behind a head of one byte.
fn before() -> [u8; 66] {
    let mut buffer = [0xee; 66];
    buffer[0] = 0xfc;
    for i in 1..64u8 {
        buffer[i as usize] = i;
    }
    buffer
}

// The same behind a head of two bytes, and one more: the old bytes have moved up.
fn after() -> [u8; 66] {
    let mut buffer = [0xee; 66];
    buffer[0] = 0x01;
    buffer[1] = 0x01;
    for i in 1..64u8 {
        buffer[i as usize + 1] = i;
    }
    buffer[65] = 200;
    buffer
}

fn grows(report: &mut Report<impl Print>) {
    let mut buffer = before();
    let expected = after();
    let same = accepts(&mut buffer, 64, 1, &[200], 66, &expected);
    report.say_plan(same, b"63 bytes and one more");
    report.count(same);
}

// A count that is as large as it can be: one more is refused, and none is not.
fn full_and_one(report: &mut Report<impl Print>) {
    let head = b"\x03\xff\xff\xff\xff\xee\xee\xee";
    let mut buffer = [0x03, 0xff, 0xff, 0xff, 0xff, 0xee, 0xee, 0xee];
    let same = refuses(&mut buffer, 5, 1, &[200], head);
    report.say_plan(same, b"full count and one more");
    report.say_refusal(33);
    report.count(same);
}

fn full_and_none(report: &mut Report<impl Print>) {
    let head = b"\x03\xff\xff\xff\xff\xee\xee\xee";
    let mut buffer = [0x03, 0xff, 0xff, 0xff, 0xff, 0xee, 0xee, 0xee];
    let none = [0u64; 1];
    let same = accepts(&mut buffer, 5, 0, &none[..0], 5, head);
    report.say_plan(same, b"full count and none more");
    report.count(same);
}

pub(crate) fn plans(report: &mut Report<impl Print>) {
    grows(report);
    full_and_one(report);
    full_and_none(report);
}
