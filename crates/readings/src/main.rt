// Readings that a wrong port would get wrong, or would never finish. Each prints the line that the program `wave` would begin with.
#![tactic(auto)]

use rules::{Answer, Limits, Totals};

// What can't be written is left out, and the run goes on.
fn say(rt: &impl Print, text: &[u8]) {
    let _ = rt.write_all(text);
}

fn number(rt: &impl Print, n: u64) {
    let _ = print!(rt; " {n}");
}

fn print(rt: &impl Print, answer: Answer<(Totals, usize)>) {
    match answer {
        Ok((totals, used)) => {
            say(rt, b"ok");
            number(rt, used as u64);
            number(rt, totals.cells);
            number(rt, totals.charge);
            number(rt, totals.depth as u64);
        }
        Err(y) => {
            say(rt, b"refused");
            number(rt, u32::from(y.reason) as u64);
            number(rt, y.place as u64);
        }
    }
}

// Measures the value at the front of s under C.
fn measure(rt: &impl Print, table: &[u8], s: &[u8], cells: u64) {
    let limits = Limits {
        depth: 16,
        memory: 65536,
        cells,
    };
    print(rt, decode::measure_front(table, s, limits));
    say(rt, b"\n");
}

// Reads the whole of s into four cells that hold 9 before, and prints them too.
fn read(rt: &impl Print, table: &[u8], s: &[u8], memory: u64) {
    let limits = Limits {
        depth: 16,
        memory,
        cells: 4096,
    };
    let mut cells = [9u64; 4];
    print(rt, decode::read_whole(table, s, limits, &mut cells));
    say(rt, b":");
    for cell in cells {
        number(rt, cell);
    }
    say(rt, b"\n");
}

// A table of 64 nodes: the first of a kind without children, then each made of the one before: pairs of it, or arrays of 65535.
fn stacked(first: u8, kind: u8) -> [u8; 262] {
    let mut table = [0u8; 262];
    table[..7].copy_from_slice(&[b'W', b'T', b'D', 1, 0, 64, first]);
    for node in 1..64 {
        let below = node - 1;
        let (low, high) = if kind == 8 { (below, 0) } else { (255, 255) };
        let at = 6 + 4 * (node as usize);
        table[at..at + 4].copy_from_slice(&[kind, below, low, high]);
    }
    table
}

// Items without bytes are counted and not walked, so each of these ends, whatever it counts.
fn bounded(rt: &impl Print) {
    let all = 0xffff_ffff_ffff_ffff;
    // 2^32 - 1 units, and the count: there is room for all, just for all, for all but one, and for the count alone
    let units = b"WTD\x01\x00\x02\x00\x00\x00\x00\x0a\x00\x00\x00";
    measure(rt, units, b"\x03\xff\xff\xff\xff", all);
    measure(rt, units, b"\x03\xff\xff\xff\xff", 4294967296);
    measure(rt, units, b"\x03\xff\xff\xff\xff", 4294967295);
    measure(rt, units, b"\x03\xff\xff\xff\xff", 1);
    // 65535^63 units; 2^63 units by pairs; and pairs of bools, whose footprint is above 2^31 - 1 from node 31 on
    measure(rt, &stacked(0, 9), b"", all);
    measure(rt, &stacked(0, 8), b"", all);
    measure(rt, &stacked(1, 8), b"", all);
    // (2^32 - 1) * (2^32 + 1) = 2^64 - 1 units: the most that can be counted; one cell too few; and one unit more
    let most =
        b"WTD\x01\x00\x0a\x00\x00\x00\x00\x09\x00\xff\xff\x08\x00\x00\x00\x08\x01\x02\x00\x09\x03\xff\xff\x08\x04\x02\x00\x09\x05\xff\xff\x09\x06\xff\xff\x08\x06\x06\x00\x08\x07\x08\x00";
    measure(rt, most, b"", all);
    measure(rt, most, b"", all - 1);
    let more =
        b"WTD\x01\x00\x0b\x00\x00\x00\x00\x09\x00\xff\xff\x08\x00\x00\x00\x08\x01\x02\x00\x09\x03\xff\xff\x08\x04\x02\x00\x09\x05\xff\xff\x09\x06\xff\xff\x08\x06\x06\x00\x08\x07\x08\x00\x08\x09\x00\x00";
    measure(rt, more, b"", all);
}

// Bits are kept: a NaN's payload and sign, a negative number, both halves of 128 bits; the padding of a bit vector is not.
fn bits_kept(rt: &impl Print) {
    let single = b"WTD\x01\x00\x01\x05\x04\x00\x00";
    read(rt, single, b"\x01\x00\xc0\x7f", 1);
    read(rt, single, b"\x01\x00\xa0\xff", 1);
    let double = b"WTD\x01\x00\x01\x05\x08\x00\x00";
    read(rt, double, b"\x01\x00\x00\x00\x00\x00\xf4\x7f", 1);
    let byte = b"WTD\x01\x00\x01\x03\x01\x00\x00";
    read(rt, byte, b"\xff", 1);
    let wide = b"WTD\x01\x00\x01\x03\x10\x00\x00";
    read(
        rt,
        wide,
        b"\x01\x00\x00\x00\x00\x00\x00\x00\x02\x00\x00\x00\x00\x00\x00\x80",
        1,
    );
    let lanes = b"WTD\x01\x00\x01\x0b\x00\x00\x00";
    read(rt, lanes, b"\x0c\xfd", 2);
}

// The four things that students get wrong, as far as reading meets them: a small count written long, and a memory limit of 4 for a charge of 4.
fn lessons(rt: &impl Print) {
    let shorts = b"WTD\x01\x00\x02\x03\x02\x00\x00\x0a\x00\x00\x00";
    read(rt, shorts, b"\x08\x01\x00\x02\x00", 65536);
    read(rt, shorts, b"\x09\x00\x01\x00\x02\x00", 65536);
    read(rt, shorts, b"\x08\x01\x00\x02\x00", 4);
    read(rt, shorts, b"\x08\x01\x00\x02\x00", 5);
}

fn main(rt: HostRuntime) {
    bounded(&rt);
    bits_kept(&rt);
    lessons(&rt);
}
