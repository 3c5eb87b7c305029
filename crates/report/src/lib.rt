// What the program prints, as bytes: `ok` with the bytes, cells, charge and depth of a message that is accepted, and its cells, a line each; or the one line of a
// refusal. It is put into lent memory; a byte past the end of that is not written, and the answer is how long the whole text is. So a caller that lends MOST
// bytes has all of it.
#![tactic(auto)]

ghost use Rattle.std.specs.Prelude.{◌≡◌, ◌++◌, ◌+◌, ◌*◌, ◌≤◌, ◌<◌, ◌^◌, length};
ghost use Rattle.std.proofs.lemmas.List.Edits.{sets};
ghost use Rattle.rules.specs.Basics.{flat};
ghost use Rattle.report.specs.Text.{ok_line, refused_line, cell_line, report_of, unreadable};
ghost use Rattle.report.specs.Contract.{Contract};

use rules::{Limits, Totals};

// D, M and C of the program.
const DEPTH: u32 = 16;

const MEMORY: u64 = 65536;

const CELLS: usize = 4096;

// A file is missing or too large: the program's own refusal number. No reader answers it, so it is no `Reason`.
const UNREADABLE: u32 = 40;

// No report is longer: a line of `ok` and four numbers, and a line for each of 4096 cells, all numbers of 20 digits.
pub const MOST: usize = 86103;

// The text so far: the lent memory, and where the text ends. That is past the memory where less than the text was lent. What each method asks is room for the
// numbers of its own text, so it is no fact of the type.
#[derive(Drop)]
struct Writer<'a> {
    out: &'a mut [u8],
    end: usize,
}

impl<'a> Writer<'a> {
    ghost use Rattle.report.specs.Writer.{Adds, ended};

    // Puts a text behind what stands, as far as it goes in. All that follow do the same with texts of their own.
    fn put(&mut self, text: &[u8])
        requires { self.old.end + length text.now < 2 ^ 64 }
        ensures { Adds text.now self.old self.new }
    {
        number::copy_at(self.out, self.end, text);
        self.end += text.len();
    }

    // A number in decimal, and one byte more. `write!` promises its text only where it answers Ok, and not that it does; so the digits are those of `io::decimal`.
    fn number(&mut self, n: u64, last: u8)
        requires { self.old.end + 21 < 2 ^ 64 }
        ensures adds { Adds (ended n last) self.old self.new }
        ensures short { self.new.end ≤ self.old.end + 21 }
    {
        let mut digits = [0u8; 20];
        let k = io::decimal(n, &mut digits);
        self.put(&digits[..k]);
        self.put(&[last]);
    }

    // Two numbers with a space between them, and one byte more.
    fn two(&mut self, a: u64, b: u64, last: u8)
        requires { self.old.end + 42 < 2 ^ 64 }
        ensures adds { Adds (ended a 32 ++ ended b last) self.old self.new }
        ensures short { self.new.end ≤ self.old.end + 42 }
    {
        self.number(a, b' ');
        self.number(b, last);
    }

    // A line for each cell.
    fn cells(&mut self, cells: &[u64])
        requires { self.old.end + 21 * length cells.now < 2 ^ 64 }
        ensures { Adds (flat cell_line cells.now) self.old self.new }
    {
        for cell in cells {
            self.number(*cell, b'\n');
        }
    }
}

fn put_refused(number: u32, place: usize, out: &mut [u8]) -> usize
    ensures { Contract (refused_line number place) out.old result out.new }
{
    let mut writer = Writer { out, end: 0 };
    writer.put(b"refused ");
    writer.two(number as u64, place as u64, b'\n');
    writer.end
}

fn put_done(totals: Totals, used: usize, cells: &[u64], out: &mut [u8]) -> usize
    requires { length cells.now ≤ 4096 }
    ensures { Contract (ok_line totals used ++ flat cell_line cells.now) out.old result out.new }
{
    let mut writer = Writer { out, end: 0 };
    writer.put(b"ok ");
    writer.two(used as u64, totals.cells, b' ');
    writer.two(totals.charge, totals.depth as u64, b'\n');
    writer.cells(cells);
    writer.end
}

// The report on a message: how long it is. It stands at the front of out, as far as it goes in, and what is behind it stays.
pub fn report(table: &[u8], message: &[u8], out: &mut [u8]) -> usize
    ensures answers { result ≡ length (report_of table.now message.now) }
    ensures writes { out.new ≡ sets out.old 0 (report_of table.now message.now) }
{
    let limits = Limits {
        depth: DEPTH,
        memory: MEMORY,
        cells: CELLS as u64,
    };
    let mut cells = [0u64; CELLS];
    match decode::read_whole(table, message, limits, &mut cells) {
        Ok((totals, used)) => put_done(totals, used, &cells[..totals.cells as usize], out),
        Err(refusal) => put_refused(refusal.reason.into(), refusal.place, out),
    }
}

// The line of the refusal that comes before any other: a file is missing or too large. Likewise.
#[tactic(auto, unfolding(crate::specs::Text::unreadable))]
pub fn report_unreadable(out: &mut [u8]) -> usize
    ensures answers { result ≡ length unreadable }
    ensures writes { out.new ≡ sets out.old 0 unreadable }
{
    put_refused(UNREADABLE, 0, out)
}
