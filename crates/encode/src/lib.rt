// Writing cells as bytes, by any table: what is put, or the number and place of what refuses it. The four writers stay four by name, since callers know them; each
// is a line over `size_of` or `write_part`.
#![tactic(auto)]

ghost use Rattle.std.specs.Prelude.{◌≡◌, ◌-◌, ◌^◌, length};
ghost use Rattle.rules.specs.Jobs.{write_cells, write_items, written_of, output_after};
ghost use Rattle.put.specs.Written.{part_out};
ghost use Rattle.encode.specs.Settled.{settled_of};

use put::{Part, put_part};
use rules::{Answer, Reason, refuse};

// Cells left over are refused, and then an output with too little room.
#[tactic(auto, unfolding(crate::specs::Settled::settled_of))]
fn settled(given: usize, room: usize, put: Answer<(usize, usize)>) -> Answer<usize>
    ensures { result ≡ settled_of given room put }
{
    let (taken, used) = put?;
    if taken < given {
        return refuse(Reason::CellsLeft, taken);
    }
    if room < used {
        return refuse(Reason::OutputSmall, 0);
    }
    Ok(used)
}

// How many bytes a part takes.
#[tactic(auto, using(crate::proofs::Carrying::settled_part))]
fn size_of(table: &[u8], part: Part, cells: &[u64]) -> Answer<usize>
    ensures { result ≡ written_of (part_out part table.now cells.now (2 ^ 64 - 1)) }
{
    let unbounded = put_part(table, part, cells, &mut []);
    settled(cells.len(), usize::MAX, unbounded)
}

// Writes a part.
#[tactic(auto, using(crate::proofs::Carrying::settled_part))]
fn write_part(table: &[u8], part: Part, cells: &[u64], out: &mut [u8]) -> Answer<usize>
    ensures answers { result ≡ written_of (part_out part table.now cells.now (length out.old)) }
    ensures writes { out.new ≡ output_after (part_out part table.now cells.now (length out.old)) out.old }
{
    let room = out.len();
    settled(cells.len(), room, put_part(table, part, cells, out))
}

// How many bytes writing the cells would take: what `write` answers where there is room enough.
pub fn encoded_size(table: &[u8], cells: &[u64]) -> Answer<usize>
    ensures { result ≡ written_of (write_cells table.now cells.now (2 ^ 64 - 1)) }
{
    size_of(table, Part::Root, cells)
}

// Writes the value that the cells say at the front of the output; bytes past its end stay, and a refusal leaves all.
pub fn write(table: &[u8], cells: &[u64], out: &mut [u8]) -> Answer<usize>
    ensures answers { result ≡ written_of (write_cells table.now cells.now (length out.old)) }
    ensures writes { out.new ≡ output_after (write_cells table.now cells.now (length out.old)) out.old }
{
    write_part(table, Part::Root, cells, out)
}

// The same for k items of a root that is a vector, without its head: what an append puts behind the old items.
pub fn items_size(table: &[u8], k: u64, cells: &[u64]) -> Answer<usize>
    ensures { result ≡ written_of (write_items table.now k cells.now (2 ^ 64 - 1)) }
{
    size_of(table, Part::Items(k), cells)
}

pub fn write_items(table: &[u8], k: u64, cells: &[u64], out: &mut [u8]) -> Answer<usize>
    ensures answers { result ≡ written_of (write_items table.now k cells.now (length out.old)) }
    ensures writes { out.new ≡ output_after (write_items table.now k cells.now (length out.old)) out.old }
{
    write_part(table, Part::Items(k), cells, out)
}
