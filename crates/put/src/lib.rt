// The walk over cells by a table, which puts their bytes. It goes over the cells twice: first with no output, to decide, and then, if all cells are taken and there
// is room, with the lent one; so the output has all bytes of a part or none.
#![tactic(auto)]

mod single;
mod walk;

ghost use Rattle.std.specs.Prelude.{◌≡◌, length};
ghost use Rattle.rules.specs.Jobs.{output_after};
ghost use Rattle.rules.specs.Put.{put_of};
ghost use Rattle.rules.specs.Table.{root};
ghost use Rattle.put.specs.Written.{PutsAt, part_put, part_in, part_out};

use rules::{Answer, Node, Reason, refuse};
use table::Checked;
use walk::{put_item, put_items};

// What is written: a value of the root, or items of a root that is a vector, without its head.
#[derive(Clone, Copy)]
pub enum Part {
    Root,
    Items(u64),
}

// A part of what a table describes, from the first cell on and with its bytes from the first one on.
fn put_root(checked: &Checked, part: Part, cells: &[u64], out: &mut [u8]) -> Answer<(usize, usize)>
    ensures { PutsAt 0 0 (part_put part (root checked.now.table.now) cells.now) out.old out.new result }
{
    let node = checked.root();
    match part {
        Part::Root => put_item(checked, node, 0, cells, out, 0),
        Part::Items(k) => {
            match checked.node_at(node) {
                Node::Vector(a) => put_items(checked, a, k, 0, cells, out, 0),
                _ => refuse(Reason::AppendRoot, 0),
            }
        }
    }
}

// Puts a part at the front of the output, if all cells are taken for it and all its bytes go in; the answer is how far it got with no bound.
pub fn put_part(table: &[u8], part: Part, cells: &[u64], out: &mut [u8]) -> Answer<(usize, usize)>
    ensures answers { result ≡ put_of 0 0 (part_in part table.now cells.now) }
    ensures writes { out.new ≡ output_after (part_out part table.now cells.now (length out.old)) out.old }
{
    let checked = table::checked(table)?;
    // With no output first, to decide.
    let (taken, used) = put_root(&checked, part, cells, &mut [])?;
    if taken < cells.len() || out.len() < used {
        return Ok((taken, used));
    }
    put_root(&checked, part, cells, out)
}
