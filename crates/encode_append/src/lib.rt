// Appending items to an encoded vector, in the buffer that holds it. Of the old bytes only the count is read: its head is replaced, the bytes behind it follow
// unchanged, and the new items stand behind these. All is decided before the first byte is put, so a refusal leaves the buffer as it was.
#![tactic(auto)]

ghost use Rattle.std.specs.Prelude.{◌≡◌, ◌++◌, ◌+◌, ◌-◌, ◌^◌, ◌≤◌, MatchResult, length, take, drop};
ghost use Rattle.rules.specs.Basics.{onto};
ghost use Rattle.rules.specs.Compact.{compact_bytes};
ghost use Rattle.rules.specs.Jobs.{not, write_items, written_of, output_after, old_count, append};
ghost use Rattle.rules.specs.Parser.{got};
ghost use Rattle.rules.specs.Refusals.{max_count};
ghost use Rattle.encode_append.specs.Joins.{root_check, heads_of, items_behind, Replaces, Joins};

use rules::{Answer, Halves, Node, Reason, refuse};

// What the heads are: the new count, the length of the old head and that of the new one.
#[derive(Clone, Copy)]
pub(crate) struct Heads {
    count: u64,
    old: usize,
    new: usize,
}

// What an append does: the heads, and where the bytes behind the old one end once they are moved.
#[derive(Clone, Copy)]
pub(crate) struct Plan {
    heads: Heads,
    end: usize,
}

// The table's own refusals, and then a root to which nothing can be appended.
fn check_root(table: &[u8]) -> Answer<()>
    ensures { result ≡ root_check table.now }
{
    let checked = table::checked(table)?;
    match checked.node_at(checked.root()) {
        Node::Vector(_) => Ok(()),
        _ => refuse(Reason::AppendRoot, 0),
    }
}

// k items more than the old count, whose head has `len` bytes. The sum could wrap: so the test goes by a difference.
fn counted(old: u64, len: usize, k: u64) -> Answer<Heads>
    requires { old ≤ max_count }
    ensures { result ≡ heads_of k (got old len) }
{
    if rules::MAX_COUNT - old < k {
        return refuse(Reason::AppendCount, 0);
    }
    let new_count = old + k;
    Ok(Heads {
        count: new_count,
        old: len,
        new: compact_put::encoded_len(Halves::from(new_count)),
    })
}

// The heads, from the used bytes and the number of new items. Where there are no bytes the old count is 0, and it has no head.
fn extract_length_data(s: &[u8], k: u64) -> Answer<Heads>
    ensures { result ≡ heads_of k (old_count s.now) }
{
    if s.len() == 0 {
        return counted(0, 0, k);
    }
    match leaf::count_from(0, s) {
        Ok((old, len)) => counted(old, len, k),
        Err(_) => refuse(Reason::AppendHead, 0),
    }
}

// How many bytes the items take, behind the first `end` of `room` bytes: their own refusals, and then 22. No sum of lengths is made, so none wraps.
fn items_behind(table: &[u8], k: u64, cells: &[u64], end: usize, room: usize) -> Answer<usize>
    ensures { result ≡ written_of (items_behind end room (write_items table.now k cells.now (2 ^ 64 - 1))) }
{
    let items = encode::items_size(table, k, cells)?;
    if room < end || room - end < items {
        return refuse(Reason::OutputSmall, 0);
    }
    Ok(items)
}

// Decides everything, in the order of the refusals.
fn planned(table: &[u8], buf: &[u8], used: usize, k: u64, cells: &[u64]) -> Answer<Plan>
    ensures { MatchResult result (Joins table.now buf.now used k cells.now) (λ y. append table.now buf.now used k cells.now ≡ not y) }
{
    check_root(table)?;
    if buf.len() < used {
        return refuse(Reason::AppendUsed, 0);
    }
    let heads = extract_length_data(&buf[..used], k)?;
    let end = heads.new + (used - heads.old);
    items_behind(table, k, cells, end, buf.len())?;
    Ok(Plan { heads, end })
}

// The new head in place of the old one, with the old items behind it.
fn replace_head(buf: &mut [u8], used: usize, heads: Heads)
    requires { Replaces buf.old used heads }
    ensures { buf.new ≡ onto (compact_bytes heads.count ++ drop heads.old (take used buf.old)) buf.old }
{
    // Bytes that stay where they are are not gone through, so that an append costs no more than its items unless the head grows.
    if heads.old != heads.new {
        buf.copy_within(heads.old..used, heads.new);
    }
    compact_put::put(Halves::from(heads.count), buf, 0);
}

// Appends k items, which the cells say, to the vector that the first `used` bytes of the buffer hold, or makes one of them where `used` is 0. The answer is how many
// bytes are used now; those past them stay.
pub fn append(table: &[u8], buf: &mut [u8], used: usize, k: u64, cells: &[u64]) -> Answer<usize>
    ensures answers { result ≡ written_of (append table.now buf.old used k cells.now) }
    ensures writes { buf.new ≡ output_after (append table.now buf.old used k cells.now) buf.old }
{
    let plan = planned(table, buf, used, k, cells)?;
    replace_head(buf, used, plan.heads);
    let items = encode::write_items(table, k, cells, &mut buf[plan.end..])?;
    Ok(plan.end + items)
}
