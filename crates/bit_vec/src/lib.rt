// Bit vectors: n bits, lowest bit first, moved from the bytes of a message into 64-bit cells and back. Bits past n are ignored where they are read and 0 where they
// are written. What does not fit the lent memory is left out, so that a caller who lends none only learns whether the bits are there.
#![tactic(auto)]

ghost use Rattle.std.specs.Prelude.{◌≡◌, ◌*◌, ◌/◌, ◌%◌, ◌^◌, ◌≤◌, ◌<◌, length, take, drop, map};
ghost use Rattle.std.specs.Int.{div_ceil};
ghost use Rattle.std.proofs.lemmas.List.Edits.{sets};
ghost use Rattle.rules.specs.Bits.{bits_value, pack, lanes};
ghost use Rattle.bit_vec.specs.Moves.{bits_read, cells_read, bits_written, bytes_written, clear_cells};

mod word;

use rules::{Answer, Reason, refuse};
use word::Word;

// One bit of a word, counted from the lowest.
fn bit(word: u64, place: usize) -> u64
    requires { place < 64 }
    ensures { result ≡ word / 2 ^ place % 2 }
{
    (word >> place) % 2
}

// Word j of the n bits in `from`, gathered from its last bit to its first, so that each bit doubles what came before it.
fn word_of<F: Word, T: Word>(n: usize, from: &[F], j: usize) -> T
    requires all_there { n ≤ length from.now * F.BITS }
    requires begun { j * T.BITS < n }
    ensures { T.value result ≡ bits_value (take T.BITS (drop (j * T.BITS) (lanes F.BITS n (map F.value from.now)))) }
{
    let first = j * T::BITS;
    let count = T::BITS.min(n - first);
    let mut value = 0;
    for left in (0..count).rev() {
        let i = first + left;
        value = value * 2 + bit(from[i / F::BITS].number(), i % F::BITS);
    }
    T::from_number(value)
}

// Stores the n bits in `from` as words from a place on, as far as there are places.
fn store<F: Word, T: Word>(n: usize, from: &[F], to: &mut [T], at: usize)
    requires { n ≤ length from.now * F.BITS }
    ensures { map T.value to.new ≡ sets (map T.value to.old) at (pack T.BITS (div_ceil n T.BITS) (lanes F.BITS n (map F.value from.now))) }
{
    // At most to the end of what is lent, so that no place wraps.
    let count = n.div_ceil(T::BITS).min(to.len().saturating_sub(at));
    for j in 0..count {
        to[at + j] = word_of(n, from, j);
    }
}

// Reads n bits of a bit vector that starts at offset `start` from the front of s into the cells from a place on: how many bytes they took. If they are refused, the
// cells stay.
pub fn read(n: u64, start: usize, s: &[u8], cells: &mut [u64], at: usize) -> Answer<usize>
    ensures answers { result ≡ bits_read n start s.now }
    ensures writes { cells.new ≡ cells_read n start s.now cells.old at }
{
    let n = n as usize;
    let used = n.div_ceil(8);
    if s.len() < used {
        return refuse(Reason::Short, start);
    }
    store(n, &s[..used], cells, at);
    Ok(used)
}

// Writes n bits from the front of a list of cells into the output from a place on: how many bytes they take. If their cells are not all there, it is None, and the
// output stays.
pub fn write(n: u64, cells: &[u64], out: &mut [u8], at: usize) -> Option<usize>
    ensures answers { result ≡ bits_written n cells.now }
    ensures writes { out.new ≡ bytes_written n cells.now out.old at }
{
    let n = n as usize;
    let used = n.div_ceil(64);
    if cells.len() < used {
        return None;
    }
    store(n, &cells[..used], out, at);
    Some(n.div_ceil(8))
}

// Whether no bit past n is set in the cells that hold n bits, of which some may be missing. Only the cell that n ends in has bits past n.
pub fn clear(n: u64, cells: &[u64]) -> bool
    ensures { result ≡ clear_cells n cells.now }
{
    let n = n as usize;
    let whole = n / 64;
    // No cell is begun and not filled, or it is not there.
    if n.div_ceil(64).min(cells.len()) <= whole {
        return true;
    }
    cells[whole] < 1 << (n % 64)
}
