// Numbers of up to eight bytes, lowest byte first: read from the front of a slice, and written into one.
// Both take any count: what is not there is not read, and what falls past the end is not written.
#![tactic(auto)]

mod copy;
mod wide;

ghost use Rattle.std.specs.Prelude.{◌≡◌, ◌*◌, ◌%◌, ◌^◌, min, take};
ghost use Rattle.std.proofs.lemmas.List.Edits.{sets};
ghost use Rattle.rules.specs.Bytes.{le_value, le_bytes};

pub use copy::copy_at;
pub use wide::{halves, put_halves};

// What the lowest n bytes of x say.
fn lowest(x: u64, n: usize) -> u64
    ensures { result ≡ x % 2 ^ (8 * min n 8) }
{
    if n < 8 { x % (1 << (8 * n)) } else { x }
}

// The number that the first n bytes of t say, of eight at most. A byte that is not there, or not asked for, counts as 0.
pub fn word(t: &[u8], n: usize) -> u64
    ensures { result ≡ le_value (take (min n 8) t.now) }
{
    // Where eight bytes are there, they are read at once: a copy of a few is a call, which costs more than all else here.
    if let Some(eight) = t.first_chunk() {
        return lowest(u64::from_le_bytes(*eight), n);
    }
    let n = n.min(8).min(t.len());
    let mut bytes = [0; 8];
    bytes[..n].copy_from_slice(&t[..n]);
    u64::from_le_bytes(bytes)
}

// Writes the lowest n bytes of x from place `at` on. Its loop stands since n may be more than the eight that `to_le_bytes` gives: the others are 0.
pub fn put(out: &mut [u8], at: usize, x: u64, n: usize)
    ensures { out.new ≡ sets out.old at (le_bytes n x) }
{
    let at = at.min(out.len());
    let end = at + n.min(out.len() - at);
    let mut left = x;
    let part = &mut out[at..end];
    for byte in part.iter_mut() {
        *byte = (left % 256) as u8;
        left /= 256;
    }
}
