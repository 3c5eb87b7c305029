// Numbers of up to sixteen bytes, in two halves.
ghost use Rattle.std.specs.Prelude.{◌≡◌, min, take};
ghost use Rattle.std.proofs.lemmas.List.Edits.{sets};
ghost use Rattle.rules.specs.Bytes.{le_value, le_bytes, whole, halves};

use crate::{put, word};
use rules::Halves;

// The number that the first n bytes of t say, of sixteen at most.
pub fn halves(t: &[u8], n: usize) -> Halves
    ensures { result ≡ halves (le_value (take (min n 16) t.now)) }
{
    // Most numbers have eight bytes or fewer, and a second word of none would cost as much as the first.
    if n <= 8 {
        return Halves::from(word(t, n));
    }
    let below = n.min(8).min(t.len());
    Halves {
        low: word(t, n),
        high: word(&t[below..], n.saturating_sub(8)),
    }
}

// Writes the lowest n bytes of a number from place `at` on.
pub fn put_halves(out: &mut [u8], at: usize, value: Halves, n: usize)
    ensures { out.new ≡ sets out.old at (le_bytes n (whole value.low value.high)) }
{
    put(out, at, value.low, n.min(8));
    put(out, at.saturating_add(8), value.high, n.saturating_sub(8));
}
