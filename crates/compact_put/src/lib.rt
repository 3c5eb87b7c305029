// SCALE compact numbers at u8 to u128, written: the first form that holds a value, its bytes, their length, and the longest at each width.
#![tactic(auto)]

ghost use Rattle.std.specs.Prelude.{◌≡◌, ◌^◌, ◌≤◌, length};
ghost use Rattle.std.proofs.lemmas.List.Edits.{sets};
ghost use Rattle.rules.specs.Totals.{longest_compact};
ghost use Rattle.rules.specs.Bytes.{le_bytes, whole};
ghost use Rattle.rules.specs.Compact.{significant, long, compact_bytes};
ghost use Rattle.compact_put.specs.Padded.{padded, OfForm};

use rules::{Halves, Width};

// One encoding by value, beside its length. The bytes past the length are 0. (The array stands for the crate's `ArrayVec`, since nothing here allocates.)
#[derive(Clone, Copy)]
pub struct Encoded {
    pub bytes: [u8; 17],
    pub len: usize,
}

// The length of the longest encoding at each width, in the order of `Width`.
const LONGEST: [u8; 5] = [2, 4, 5, 9, 17];

// The length that no encoding of a value of the width exceeds.
pub fn longest(width: Width) -> u8
    ensures { result ≡ longest_compact width }
{
    LONGEST[width as usize]
}

// The forms: the value in all of one, two or four bytes, or a byte that counts the value bytes, and these.
#[derive(Clone, Copy)]
enum Form {
    One,
    Two,
    Four,
    Counted,
}

// The first form that holds a value.
fn form_of(value: Halves) -> Form
    ensures { OfForm result (whole value.low value.high) }
{
    if value.high != 0 {
        return Form::Counted;
    }
    if value.low < 64 {
        return Form::One;
    }
    if value.low < 16384 {
        return Form::Two;
    }
    if value.low < 1073741824 {
        return Form::Four;
    }
    Form::Counted
}

// The length of a value's encoding, which is not made for it.
pub fn encoded_len(value: Halves) -> usize
    ensures { result ≡ length (compact_bytes (whole value.low value.high)) }
{
    match form_of(value) {
        Form::One => 1,
        Form::Two => 2,
        Form::Four => 4,
        Form::Counted => compact::significant(value) as usize + 1,
    }
}

// The lowest n bytes of x by themselves: the forms that have the value in all of their bytes.
fn plain(x: u64, n: usize) -> Encoded
    requires { n ≤ 17 }
    ensures { result ≡ padded (le_bytes n x) }
{
    let mut out = [0u8; 17];
    number::put(&mut out, 0, x, n);
    Encoded { bytes: out, len: n }
}

// A byte that counts the value bytes, and these: both halves are written whole, since what is not significant is 0, as are the bytes past the length.
fn counted(value: Halves) -> Encoded
    requires { 2 ^ 30 ≤ whole value.low value.high }
    ensures { result ≡ padded (long (significant (whole value.low value.high)) (whole value.low value.high)) }
{
    let n = compact::significant(value);
    let mut out = [0u8; 17];
    out[0] = ((n - 4) << 2) | 3;
    number::put_halves(&mut out, 1, value, 16);
    Encoded {
        bytes: out,
        len: n as usize + 1,
    }
}

// A value's one encoding, in the first form that holds it.
pub fn write(value: Halves) -> Encoded
    ensures { result ≡ padded (compact_bytes (whole value.low value.high)) }
{
    match form_of(value) {
        Form::One => plain(value.low << 2, 1),
        Form::Two => plain((value.low << 2) | 1, 2),
        Form::Four => plain((value.low << 2) | 2, 4),
        Form::Counted => counted(value),
    }
}

// Puts the number's one encoding from `at` on, as far as there is room, and answers its length.
pub fn put(value: Halves, out: &mut [u8], at: usize) -> usize
    ensures answers { result ≡ length (compact_bytes (whole value.low value.high)) }
    ensures writes { out.new ≡ sets out.old at (compact_bytes (whole value.low value.high)) }
{
    let encoded = write(value);
    let bytes = encoded.bytes;
    number::copy_at(out, at, &bytes[..encoded.len]);
    encoded.len
}
