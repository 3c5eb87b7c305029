// SCALE compact numbers at u8 to u128, read. The low two bits of the first byte choose the form.
// A value is two 64-bit halves and the width an argument, so that one code and one proof serve every width.
#![tactic(auto)]

ghost use Rattle.std.specs.Prelude.{◌≡◌, ◌∷◌, ◌+◌, ◌-◌, ◌*◌, ◌/◌, ◌%◌, ◌^◌, max, ◌≤◌, length, take};
ghost use Rattle.rules.specs.Types.{size};
ghost use Rattle.rules.specs.Bytes.{le_value, whole};
ghost use Rattle.rules.specs.Compact.{significant, settled, form0, form1, form2, form3, compact_from};
ghost use Rattle.compact.specs.Faults.{reason_of};
ghost use Rattle.compact.specs.Halves.{in_halves};

use rules::{Halves, Reason, Width};

// Why a compact number is not read.
#[derive(Clone, Copy, PartialEq, Eq, Debug)]
pub enum Fault {
    Short,
    Prefix,
    Range,
}

impl From<Fault> for Reason {
    ghost from_gives = { λ fault reason. reason ≡ reason_of fault };

    fn from(fault: Fault) -> Reason {
        match fault {
            Fault::Short => Reason::Short,
            Fault::Prefix => Reason::CompactPrefix,
            Fault::Range => Reason::CompactRange,
        }
    }
}

// What reading answers: a value with the bytes that it took.
pub type Reading = Result<(Halves, usize), Fault>;

// A width's bytes. They are not the cases' own numbers: by these the table of longest lengths is read, and a shift
// by them would hide which width has which size.
pub fn size(width: Width) -> u8
    ensures { result ≡ size width }
{
    match width {
        Width::W1 => 1,
        Width::W2 => 2,
        Width::W4 => 4,
        Width::W8 => 8,
        Width::W16 => 16,
    }
}

// How many bytes of a value are significant, none of 0.
pub fn significant(value: Halves) -> u8
    ensures { result ≡ significant (whole value.low value.high) }
{
    if value.high == 0 {
        (8 - value.low.leading_zeros() / 8) as u8
    } else {
        (16 - value.high.leading_zeros() / 8) as u8
    }
}

// The form that a first byte chooses. It is the two bits themselves, as the format has them: an enum of four cases would be made by one match and taken apart by
// the next.
fn form(b: u8) -> u8
    ensures { result ≡ b % 4 }
{
    b & 3
}

// What a first byte says besides the form: the value, its lowest bits, or how many bytes more than four follow.
fn upper(b: u8) -> u8
    ensures { result ≡ b / 4 }
{
    b >> 2
}

// The value of a form that has it in all of its bytes, b and the first n of s: what these say, shifted right past the form.
fn joined(b: u8, s: &[u8], n: usize) -> u64
    requires { (n ≤ 7) × (n ≤ length s.now) }
    ensures { result ≡ le_value (b ∷ take n s.now) / 4 }
{
    ((number::word(s, n) << 8) | b as u64) >> 2
}

// The answer for a value in a form whose values start at `least`: a smaller one has a shorter form, and a larger one may not fit the width.
fn settle(value: Halves, least: u64, width: Width, used: usize) -> Reading
    ensures { result ≡ in_halves (settled (size width) least (whole value.low value.high) used) }
{
    if size(width) < significant(value) {
        return Err(Fault::Range);
    }
    if value.high == 0 && value.low < least {
        return Err(Fault::Range);
    }
    Ok((value, used))
}

// The same for n value bytes: where fewer are significant the top one is 0, and a shorter count would do.
fn settle_long(value: Halves, n: u8, width: Width) -> Reading
    requires { (4 ≤ n) × (n ≤ 16) }
    ensures { result ≡ in_halves (settled (size width) (max (2 ^ 30) (2 ^ (8 * (n - 1)))) (whole value.low value.high) (n + 1)) }
{
    if significant(value) < n {
        return Err(Fault::Range);
    }
    settle(value, 1073741824, width, n as usize + 1)
}

// Form 0: the value stands in the first byte.
fn one(b: u8, width: Width) -> Reading
    ensures { result ≡ in_halves (form0 (size width) b) }
{
    settle(Halves::from(upper(b) as u64), 0, width, 1)
}

// Form 1: the first byte and one more.
fn two(b: u8, s: &[u8], width: Width) -> Reading
    ensures { result ≡ in_halves (form1 (size width) b s.now) }
{
    if s.len() < 1 {
        return Err(Fault::Short);
    }
    settle(Halves::from(joined(b, s, 1)), 64, width, 2)
}

// Form 2: the first byte and three more, refused before these are looked for at u8, where no value needs them.
fn four(b: u8, s: &[u8], width: Width) -> Reading
    ensures { result ≡ in_halves (form2 (size width) b s.now) }
{
    if size(width) < 2 {
        return Err(Fault::Prefix);
    }
    if s.len() < 3 {
        return Err(Fault::Short);
    }
    settle(Halves::from(joined(b, s, 3)), 16384, width, 4)
}

// Form 3: n value bytes, refused before they are looked for where the width has fewer, as out of range at u32 and by the prefix elsewhere.
fn many(n: u8, s: &[u8], width: Width) -> Reading
    requires { 4 ≤ n }
    ensures { result ≡ in_halves (form3 (size width) n s.now) }
{
    if size(width) < n {
        if size(width) == 4 {
            return Err(Fault::Range);
        }
        return Err(Fault::Prefix);
    }
    let count = n as usize;
    if s.len() < count {
        return Err(Fault::Short);
    }
    settle_long(number::halves(s, count), n, width)
}

// What a first byte b says with s after it.
fn read_from(b: u8, s: &[u8], width: Width) -> Reading
    ensures { result ≡ in_halves (compact_from (size width) (b ∷ s.now)) }
{
    match form(b) {
        0 => one(b, width),
        1 => two(b, s, width),
        2 => four(b, s, width),
        _ => many(upper(b) + 4, s, width),
    }
}

// Reads a compact number at a width from the front of s: the first byte is taken by value, and the rest handed on.
pub fn read(s: &[u8], width: Width) -> Reading
    ensures { result ≡ in_halves (compact_from (size width) s.now) }
{
    if s.len() == 0 {
        return Err(Fault::Short);
    }
    let b = s[0];
    read_from(b, &s[1..], width)
}
