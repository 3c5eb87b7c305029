// Unsigned words that a bit vector's bits stand in, lowest bit first: the bytes of a message and the cells that are lent.

ghost use Rattle.std.specs.Prelude.{◌≡◌, ℕ, ◌^◌, ◌≤◌, ◌<◌};
ghost use Rattle.std.proofs.Common.{rules};

pub trait Word: Copy {
    ghost BITS: { ℕ };

    const BITS: usize;

    // The number that a word says.
    ghost value: { Self → ℕ };

    fn number(self) -> u64
        ensures value { result ≡ value self }
        ensures fits { result < 2 ^ BITS };

    fn from_number(number: u64) -> Self
        requires { number < 2 ^ BITS }
        ensures { value result ≡ number };

    ghost some_bits: { 0 < BITS };

    ghost at_most_64: { BITS ≤ 64 };
}

impl Word for u8 {
    ghost BITS = { 8 };

    const BITS: usize = 8;

    ghost value = { λ x. x };

    ghost some_bits = { Prim.search rules };

    ghost at_most_64 = { Prim.search rules };

    fn number(self) -> u64 {
        self as u64
    }

    fn from_number(number: u64) -> u8 {
        number as u8
    }
}

impl Word for u64 {
    ghost BITS = { 64 };

    const BITS: usize = 64;

    ghost value = { λ x. x };

    ghost some_bits = { Prim.search rules };

    ghost at_most_64 = { Prim.search rules };

    fn number(self) -> u64 {
        self
    }

    fn from_number(number: u64) -> u64 {
        number
    }
}
