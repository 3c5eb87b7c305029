// The names of an answer's fields, as the format has them. One past the last is the function beside the op's own that contradicts the answer.
use cases::Op;

pub(crate) fn names_of(op: Op) -> &'static [&'static str] {
    match op {
        Op::CompactRead => &["number", "low", "high", "used"],
        Op::CompactWrite => &["bytes", "encoded_len"],
        Op::TableCheck => &["number", "place"],
        Op::Longest => &["number", "place", "has", "length"],
        Op::Read => &[
            "number",
            "place",
            "bytes",
            "cells",
            "charge",
            "depth",
            "cells after",
        ],
        Op::Write => &["number", "place", "length", "out after", "encoded_size"],
        Op::Append => &["number", "place", "used", "buffer after"],
    }
}
