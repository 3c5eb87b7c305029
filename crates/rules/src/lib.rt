// The words that the definitions in specs/ and the code of every crate above share: the widths, leaves and nodes of a type table, the limits, and the answers with
// their refusals. No job is done here: the theory of the format stands in specs/, its laws in proofs/, and a contract's right side is a definition from there.
#![tactic(auto)]

ghost use Rattle.std.specs.Prelude.{◌≡◌, Err};
ghost use Rattle.rules.specs.Refusals.{because, number_of, in_numbers};

// A width of a number, in bytes.
#[derive(Clone, Copy)]
pub enum Width {
    W1,
    W2,
    W4,
    W8,
    W16,
}

// The kinds 0 to 5: what is read and checked at once.
#[derive(Clone, Copy)]
pub enum Leaf {
    Unit,
    Bool,
    OptionBool,
    Fixed(Width),
    Compact(Width),
    Float(Width),
}

// A node of the table, with its children's indices: of an array the number of items stands first. Unknown is a node that no kind allows: a case beside the kinds,
// since `node_in` and the laws of tables speak of it as a node, and a walk is one match over all of them.
#[derive(Clone, Copy)]
pub enum Node {
    Leaf(Leaf),
    Option(usize),
    Result(usize, usize),
    Pair(usize, usize),
    Array(u16, usize),
    Vector(usize),
    Bits,
    Unknown,
}

// Why a job was refused: its number among the refusals.
#[derive(Clone, Copy, PartialEq, Eq, Debug)]
pub enum Reason {
    TableMark = 1,
    TableSize = 2,
    TableNode = 3,
    TableFootprint = 4,
    Short = 10,
    Tag = 11,
    CompactPrefix = 12,
    CompactRange = 13,
    BitCount = 14,
    Depth = 15,
    Memory = 16,
    Cells = 17,
    BytesLeft = 18,
    CellsShort = 20,
    CellUnfit = 21,
    OutputSmall = 22,
    CellsLeft = 23,
    AppendRoot = 30,
    AppendUsed = 31,
    AppendHead = 32,
    AppendCount = 33,
}

impl From<Reason> for u32 {
    ghost from_gives = { λ reason number. number ≡ number_of reason };

    fn from(reason: Reason) -> u32 {
        reason as u32
    }
}

// A refusal: its reason, and the place that goes with it.
#[derive(Clone, Copy, PartialEq, Eq, Debug)]
pub struct Refusal {
    pub reason: Reason,
    pub place: usize,
}

// A refusal in numbers, as it is printed. Its number may also be one that no reason stands for, as a caller's own: `?` turns the jobs' refusals into such ones.
#[derive(Clone, Copy, PartialEq, Eq, Debug)]
pub struct Numbered {
    pub number: u32,
    pub place: usize,
}

impl From<Refusal> for Numbered {
    ghost from_gives = { λ refusal numbered. numbered ≡ in_numbers refusal };

    fn from(refusal: Refusal) -> Numbered {
        Numbered {
            number: refusal.reason.into(),
            place: refusal.place,
        }
    }
}

// What every job answers.
pub type Answer<T> = Result<T, Refusal>;

// The answer of a job that is refused.
pub fn refuse<T>(reason: Reason, place: usize) -> Answer<T>
    ensures { result ≡ Err (because reason place) }
{
    Err(Refusal { reason, place })
}

// D, M and C.
#[derive(Clone, Copy, PartialEq, Eq, Debug)]
pub struct Limits {
    pub depth: u32,
    pub memory: u64,
    pub cells: u64,
}

// What was met so far: the deepest level, the charge, how many cells.
#[derive(Clone, Copy, PartialEq, Eq, Debug)]
pub struct Totals {
    pub depth: u32,
    pub charge: u64,
    pub cells: u64,
}

// A number of 128 bits, in two halves.
#[derive(Clone, Copy, PartialEq, Eq, Debug)]
pub struct Halves {
    pub low: u64,
    pub high: u64,
}

// A number that the low half holds.
impl From<u64> for Halves {
    ghost from_gives = { λ low halves. halves ≡ record { low = low; high = 0 } };

    fn from(low: u64) -> Halves {
        Halves { low, high: 0 }
    }
}

// The most bits of a bit vector, the largest footprint, and the largest count of a vector.
pub const MAX_BITS: u64 = 0x1fff_ffff;

pub const MAX_FOOTPRINT: u64 = 0x7fff_ffff;

pub const MAX_COUNT: u64 = 0xffff_ffff;
