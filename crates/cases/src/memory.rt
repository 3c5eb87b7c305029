// The memory that a case lends: room for the longest that the format allows, of which so much is used, since nothing here allocates.
ghost use Rattle.std.specs.Prelude.{◌≤◌, length};

use crate::Failure;
use rules::Halves;

// The bounds of the format.
pub(crate) const MOST_BYTES: usize = 2048;

pub(crate) const MOST_CELLS: usize = 512;

#[derive(Drop)]
pub(crate) struct Lent<T, const N: usize> {
    room: [T; N],
    used: usize,
    ghost in_room: { used ≤ N },
}

pub(crate) type Bytes = Lent<u8, MOST_BYTES>;

pub(crate) type Cells = Lent<u64, MOST_CELLS>;

impl<T, const N: usize> Lent<T, N> {
    pub(crate) fn used(&self) -> &[T] {
        &self.room[..self.used]
    }

    pub(crate) fn used_mut(&mut self) -> &mut [T] {
        let used = self.used;
        let room = &mut self.room;
        &mut room[..][..used]
    }
}

// A copy of the bytes of a field.
pub(crate) fn bytes_from(bytes: &[u8]) -> Bytes
    requires { length bytes.now ≤ 2048 }
{
    let used = bytes.len();
    let mut room = [0; MOST_BYTES];
    room[..used].copy_from_slice(bytes);
    Lent { room, used }
}

// The cells that the bytes of a field say, eight to a cell.
pub(crate) fn cells_from(bytes: &[u8]) -> Result<Cells, Failure> {
    let used = bytes.len() / 8;
    if bytes.len() % 8 != 0 || MOST_CELLS < used {
        return Err(Failure::Misfit);
    }
    let mut room = [0; MOST_CELLS];
    for (cell, bytes) in room.iter_mut().zip(bytes.chunks_exact(8)) {
        *cell = number::word(bytes, 8);
    }
    Ok(Lent { room, used })
}

// Is this the compact encoding of the value?
#[tactic(auto, using(compact_put::specs::Laws::written_room))]
pub(crate) fn is_encoded(value: Halves, expected: &[u8]) -> bool {
    let encoded = compact_put::write(value);
    &encoded.bytes[..encoded.len] == expected
}
