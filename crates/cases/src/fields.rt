// The fields of a body, cut off its front one after another. A number has one, four or eight bytes; a blob and cells have their length in bytes before them.
ghost use Rattle.std.specs.Prelude.{◌≡◌, ◌≤◌, length, IfOk};

use crate::Failure;
use crate::memory::{Bytes, Cells, MOST_BYTES, bytes_from, cells_from};
use rules::Limits;

// What is left of a body.
#[derive(Drop)]
pub(crate) struct Fields<'a> {
    rest: &'a [u8],
}

impl<'a> Fields<'a> {
    pub(crate) fn new(body: &'a [u8]) -> Self {
        Fields { rest: body }
    }

    fn cut(&mut self, n: usize) -> Result<&'a [u8], Failure>
        ensures { IfOk result (λ field. length field.now ≡ n) }
    {
        let (field, rest) = self.rest.split_at_checked(n).ok_or(Failure::Misfit)?;
        self.rest = rest;
        Ok(field)
    }

    fn four_bytes(&mut self) -> Result<u32, Failure> {
        let (field, rest) = self.rest.split_first_chunk().ok_or(Failure::Misfit)?;
        self.rest = rest;
        Ok(u32::from_le_bytes(*field))
    }

    // A number of so many bytes.
    pub(crate) fn number(&mut self, size: usize) -> Result<u64, Failure> {
        Ok(number::word(self.cut(size)?, 8))
    }

    // Numbers in a row, each of so many bytes.
    pub(crate) fn numbers<const N: usize>(
        &mut self,
        sizes: [usize; N],
    ) -> Result<[u64; N], Failure> {
        let mut numbers = [0; N];
        for (number, size) in numbers.iter_mut().zip(&sizes) {
            *number = self.number(*size)?;
        }
        Ok(numbers)
    }

    pub(crate) fn limits(&mut self) -> Result<Limits, Failure> {
        Ok(Limits {
            depth: self.four_bytes()?,
            memory: self.number(8)?,
            cells: self.number(8)?,
        })
    }

    pub(crate) fn blob(&mut self) -> Result<&'a [u8], Failure>
        ensures { IfOk result (λ field. length field.now ≤ 2048) }
    {
        let length = self.four_bytes()? as usize;
        if MOST_BYTES < length {
            return Err(Failure::Misfit);
        }
        self.cut(length)
    }

    // A blob, as memory to lend.
    pub(crate) fn memory(&mut self) -> Result<Bytes, Failure> {
        Ok(bytes_from(self.blob()?))
    }

    pub(crate) fn cells(&mut self) -> Result<Cells, Failure> {
        let length = self.four_bytes()? as usize;
        cells_from(self.cut(length)?)
    }

    // No body has more than its op's fields.
    pub(crate) fn end(self) -> Result<(), Failure> {
        if self.rest.is_empty() {
            Ok(())
        } else {
            Err(Failure::Misfit)
        }
    }
}
