// The limits along the way: depth, memory and cells, in one record by value in place of three inputs that wrap one another, and the lent cells. A cell
// past the end of what was lent is not written: so one walker decides, with none lent, and then fills.
#![tactic(auto)]

ghost use Rattle.std.specs.Prelude.{◌≡◌, ◌+◌, ◌-◌, ◌*◌, Err};
ghost use Rattle.std.proofs.lemmas.List.Edits.{sets};
ghost use Rattle.rules.specs.Scan.Pass.{plain_pass, entry_pass, landed};
ghost use Rattle.rules.specs.Scan.Units.{units_at, zeros};

use rules::{Answer, Limits, Numbered, Reason, Totals, refuse};

// Writes cells from a place on, as far as they were lent. There are one or two, so they go one by one: a copy of as few is a call that costs more than they do.
fn store(cells: &mut [u64], at: u64, new: &[u64])
    ensures { cells.new ≡ sets cells.old at new.now }
{
    let mut i = at as usize;
    for cell in new {
        if cells.len() <= i {
            return;
        }
        cells[i] = *cell;
        i += 1;
    }
}

// Writes n cells 0, as far as they were lent, whatever n is.
fn store_zeros(cells: &mut [u64], at: u64, n: u64)
    ensures { cells.new ≡ sets cells.old at (zeros n) }
{
    let at = (at as usize).min(cells.len());
    let n = (n as usize).min(cells.len() - at);
    cells[at..at + n].fill(0);
}

// The limits, and what was met so far. The lent cells stand beside it in each call: in one record with them it could not go on by value.
#[derive(Clone, Copy)]
pub struct Meter {
    pub limits: Limits,
    pub totals: Totals,
}

// The answer of a walk that is refused by a number, also by one that no reason stands for. The walks' own refusals are made by `rules::refuse`.
pub fn refused(number: u32, place: usize) -> Result<(Totals, usize), Numbered>
    ensures { result ≡ Err (record { number = number; place = place }) }
{
    Err(Numbered { number, place })
}

impl Meter {
    // How many cells there is room for.
    fn room(self) -> u64
        ensures { result ≡ self.limits.cells - self.totals.cells }
    {
        self.limits.cells.saturating_sub(self.totals.cells)
    }

    // Passes the cells of a scalar or a tag, from `at` to `end`: there is room for all of them, or none is written.
    pub fn pass(
        self,
        at: usize,
        end: usize,
        new: &[u64],
        cells: &mut [u64],
    ) -> Answer<(Totals, usize)>
        ensures answers { result ≡ (plain_pass self.limits self.totals at new.now end).answer }
        ensures writes { cells.new ≡ landed cells.old self.totals (plain_pass self.limits self.totals at new.now end) }
    {
        let t = self.totals;
        let n = new.len() as u64;
        let room = self.room();
        if self.limits.cells < t.cells || room < n {
            return refuse(Reason::Cells, at);
        }
        store(cells, t.cells, new);
        Ok((
            Totals {
                cells: t.cells + n,
                ..t
            },
            end,
        ))
    }

    // Enters a vector or a bit vector of n items or bits, inside `level` others: depth, then memory, then room for its count and for `extra` cells beyond.
    pub fn enter(
        self,
        level: u32,
        at: usize,
        end: usize,
        n: u64,
        charge: u64,
        extra: u64,
        cells: &mut [u64],
    ) -> Answer<(Totals, usize)>
        ensures answers { result ≡ (entry_pass self.limits self.totals (record { place = at; level = level + 1; charge = charge; cell = n; extra = extra }) end).answer }
        ensures writes { cells.new ≡ landed cells.old self.totals (entry_pass self.limits self.totals (record { place = at; level = level + 1; charge = charge; cell = n; extra = extra }) end) }
    {
        if self.limits.depth <= level {
            return refuse(Reason::Depth, at);
        }
        let t = self.totals;
        let total = t.charge.saturating_add(charge);
        if self.limits.memory <= total {
            return refuse(Reason::Memory, at);
        }
        if self.room() <= extra {
            return refuse(Reason::Cells, at);
        }
        store(cells, t.cells, &[n]);
        let depth = t.depth.max(level + 1);
        Ok((
            Totals {
                depth,
                charge: total,
                cells: t.cells + 1,
            },
            end,
        ))
    }

    // Passes n times as many units as `more` and one: as many as there is room for, by a product that cannot wrap and not by a walk. A caller gives 2^64 - 1
    // for `more` also where there are more than 2^64.
    pub fn pass_units(
        self,
        at: usize,
        n: u64,
        more: u64,
        cells: &mut [u64],
    ) -> Answer<(Totals, usize)>
        ensures answers { result ≡ (units_at self.limits self.totals at (n * (more + 1))).answer }
        ensures writes { cells.new ≡ landed cells.old self.totals (units_at self.limits self.totals at (n * (more + 1))) }
    {
        let t = self.totals;
        if self.limits.cells < t.cells {
            return refuse(Reason::Cells, at);
        }
        if n == 0 {
            return Ok((t, at));
        }
        let left = self.room();
        if left / n <= more {
            store_zeros(cells, t.cells, left);
            return refuse(Reason::Cells, at);
        }
        let all = n * (more + 1);
        store_zeros(cells, t.cells, all);
        Ok((
            Totals {
                cells: t.cells + all,
                ..t
            },
            at,
        ))
    }
}
