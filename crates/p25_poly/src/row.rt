//! A row of a linear system: its coefficients and its right side.

ghost use Rattle.std.specs.Prelude.{◌≡◌, ◌≢◌, ℕ, ◌<◌, ◌≤◌, length, IfSome, IfNone};

use crate::multiples::add_multiple;
use p25_gf64::Sym;

/// The equation that the sum over the cells of cell times unknown is the right side.
#[derive(Clone, Copy, Debug, PartialEq, Eq)]
pub(crate) struct Row {
    pub(crate) cells: [Sym; 24],
    pub(crate) right: Sym,
    pub ghost full: { length cells ≡ 24 },
}

impl Row {
    ghost use Rattle.p25_gf64.specs.Gf64.{gf64};
    ghost use Rattle.p25_algebra.specs.Series.{coefficient};
    ghost use Rattle.p25_poly.specs.LinearSystem.{IsMet, IsCleared, AgreeBut};

    /// Returns the row of zeros.
    pub(crate) fn blank() -> Row
        ensures cells { (k : ℕ) → coefficient gf64 result.cells k ≡ gf64.zero }
    {
        Row {
            cells: [Sym::default(); 24],
            right: Sym::default(),
        }
    }

    /// Returns the first of a number of columns whose cell is not zero.
    pub(crate) fn pivot(&self, columns: usize) -> Option<usize>
        requires { columns ≤ 24 }
        ensures none { IfNone result ((k : ℕ) → k < columns → coefficient gf64 self.now.cells k ≡ gf64.zero) }
        ensures below { IfSome result (λ column. column < columns) }
        ensures some { IfSome result (λ column. coefficient gf64 self.now.cells column ≢ gf64.zero) }
    {
        for k in 0..columns {
            if !self.cells[k].is_zero() {
                return Some(k);
            }
        }
        None
    }

    /// Returns the row without its cell in a column, by subtracting a multiple of the pivot row.
    pub(crate) fn cleared(&self, front: &Row, column: usize) -> Row
        requires inside { column < 24 }
        requires pivot { coefficient gf64 front.now.cells column ≢ gf64.zero }
        ensures { IsCleared column front.now self.now result }
    {
        let factor = self.cells[column].mul(front.cells[column].inv());
        let mut cells = self.cells;
        add_multiple(&mut cells, factor, &front.cells, 0);
        Row {
            cells,
            right: self.right.add(factor.mul(front.right)),
        }
    }

    /// Changes the unknown of one column so that the equation holds.
    pub(crate) fn correct(&self, unknowns: &mut [Sym], column: usize)
        requires few { length unknowns.old ≤ 24 }
        requires inside { column < length unknowns.old }
        requires pivot { coefficient gf64 self.now.cells column ≢ gf64.zero }
        ensures met { IsMet (length unknowns.old) self.now (coefficient gf64 unknowns.new) }
        ensures others { AgreeBut column (coefficient gf64 unknowns.old) (coefficient gf64 unknowns.new) }
    {
        // The difference of the right side and the sum at these unknowns.
        let mut residual = self.right;
        for k in 0..unknowns.len() {
            residual = residual.add(self.cells[k].mul(unknowns[k]));
        }
        let step = residual.mul(self.cells[column].inv());
        unknowns[column] = unknowns[column].add(step);
    }
}
