//! A matrix over GF(64) of bounded size: its type and its entries.

ghost use Rattle.std.specs.Prelude.{◌≡◌, ℕ, ◌<◌, ◌≤◌, length};

use crate::row::Row;
use p25_gf64::Sym;

/// A matrix over GF(64) of at most 24 rows and 24 columns.
#[derive(Clone, Copy, Debug, PartialEq, Eq)]
pub struct Matrix {
    pub(crate) rows: usize,
    pub(crate) columns: usize,
    lines: [Row; 24],
    pub ghost few_rows: { rows ≤ 24 },
    pub ghost few_columns: { columns ≤ 24 },
    pub ghost full: { length lines ≡ 24 },
}

impl Matrix {
    ghost use Rattle.p25_gf64.specs.Gf64.{gf64};
    ghost use Rattle.p25_algebra.specs.Series.{coefficient};
    ghost use Rattle.p25_poly.specs.Matrix.{row_count, column_count, entry, IsSystem};

    /// Returns the matrix of zeros with 1 to 24 rows and 1 to 24 columns.
    pub fn new(rows: usize, columns: usize) -> Matrix
        requires rows { (1 ≤ rows) × (rows ≤ 24) }
        requires columns { (1 ≤ columns) × (columns ≤ 24) }
        ensures rows { row_count result ≡ rows }
        ensures columns { column_count result ≡ columns }
        ensures zero { (r c : ℕ) → entry result r c ≡ gf64.zero }
    {
        Matrix {
            rows,
            columns,
            lines: [Row::blank(); 24],
        }
    }

    /// Returns the entry of a row and a column, both counted from 0.
    pub fn get(&self, row: usize, column: usize) -> Sym
        requires row { row < row_count self.now }
        requires column { column < column_count self.now }
        ensures { result ≡ entry self.now row column }
    {
        let line = &self.lines[row];
        line.cells[column]
    }

    /// Writes the entry of a row and a column, both counted from 0.
    pub fn set(&mut self, row: usize, column: usize, value: Sym)
        requires row { row < row_count self.old }
        requires column { column < column_count self.old }
        ensures written { entry self.new row column ≡ value }
        ensures others { (r c : ℕ) → (r ≡ row → c ≡ column → ⊥) → entry self.new r c ≡ entry self.old r c }
        ensures rows { row_count self.new ≡ row_count self.old }
        ensures columns { column_count self.new ≡ column_count self.old }
    {
        let mut line = self.lines[row];
        line.cells[column] = value;
        self.lines[row] = line;
    }

    // Returns the rows with these right sides.
    pub(crate) fn with_right(&self, right: &[Sym]) -> [Row; 24]
        requires { length right.now ≡ row_count self.now }
        ensures full { length result ≡ 24 }
        ensures system { IsSystem self.now (coefficient gf64 right.now) result }
    {
        let mut lines = self.lines;
        for i in 0..right.len() {
            lines[i].right = right[i];
        }
        lines
    }
}
