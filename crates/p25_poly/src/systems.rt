//! Linear systems over GF(64), by elimination.

ghost use Rattle.std.specs.Prelude.{◌≡◌, ℕ, length, IsTrue};
ghost use Rattle.p25_gf64.specs.{declared.symbol.Sym.{Sym}, Gf64.{gf64}};
ghost use Rattle.p25_algebra.specs.Series.{coefficient};
ghost use Rattle.p25_poly.specs.Matrix.{row_count, column_count, IsSolution};

use crate::elimination::solve_rows;
use crate::matrix::Matrix;
use p25_gf64::Sym;

/// Writes to `out` a solution of the system and returns true, if and only if it has one. It requires that `right` has
/// as many symbols as the matrix has rows, and `out` as many as it has columns. If the result is false, the contract
/// leaves `out` open.
pub fn solve(matrix: &Matrix, right: &[Sym], out: &mut [Sym]) -> bool
    requires right { length right.now ≡ row_count matrix.now }
    requires room { length out.old ≡ column_count matrix.now }
    ensures solution { IsTrue result → IsSolution matrix.now (coefficient gf64 right.now) (coefficient gf64 out.new) }
    ensures complete { (x : ℕ → Sym) → IsSolution matrix.now (coefficient gf64 right.now) x → IsTrue result }
{
    out.fill(Sym::default());
    let mut rows = matrix.with_right(right);
    solve_rows(&mut rows[..matrix.rows], out)
}
