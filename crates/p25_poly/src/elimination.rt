//! Gaussian elimination, one row at a time. The pivot row clears its first column from the others, these are solved,
//! and then the pivot row determines the unknown of that column.

ghost use Rattle.std.specs.Prelude.{ℕ, ◌≤◌, length, IsTrue};
ghost use Rattle.p25_gf64.specs.{declared.symbol.Sym.{Sym}, Gf64.{gf64}};
ghost use Rattle.p25_algebra.specs.Series.{coefficient};
ghost use Rattle.p25_poly.specs.LinearSystem.{AreMet};

use crate::row::Row;
use p25_gf64::Sym;

/// Solves the rows for the unknowns and returns whether there is a solution. An unknown that no row determines keeps
/// its value.
pub(crate) fn solve_rows(rows: &mut [Row], unknowns: &mut [Sym]) -> bool
    requires { length unknowns.old ≤ 24 }
    ensures solved { IsTrue result → AreMet (length unknowns.old) rows.old (coefficient gf64 unknowns.new) }
    ensures complete { (x : ℕ → Sym) → AreMet (length unknowns.old) rows.old x → IsTrue result }
{
    if rows.is_empty() {
        return true;
    }
    let front = rows[0];
    let rest = &mut rows[1..];
    let Some(column) = front.pivot(unknowns.len()) else {
        return front.right.is_zero() && solve_rows(rest, unknowns);
    };
    for i in 0..rest.len() {
        rest[i] = rest[i].cleared(&front, column);
    }
    unknowns[column] = Sym::default();
    let solved = solve_rows(rest, unknowns);
    if solved {
        front.correct(unknowns, column);
    }
    solved
}
