// The cells that a table begins with.
ghost use Rattle.std.specs.Prelude.{◌≤◌, length};
ghost use Rattle.cells.specs.Renewal.{Renewal};
ghost use Rattle.cells.specs.Rooms.{needed};
ghost use Rattle.table.specs.Singles.{of_singles};

use algebra::algebra::Algebra;
use cells::place::index_of;
use facts::sizes::FieldSize;

// The cell of each single entrant becomes one: alone, he is the champion. These cells lie apart, so
// that no part of the slice has them all; that the cells fit is stated wherever cells are written,
// which are lent as a slice.
pub(crate) fn seat_singles<V: Algebra>(memory: &mut [V], size: FieldSize)
    requires { needed size.entrants ≤ length memory.old }
    ensures seats_those_alone { Renewal V.Algebra.semiring V.Algebra.means size.entrants (of_singles size.entrants) (λ _ _. V.Algebra.semiring.one) memory.old memory.new }
{
    let n = size.entrants();
    for entrant in 0..n {
        memory[index_of(n, 1 << entrant, entrant)] = V::one();
    }
}
