// Clearing the cells of a table.
ghost use Rattle.std.specs.Prelude.{◌≤◌, length};
ghost use Rattle.table.specs.Fillings.{Cleared};

use algebra::algebra::Algebra;

// So many values from the front become nothing. They are made one by one: `fill` would clone one,
// and of an algebra's values it is known that they are copied, not that their clones never fail.
// A function of its own: where `open` wrote to a part of the memory itself, the rest could not be
// proved unchanged.
pub(crate) fn clear<V: Algebra>(memory: &mut [V], count: usize)
    requires { count ≤ length memory.old }
    ensures clears_those_alone { Cleared V.Algebra.semiring V.Algebra.means count memory.old memory.new }
{
    memory[..count].fill_with(|| V::nothing());
}
