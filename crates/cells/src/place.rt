// Where the cells of a table stand.
ghost use Rattle.std.specs.Prelude.{◌≡◌, ◌+◌, ◌*◌, ◌%◌, ◌^◌, ◌<◌, ◌≤◌};
ghost use Rattle.cells.specs.Rooms.{needed};

// The index of the cell of a set and an entrant, among n. It is asked for in the innermost loops, so
// nothing is tested: where there is no such cell, the number says nothing.
pub fn index_of(n: usize, set: u32, entrant: usize) -> usize
    ensures is_the_set_times_n_and_the_entrant { result ≡ (set * n + entrant) % 2 ^ 64 }
    ensures is_the_index_of_that_cell { n ≤ 16 → set < 2 ^ n → entrant < n → result ≡ set * n + entrant }
    ensures is_within_the_needed_cells { n ≤ 16 → set < 2 ^ n → entrant < n → result < needed n }
{
    (set as usize).wrapping_mul(n).wrapping_add(entrant)
}
