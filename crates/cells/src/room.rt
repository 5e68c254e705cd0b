// How many cells a table needs, and whether a memory has room for them.
ghost use Rattle.std.specs.Prelude.{◌≡◌};
ghost use Rattle.facts.specs.Outcomes.{decided};
ghost use Rattle.cells.specs.Rooms.{needed, room_refusal};

use facts::refusals::Refusal;
use facts::sizes::FieldSize;

// One cell for each set and each entrant.
pub fn needed_for(size: FieldSize) -> usize
    ensures is_one_for_each_set_and_entrant { result ≡ needed size.entrants }
{
    (1 << size.entrants()) * size.entrants()
}

// Refuses a memory of so many values where the cells of a field do not fit.
pub fn check_room(size: FieldSize, count: usize) -> Result<(), Refusal>
    ensures refuses_a_memory_that_is_too_short { result ≡ decided (room_refusal size.entrants count) }
{
    if count < needed_for(size) {
        return Err(Refusal::MemoryTooShort);
    }
    Ok(())
}
