// The report of a sheet: who can win, by how many draws, and at what least bribe.
use crate::failure::Failure;
use algebra::algebra::Algebra;
use algebra::bribe::Bribe;
use algebra::draws::Draws;
use algebra::possibility::Possibility;
use cells::container::{Cells, cells_needed};
use reports::answers::tally_line;
use reports::entrants::entrant_line;
use reports::winners::winners_line;
use sources::source::MatchSource;
use table::afresh::fill_afresh;
use table::stages::Complete;

// Memory for a table of the source's field.
fn memory_for<V: Algebra + Clone, S: MatchSource>(
    rt: &HostRuntime,
    source: &S,
) -> Result<Vec<V>, Failure> {
    let count = cells_needed(source.size())?;
    Ok(vec![in rt.alloc(); V::nothing(); count]?)
}

// Every entrant's figure. A `map` over the entrants would keep the cells borrowed while each turn
// borrows them again, and the check refuses that.
fn figures<V: Algebra>(
    rt: &HostRuntime,
    table: &Complete<V>,
    cells: &mut Cells<V>,
    n: usize,
) -> Result<Vec<V>, Failure> {
    let mut each = Vec::new(rt.alloc());
    for entrant in 0..n {
        each.push(table.figure(cells, entrant)?)?;
    }
    Ok(each)
}

// The three below differ in the algebra, and in what else is asked. One generic function would need
// cells of an algebra that it does not know, whose grid is not known to fit the address space. One
// table stands at a time, so that a report needs no more memory than its largest.

// Whether each entrant can win, and the set of those who can.
fn chances<S: MatchSource>(
    rt: &HostRuntime,
    source: &S,
) -> Result<(Vec<Possibility>, u32), Failure> {
    let mut memory = memory_for(rt, source)?;
    let mut cells = Cells::over(&mut memory);
    let table = fill_afresh(source, &mut cells)?;
    let each = figures(rt, &table, &mut cells, source.size())?;
    Ok((each, table.winners(&mut cells)?))
}

// By how many draws each entrant wins, and their tally.
fn draws<S: MatchSource>(rt: &HostRuntime, source: &S) -> Result<(Vec<Draws>, Draws), Failure> {
    let mut memory = memory_for(rt, source)?;
    let mut cells = Cells::over(&mut memory);
    let table = fill_afresh(source, &mut cells)?;
    let each = figures(rt, &table, &mut cells, source.size())?;
    Ok((each, table.tally(&mut cells)?))
}

// At what least bribe each entrant wins.
fn bribes<S: MatchSource>(rt: &HostRuntime, source: &S) -> Result<Vec<Bribe>, Failure> {
    let mut memory = memory_for(rt, source)?;
    let mut cells = Cells::over(&mut memory);
    let table = fill_afresh(source, &mut cells)?;
    figures(rt, &table, &mut cells, source.size())
}

pub(crate) fn print_report<S: MatchSource>(rt: &HostRuntime, source: &S) -> Result<(), Failure> {
    let (chances, winners) = chances(rt, source)?;
    let (draws, tally) = draws(rt, source)?;
    let bribes = bribes(rt, source)?;
    let lines = chances.iter().zip(draws.iter()).zip(bribes.iter());
    for (entrant, ((chance, count), bribe)) in lines.enumerate() {
        rt.println(entrant_line(rt.alloc(), entrant, *chance, *count, *bribe)?)?;
    }
    rt.println(tally_line(rt.alloc(), tally)?)?;
    rt.println(winners_line(rt.alloc(), winners, source.size())?)?;
    Ok(())
}
