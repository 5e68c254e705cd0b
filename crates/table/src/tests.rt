// Worked fields, stage by stage and at once, and every refusal of a table.
ghost use Rattle.std.specs.Prelude.{◌≡◌, true, map};
ghost use Rattle.algebra.specs.Drawing.{counted, drawing};
ghost use Rattle.figures.specs.Fields.{field_of};
ghost use Rattle.table.specs.Fillings.{InOrder};

use crate::afresh::fill_afresh;
use crate::stages::{Complete, Empty};
use algebra::algebra::Algebra;
use algebra::bribe::Bribe;
use algebra::draws::Draws;
use algebra::possibility::Possibility;
use cells::container::Cells;
use facts::refusals::Refusal;
use facts::refused::Refused;
use sources::bribes::BribeFile;
use sources::matrix::ResultMatrix;
use sources::order::StrengthOrder;
use sources::source::MatchSource;
use std::process::Abort;
use std::test::Fail;

// Four entrants' draws, and their tally.
fn draws_of_four<S: MatchSource>(source: &S) -> Result<([u32; 4], u32), Refusal> {
    let mut memory = [Draws::nothing(); 64];
    let mut cells = Cells::over(&mut memory);
    let table = fill_afresh(source, &mut cells)?;
    let mut draws = [0; 4];
    for entrant in 0..4 {
        draws[entrant] = table.figure(&mut cells, entrant)?.count();
    }
    Ok((draws, table.tally(&mut cells)?.count()))
}

fn every_upset(n: usize) -> Result<StrengthOrder, Refusal> {
    let mut order = StrengthOrder::without_upsets(n)?;
    for a in 0..n {
        for b in 0..n {
            let _ = order.amend(a, b, (Some(0), Some(0)));
        }
    }
    Ok(order)
}

#[test]
fn two_entrants_have_one_draw(rt: HostRuntime) -> Result<(), Fail> {
    let mut memory = [Draws::nothing(); 8];
    let mut cells = Cells::over(&mut memory);
    let matrix = ResultMatrix::lower_always_wins(2)?;
    let table = fill_afresh(&matrix, &mut cells)?;
    assert_eq!(rt; table.figure(&mut cells, 0)?.count(), 1);
    assert_eq!(rt; table.figure(&mut cells, 1)?.count(), 0);
    Ok(())
}

// What is promised of the cells holds of the memory that was lent, also when the cells are gone.
fn fills_with_draws<S: MatchSource>(source: &S, memory: &mut [Draws]) -> bool
    ensures { result ≡ true → InOrder drawing (field_of (S.MatchSource.sheet source.now)) (map (λ d. counted d.count) memory.new) }
{
    let mut cells = Cells::over(memory);
    fill_afresh(source, &mut cells).is_ok()
}

#[test]
fn the_lent_memory_holds_the_figures(rt: HostRuntime) -> Result<(), Fail> {
    let mut memory = [Draws::nothing(); 8];
    let matrix = ResultMatrix::lower_always_wins(2)?;
    assert!(rt; fills_with_draws(&matrix, &mut memory));
    assert_eq!(rt; memory[6].count(), 1);
    assert_eq!(rt; memory[7].count(), 0);
    Ok(())
}

#[test]
fn four_in_order_all_go_to_the_first(rt: HostRuntime) -> Result<(), Fail> {
    assert_eq!(rt;
        draws_of_four(&StrengthOrder::without_upsets(4)?)?,
        ([3, 0, 0, 0], 3)
    );
    assert_eq!(rt; draws_of_four(&every_upset(4)?)?, ([6, 6, 6, 6], 24));
    Ok(())
}

// The bribe file of four entrants that the program has built in.
fn four_with_prices() -> Result<BribeFile, Refusal> {
    let mut bribes = BribeFile::all_free(4)?;
    bribes.amend(0, 1, (Some(0), Some(5)))?;
    bribes.amend(0, 2, (Some(4), Some(0)))?;
    bribes.amend(0, 3, (Some(0), Some(9)))?;
    bribes.amend(1, 2, (Some(0), Some(6)))?;
    bribes.amend(1, 3, (Some(0), Some(7)))?;
    bribes.amend(2, 3, (Some(3), Some(0)))?;
    Ok(bribes)
}

fn bribes_of_four<S: MatchSource>(source: &S) -> Result<[Option<u32>; 4], Refusal> {
    let mut memory = [Bribe::nothing(); 64];
    let mut cells = Cells::over(&mut memory);
    let table = fill_afresh(source, &mut cells)?;
    let mut bribes = [None; 4];
    for entrant in 0..4 {
        bribes[entrant] = table.figure(&mut cells, entrant)?.price();
    }
    Ok(bribes)
}

#[test]
fn prices_decide_who_wins_at_what_bribe(rt: HostRuntime) -> Result<(), Fail> {
    let mut bribes = four_with_prices()?;
    assert_eq!(rt; draws_of_four(&bribes)?, ([2, 1, 0, 0], 3));
    assert_eq!(rt;
        bribes_of_four(&bribes)?,
        [Some(0), Some(0), Some(3), Some(7)]
    );
    bribes.amend(2, 3, (Some(0), Some(0)))?;
    assert_eq!(rt; draws_of_four(&bribes)?, ([2, 1, 1, 0], 4));
    assert_eq!(rt;
        bribes_of_four(&bribes)?,
        [Some(0), Some(0), Some(0), Some(7)]
    );
    Ok(())
}

#[test]
fn winners_are_told_as_a_set(rt: HostRuntime) -> Result<(), Fail> {
    let mut memory = [Possibility::nothing(); 64];
    let mut cells = Cells::over(&mut memory);
    let table = fill_afresh(&four_with_prices()?, &mut cells)?;
    assert_eq!(rt; table.winners(&mut cells), Ok(3));
    assert!(rt; table.figure(&mut cells, 1)?.is_possible());
    assert!(rt; !table.figure(&mut cells, 2)?.is_possible());
    assert!(rt; table.tally(&mut cells)?.is_possible());
    // cells that nobody filled
    let mut foreign = [Possibility::nothing(); 64];
    assert_eq!(rt;
        table.winners(&mut Cells::over(&mut foreign)),
        Err(Refusal::NobodyCanWin)
    );
    Ok(())
}

#[test]
fn eight_entrants_need_2048_cells(rt: HostRuntime) -> Result<(), Fail> {
    let order = StrengthOrder::without_upsets(8)?;
    let mut short = [Draws::nothing(); 2_047];
    let refused = fill_afresh(&order, &mut Cells::over(&mut short));
    assert_eq!(rt; refused.err(), Some(Refusal::MemoryTooShort));
    let mut memory = [Draws::nothing(); 2_048];
    let mut cells = Cells::over(&mut memory);
    let table = fill_afresh(&order, &mut cells)?;
    assert_eq!(rt; table.figure(&mut cells, 0)?.count(), 315);
    assert_eq!(rt; table.tally(&mut cells)?.count(), 315);
    assert_eq!(rt;
        table.figure(&mut cells, 8).err(),
        Some(Refusal::EntrantUnknown)
    );
    let mut short = Cells::over(&mut short);
    assert_eq!(rt;
        table.figure(&mut short, 8).err(),
        Some(Refusal::MemoryTooShort)
    );
    assert_eq!(rt;
        table.tally(&mut short).err(),
        Some(Refusal::MemoryTooShort)
    );
    Ok(())
}

// The stage that came back, once the refusal is the one expected.
fn refused<X: Drop, Y: Drop>(
    rt: &impl Abort,
    answer: Result<X, Refused<Y>>,
    why: Refusal,
) -> Result<Y, Fail> {
    let Err(refused) = answer else {
        return Err(Fail::new("it moved on"));
    };
    assert_eq!(rt; refused.refusal, why);
    Ok(refused.moved)
}

#[test]
fn a_refused_stage_comes_back_and_goes_on(rt: HostRuntime) -> Result<(), Fail> {
    let mut memory = [Draws::nothing(); 8];
    let mut cells = Cells::over(&mut memory);
    let mut short = [Draws::nothing(); 7];
    let mut short = Cells::over(&mut short);
    let two = ResultMatrix::lower_always_wins(2)?;
    let four = ResultMatrix::lower_always_wins(4)?;
    let empty = Empty::open(2, &mut cells)?;
    let empty = refused(&rt, empty.start(&mut short), Refusal::MemoryTooShort)?;
    let stage = empty.start(&mut cells)?;
    let stage = refused(&rt, stage.finish(), Refusal::LevelMissing)?;
    let stage = refused(&rt, stage.fill(&four, &mut short), Refusal::SizesDiffer)?;
    let stage = refused(&rt, stage.fill(&two, &mut short), Refusal::MemoryTooShort)?;
    let stage = stage.fill(&two, &mut cells)?;
    let stage = refused(&rt, stage.fill(&two, &mut cells), Refusal::LevelsAllFilled)?;
    let table = stage.finish()?;
    assert_eq!(rt; table.figure(&mut cells, 0)?.count(), 1);
    Ok(())
}

#[test]
fn a_table_opens_for_legal_sizes_only(rt: HostRuntime) {
    let mut memory = [Bribe::one(); 9];
    assert_eq!(rt;
        Empty::open(3, &mut Cells::over(&mut memory)).err(),
        Some(Refusal::SizeNotAllowed)
    );
    assert_eq!(rt;
        Empty::open(4, &mut Cells::over(&mut memory)).err(),
        Some(Refusal::MemoryTooShort)
    );
    assert_eq!(rt;
        memory[0].price(),
        Some(0),
        "a refused open leaves the memory"
    );
    assert_eq!(rt; Empty::open(2, &mut Cells::over(&mut memory)).err(), None);
    assert_eq!(rt; memory[7].price(), None, "the needed cells are nothing");
    assert_eq!(rt; memory[8].price(), Some(0), "what lies behind remains");
}
