// What is proved of brackets and figures. A function here holds a theorem, which its contract
// states for every field and every lawful algebra; it does nothing else.
ghost use Rattle.figures.specs.Theorems.{ListedEachOnce, FilledBrackets, OnPowersOnly, SumOfAnyList, LowestFirstOnce, SameWorth};
ghost use Rattle.figures.specs.Theorems.{ByHalves, OfOne, NoneOutside, NoneOffPowers, TableHolds, PairingsWithin, OnePairing};
ghost use Rattle.figures.specs.Theorems.{LedToFigures, FiguresPass, CanWinByDraws, CanWinUnpaid};
ghost use Rattle.figures.specs.Theorems.{SomethingWhereABracketIs, Attained};
ghost use Rattle.figures.specs.Examples.{SmallFields};

use algebra::algebra::Algebra;
use algebra::choosing::Choosing;
use algebra::passage::Passage;

pub fn listing_has_each_filled_bracket_once()
    ensures listed_each_once { ListedEachOnce }
    ensures filled_where_the_bracket_is { FilledBrackets }
    ensures on_powers_of_two_only { OnPowersOnly }
{}

pub fn figure_is_the_sum_over_any_whole_list<V: Algebra>()
    ensures sum_of_any_list { SumOfAnyList V.Algebra.semiring }
{}

pub fn one_writing_has_the_lowest_first()
    ensures lowest_first_once { LowestFirstOnce }
{}

pub fn worth_does_not_hang_on_the_writing<V: Algebra>()
    ensures same_worth { SameWorth V.Algebra.semiring }
{}

pub fn figure_goes_by_halves<V: Algebra>()
    ensures by_halves { ByHalves V.Algebra.semiring }
{}

pub fn figure_of_one_entrant<V: Algebra>()
    ensures one_for_himself { OfOne V.Algebra.semiring }
{}

pub fn figure_is_nothing_where_there_is_no_bracket<V: Algebra>()
    ensures none_outside { NoneOutside V.Algebra.semiring }
    ensures none_off_powers { NoneOffPowers V.Algebra.semiring }
{}

pub fn a_table_by_halves_holds_the_figures<V: Algebra>()
    ensures table_holds { TableHolds V.Algebra.semiring }
{}

pub fn figure_counts_only_pairings_within<V: Algebra>()
    ensures pairings_within { PairingsWithin V.Algebra.semiring }
    ensures one_pairing { OnePairing V.Algebra.semiring }
{}

pub fn passages_lead_figures_to_figures<V: Algebra, W: Algebra>()
    ensures led_to_figures { LedToFigures V.Algebra.semiring W.Algebra.semiring }
{}

pub fn what_passes_from_a_figure_means_a_figure<P: Passage>()
    ensures figures_pass { FiguresPass P.From.Algebra.means P.From.Algebra.semiring P.To.Algebra.means P.To.Algebra.semiring P.Passage.passes }
{}

pub fn can_win_where_there_is_a_draw()
    ensures can_win_by_draws { CanWinByDraws }
{}

pub fn can_win_where_it_costs_nothing()
    ensures can_win_unpaid { CanWinUnpaid }
{}

pub fn a_choosing_figure_is_something_where_a_bracket_is<V: Choosing>()
    ensures something_where_a_bracket_is { SomethingWhereABracketIs V.Algebra.semiring }
{}

pub fn a_choosing_figure_is_attained<V: Choosing>()
    ensures attained { Attained V.Algebra.semiring }
{}

pub fn small_fields_compute()
    ensures draws_of_four { SmallFields }
{}
