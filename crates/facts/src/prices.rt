// A fact: what it takes for one entrant to beat another. Facts are taken apart with guards, here and
// in what weighs them: a rule of this project.
ghost use Rattle.std.specs.Prelude.{◌≡◌};
ghost use Rattle.facts.specs.Facts.{free, over_top};

// The price of the win, or `None` where no price buys it. Price 0 is a win that comes free.
pub type Fact = Option<u32>;

pub const TOP_PRICE: u32 = 1_000_000;

pub fn is_free(fact: Fact) -> bool
    ensures says_whether_the_win_costs_nothing { result ≡ free fact }
{
    matches!(fact, Some(price) if price == 0)
}

pub fn is_over_top(fact: Fact) -> bool
    ensures says_whether_the_price_is_above_the_top { result ≡ over_top fact }
{
    matches!(fact, Some(price) if price > TOP_PRICE)
}
