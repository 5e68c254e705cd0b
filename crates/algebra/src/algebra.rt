// What a table of draws needs of the values that it holds.
ghost use Rattle.std.specs.Prelude.{◌≡◌};
ghost use Rattle.algebra.specs.Semirings.{Semiring, LawfulSemiring};

use facts::prices::Fact;

// Values go by what they mean, so that an algebra may hold them as it likes. No call refuses or
// changes anything: each answers what the operation on meanings gives.
pub trait Algebra: Copy {
    // what there is to mean
    ghost Meaning: { Type 0 };

    // what a value means
    ghost means: { Self → Meaning };

    // the operations on meanings
    ghost semiring: { Semiring Meaning };

    fn nothing() -> Self
        ensures means_nothing { means result ≡ semiring.nothing };

    fn one() -> Self
        ensures means_one { means result ≡ semiring.one };

    fn plus(self, other: Self) -> Self
        ensures means_the_sum { means result ≡ semiring.plus (means self) (means other) };

    fn times(self, other: Self) -> Self
        ensures means_the_product { means result ≡ semiring.times (means self) (means other) };

    // No `==`: two values may mean the same and yet differ.
    fn same(self, other: Self) -> bool
        ensures says_whether_both_mean_the_same { result ≡ semiring.same (means self) (means other) };

    fn weight(fact: Fact) -> Self
        ensures means_what_the_win_is_worth { means result ≡ semiring.weight fact };

    ghost lawful: { LawfulSemiring semiring };
}
