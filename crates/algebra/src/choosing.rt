// Algebras in which a sum is one of its two terms.
ghost use Rattle.std.specs.Prelude.{◌≡◌, true, false, ◌≢◌};
ghost use Rattle.algebra.specs.Semirings.{Chooses};

use crate::algebra::Algebra;

pub trait Choosing: Algebra {
    // Which of the two their sum equals: yes for the first, also where it equals both.
    fn first_attains(self, other: Self) -> bool
        ensures yes_the_sum_means_the_first { result ≡ true → Self.Algebra.semiring.plus (Self.Algebra.means self) (Self.Algebra.means other) ≡ Self.Algebra.means self }
        ensures no_the_sum_means_the_second { result ≡ false → Self.Algebra.semiring.plus (Self.Algebra.means self) (Self.Algebra.means other) ≡ Self.Algebra.means other }
        ensures no_the_sum_does_not_mean_the_first { result ≡ false → Self.Algebra.semiring.plus (Self.Algebra.means self) (Self.Algebra.means other) ≢ Self.Algebra.means self };

    ghost chooses: { Chooses Self.Algebra.semiring };
}
