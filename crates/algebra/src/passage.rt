// Passages: what a figure of one algebra tells in another. They are no `From`, since a passage also
// brings the law that it keeps the operations.
ghost use Rattle.std.specs.Prelude.{◌≡◌, refl};
ghost use Rattle.std.proofs.Common.{ap};
ghost use Rattle.algebra.specs.Drawing.{counted};
ghost use Rattle.algebra.specs.Bribing.{held};
ghost use Rattle.algebra.specs.Leading.{Leads, any_draw, unpaid};
ghost use Rattle.algebra.specs.Leads.{any_draw_keeps, unpaid_keeps};

use crate::algebra::Algebra;
use crate::bribe::Bribe;
use crate::draws::Draws;
use crate::possibility::Possibility;
use facts::prices::is_free;
use std::marker::PhantomData;

pub trait Passage {
    type From: Algebra;

    type To: Algebra;

    // Which values pass into which. The map of meanings stands in the law, since the type of a
    // ghost member cannot name the meanings of the two algebras.
    ghost passes: { Self.From → Self.To → Type 0 };

    fn lead(value: Self::From) -> Self::To
        ensures passes_into_the_answer { passes value result };

    ghost leads: { Leads Self.From.Algebra.means Self.From.Algebra.semiring Self.To.Algebra.means Self.To.Algebra.semiring passes };
}

// Something is possible where there is a draw.
pub struct DrawsToPossibility;

impl Passage for DrawsToPossibility {
    type From = Draws;

    type To = Possibility;

    ghost passes = { λ d p. p.possible ≡ any_draw (counted d.count) };

    ghost leads = { record { map = any_draw; keeps = any_draw_keeps; led = λ d p passes. passes } };

    fn lead(value: Draws) -> Possibility {
        Possibility::new(value.count() > 0)
    }
}

// Something is possible where it can be had for nothing.
pub struct BribeToPossibility;

impl Passage for BribeToPossibility {
    type From = Bribe;

    type To = Possibility;

    ghost passes = { λ b p. p.possible ≡ unpaid (held b.number) };

    ghost leads = { record { map = unpaid; keeps = unpaid_keeps; led = λ b p passes. passes } };

    fn lead(value: Bribe) -> Possibility {
        Possibility::new(is_free(value.price()))
    }
}

// From an algebra to itself.
pub struct Identity<V: Algebra> {
    algebra: PhantomData<V>,
}

impl<V: Algebra> Passage for Identity<V> {
    type From = V;

    type To = V;

    ghost passes = { λ v w. w ≡ v };

    ghost leads = { record {
      map = λ m. m;
      keeps = record { nothing = refl; one = refl; plus = λ x y. refl; times = λ x y. refl; weight = λ fact. refl };
      led = λ v w passes. ap V.Algebra.means passes;
    } };

    fn lead(value: V) -> V {
        value
    }
}
