// The stages of a table, as types that are moved: a call takes one stage and hands out the next, so
// that no level is filled twice and nothing is asked of a table that is not complete.
ghost use Rattle.std.specs.Prelude.{◌^◌, ◌≤◌};

use algebra::algebra::Algebra;
use facts::sizes::FieldSize;
use std::marker::PhantomData;

// All needed cells are nothing.
#[derive(Debug, Drop)]
pub struct Empty<V: Algebra> {
    pub(crate) size: FieldSize,
    pub(crate) algebra: PhantomData<V>,
}

// The cells of all sets of up to 2^level entrants are worked out.
#[derive(Debug, Drop)]
pub struct LevelFilled<V: Algebra> {
    pub(crate) size: FieldSize,
    pub(crate) level: u32,
    pub(crate) algebra: PhantomData<V>,
    ghost within: { 2 ^ level ≤ size.entrants },
}

// All cells are.
#[derive(Debug, Drop)]
pub struct Complete<V: Algebra> {
    pub(crate) size: FieldSize,
    pub(crate) algebra: PhantomData<V>,
}
