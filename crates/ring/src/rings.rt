// A ring: marks beside the caller's slice of entries.
use crate::marks::Marks;
use std::marker::Model;

mod batches;
mod consuming;
mod made;
mod producing;
mod several;
mod single;
mod waiting;

// Entries of the slice past the size are never touched.
#[derive(Drop)]
pub struct Ring<'a, E> {
    marks: Marks,
    slots: &'a mut [E],
}

impl<'a, E> Model for Ring<'a, E> {
    ghost use Rattle.ring.specs.Rings.{State, Sound};

    ghost Value = { State E };

    ghost use Rattle.ring.specs.Views.{state};

    ghost view = { state };

    ghost invariant = { λ r. Sound (state r) };
}
