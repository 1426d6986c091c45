//! The plan of the letters of one step.
use crate::hit::Hit;
use s6_events::SubId;
use std::alloc::Allocator;
use std::marker::Model;

/// What the letters of one step give once they are heard: for each letter in turn its hits, in
/// rising serial.
#[derive(Drop)]
pub struct LettersPlan<A: Allocator> {
    pub(crate) hits: Vec<Vec<(SubId, Hit), A>, A>,
}

impl<A: Allocator> Model for LettersPlan<A> {
    ghost use Rattle.std.specs.Prelude.{List, ℕ, map};
    ghost use Rattle.event_directory.specs.declared.hit.Hit.{Hit};

    ghost Value = { List (List (ℕ × Hit)) };

    ghost view = { λ p. map (λ v. v.items) p.hits.items };
}
