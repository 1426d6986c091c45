//! What the writer of a board tells a reader.
ghost use Rattle.std.specs.Prelude.{◌≡◌};

use crate::history::Published;
use channel_names::Channels;
use std::marker::Model;

/// All shots that were published up to the moment at which the writer told this, by `tell`. A
/// reader takes it in by `learn`.
#[derive(Drop)]
pub struct Told<C: Channels> {
    pub(crate) published: Published<C>,
}

impl<C: Channels> Model for Told<C> {
    ghost use Rattle.std.specs.Prelude.{List};
    ghost use Rattle.status_board.specs.declared.shot.Shot.{Shot};

    ghost Value = { List Shot };

    ghost view = { λ t. t.published };
}
