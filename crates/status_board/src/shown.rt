//! What readers are shown: `left_right` keeps two copies of it, one that is read and one that is
//! brought up to date meanwhile. A change is a shot that was published; a place for one is filled
//! once all memory is there.
ghost use Rattle.std.specs.Prelude.{◌≡◌, None, Some};

use crate::published_shot::PublishedShot;
use channel_names::Channels;
use left_right::Absorb;
use std::alloc::{AllocError, Allocator};
use std::marker::Model;
use std::sync::{Arc, OnceLock};

/// A place for the change that is to be shown next. It is filled once all memory for the change is
/// there.
pub type Next<C, A> = Arc<OnceLock<PublishedShot<C, A>>, A>;

/// The place of the change that was published last, if there is one. Both copies show the same
/// memory, so no row is copied for them. Contracts see which place it is.
#[derive(Drop)]
pub struct Shown<C: Channels, A: Allocator> {
    next: Option<Next<C, A>>,
}

impl<C: Channels, A: Allocator> Model for Shown<C, A> {
    ghost use Rattle.std.specs.Prelude.{Option, option_map};
    ghost use Rattle.std.specs.Sync.OnceLock.{Named};

    ghost Value = { Option Named };

    ghost view = { λ s. option_map (λ next. next.value) s.next };
}

impl<C: Channels, A: Allocator> Shown<C, A> {
    // What is shown before anything was published: no place.
    pub(crate) fn nothing() -> Shown<C, A>
        ensures { result ≡ None }
    {
        Shown { next: None }
    }

    // The change that was published last; None where there is none.
    pub(crate) fn change(&self) -> Option<&PublishedShot<C, A>> {
        self.next.as_ref()?.get()
    }

    // Shows the change of this place.
    fn show(&mut self, next: Next<C, A>)
        ensures { self.new ≡ Some next.value }
    {
        self.next = Some(next);
    }
}

impl<C: Channels, A: Allocator> Absorb<Next<C, A>> for Shown<C, A> {
    type State = ();

    ghost state = { λ s. tt };

    ghost applied = { λ s next. tt };

    // Brings one of the two copies up to date. A place that was not filled, since `publish_rows`
    // gave up before that, changes nothing.
    fn absorb_first(
        &mut self,
        operation: &Next<C, A>,
        _other: &Shown<C, A>,
    ) -> Result<(), AllocError> {
        if operation.get().is_some() {
            self.show(Arc::try_clone(operation)?);
        }
        Ok(())
    }

    // Brings the other copy up to date in the same way.
    fn absorb_second(
        &mut self,
        operation: Next<C, A>,
        _other: &Shown<C, A>,
    ) -> Result<(), Next<C, A>> {
        if operation.get().is_some() {
            self.show(operation);
        }
        Ok(())
    }
}
