//! Which input comes next. A drain is the tree's end of an actor's ring, into which the actor
//! submits.
ghost use Rattle.std.specs.Prelude.{◌≡◌, None, IsSome, IsTrue, IsFalse, option_to_list};
ghost use Rattle.locked_services.specs.Submissions.{AreNumbered, Give, NoneSeen};

use channel_names::Channels;
use inbox::Drain;
use std::alloc::Global;
use tree_core::Input;

/// Takes the oldest submission of the first ring that gives one, and puts it into `held`, which is
/// None before. Returns whether a ring gave one.
pub fn take_next<C: Channels>(drains: &mut Vec<Drain<C>>, held: &mut Option<Input<Global>>) -> bool
    requires numbered { AreNumbered drains.old.items }
    requires free { held.old ≡ None }
    ensures numbered { AreNumbered drains.new.items }
    ensures gives { Give (option_to_list held.new) drains.old.items drains.new.items }
    ensures yes { IsTrue result → IsSome held.new }
    ensures no { IsFalse result → (held.new ≡ None) × NoneSeen drains.new.items }
{
    for k in 0..drains.len() {
        let drain = &mut drains[k];
        if drain.take_into(held) {
            return true;
        }
    }
    false
}
