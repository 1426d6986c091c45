//! What a replay counts: inputs read, and the lines of events and orders that it wrote.
ghost use Rattle.std.specs.Prelude.{◌≡◌, ◌+◌, ◌<◌, ◌^◌};

/// How much a replay read and wrote: the inputs of the script, at most 1,000,000, and the `e` and
/// `o` lines of its transcript. The sums of lines have 128 bits, since one step may give as many
/// events as a list can hold.
#[derive(Clone, Copy, Debug, PartialEq, Eq)]
pub struct Counts {
    pub inputs: u64,
    pub events: u128,
    pub orders: u128,
}

impl Counts {
    // Nothing was read yet.
    pub(crate) fn none() -> Counts
        ensures inputs { result.inputs ≡ 0 }
        ensures events { result.events ≡ 0 }
        ensures orders { result.orders ≡ 0 }
    {
        Counts {
            inputs: 0,
            events: 0,
            orders: 0,
        }
    }

    // The counts with one more input, which gave these events and orders.
    pub(crate) fn with_input(self, events: usize, orders: usize) -> Counts
        requires inputs { self.inputs + 1 < 2 ^ 64 }
        requires events { self.events + events < 2 ^ 128 }
        requires orders { self.orders + orders < 2 ^ 128 }
        ensures inputs { result.inputs ≡ self.inputs + 1 }
        ensures events { result.events ≡ self.events + events }
        ensures orders { result.orders ≡ self.orders + orders }
    {
        Counts {
            inputs: self.inputs + 1,
            events: self.events + events as u128,
            orders: self.orders + orders as u128,
        }
    }
}
