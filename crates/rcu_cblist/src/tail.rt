//! Tail places.
ghost use Rattle.std.specs.Prelude.{◌≡◌, ◌+◌, ◌<◌, ◌^◌};
ghost use Rattle.rcu_cblist.specs.Cuts.{IsBefore, fallen, past_marker, risen};

/// The end of a segment, as the counts of items and callbacks before it in its list.
#[derive(Clone, Copy, Debug)]
pub(crate) struct Tail {
    /// How many items, with markers.
    pub(crate) items: usize,
    /// How many callbacks.
    pub(crate) calls: u64,
}

impl Tail {
    /// The start of a list.
    pub(crate) const START: Tail = Tail { items: 0, calls: 0 };

    /// Moves the place behind `by` more.
    pub(crate) fn rise(&mut self, by: Tail)
        requires items { self.old.items + by.items < 2 ^ 64 }
        requires calls { self.old.calls + by.calls < 2 ^ 64 }
        ensures { self.new ≡ risen self.old by }
    {
        self.items += by.items;
        self.calls += by.calls;
    }

    /// Moves the place forward: `by` less is before it.
    pub(crate) fn fall(&mut self, by: Tail)
        requires { IsBefore by self.old }
        ensures { self.new ≡ fallen self.old by }
    {
        self.items -= by.items;
        self.calls -= by.calls;
    }

    /// Adjusts the place after a marker was put at the end of a list of `end` items: if the place
    /// was that end, it is now behind the marker.
    pub(crate) fn pass_marker(&mut self, end: usize)
        requires { end < 2 ^ 63 }
        ensures { self.new ≡ past_marker self.old end }
    {
        if self.items == end {
            self.items += 1;
        }
    }
}
