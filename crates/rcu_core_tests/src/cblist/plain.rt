//! The slow program: a plain list with a mark at each item.

/// How many items a list has at most.
pub const ROOM: usize = 48;

/// The number that a callback waits for.
#[derive(Clone, Copy, Debug, PartialEq, Eq)]
pub enum Mark {
    Unmarked,
    Until(u64),
    Done,
}

/// An item: a callback by its value, or a marker.
#[derive(Clone, Copy, Debug, PartialEq, Eq)]
pub enum Item {
    Call(u64, Mark),
    Marker,
}

/// The items, in order.
#[derive(Clone, Copy)]
pub struct Plain {
    items: [Item; ROOM],
    pub len: usize,
}

impl Plain {
    /// No item.
    pub fn new() -> Plain {
        Plain {
            items: [Item::Marker; ROOM],
            len: 0,
        }
    }

    /// The items, in order.
    fn items(&self) -> &[Item] {
        self.items.get(..self.len).unwrap_or(&[])
    }

    /// Puts an item at the end.
    pub fn push(&mut self, item: Item) {
        if self.len < ROOM {
            self.items[self.len] = item;
            self.len += 1;
        }
    }

    /// Makes each callback done whose number is at most this one.
    pub fn advance(&mut self, number: u64) {
        for item in &mut self.items {
            match *item {
                Item::Call(value, Mark::Until(n)) if n <= number => {
                    *item = Item::Call(value, Mark::Done);
                }
                _ => {}
            }
        }
    }

    /// Takes the number from each callback that has one.
    pub fn renumber(&mut self) {
        for item in &mut self.items {
            if let Item::Call(value, Mark::Until(_)) = *item {
                *item = Item::Call(value, Mark::Unmarked);
            }
        }
    }

    /// Returns whether two numbers below this one are in the list.
    fn has_two_below(&self, snap: u64) -> bool {
        let mut found = None;
        for item in self.items() {
            if let Item::Call(_, Mark::Until(n)) = *item {
                match found {
                    Some(k) if k != n && n < snap => return true,
                    None if n < snap => found = Some(n),
                    _ => {}
                }
            }
        }
        false
    }

    /// Gives a number to each callback without a mark, unless two numbers below it are there.
    pub fn accelerate(&mut self, snap: u64) {
        if self.has_two_below(snap) {
            return;
        }
        for item in &mut self.items {
            if let Item::Call(value, Mark::Unmarked) = *item {
                *item = Item::Call(value, Mark::Until(snap));
            }
        }
    }

    /// How many items the done part has.
    pub fn ahead(&self) -> usize {
        for (place, item) in self.items().iter().enumerate() {
            if let Item::Call(_, Mark::Unmarked | Mark::Until(_)) = item {
                return place;
            }
        }
        self.len
    }

    /// Takes the first item if a take goes on that has this many callbacks left to hand out.
    pub fn take_next(&mut self, left: u64) -> Option<Item> {
        let before = *self;
        let (first, rest) = before.items().split_first()?;
        match first {
            Item::Call(_, Mark::Done) if left > 0 => {}
            Item::Marker => {}
            Item::Call(_, _) => return None,
        }
        *self = Plain::new();
        for item in rest {
            self.push(*item);
        }
        Some(*first)
    }

    /// Moves all around a target: the done part before it, and the rest without marks behind it.
    pub fn migrate_into(&mut self, target: &mut Plain) {
        let before = *target;
        *target = Plain::new();
        for item in self.items().iter().take(self.ahead()) {
            target.push(*item);
        }
        for item in before.items() {
            target.push(*item);
        }
        for item in self.items().iter().skip(self.ahead()) {
            target.push(match *item {
                Item::Call(value, _) => Item::Call(value, Mark::Unmarked),
                Item::Marker => Item::Marker,
            });
        }
        *self = Plain::new();
    }

    /// How many callbacks it has, how many of them in the done part, and the greatest number.
    pub fn counts(&self) -> (u64, u64, Option<u64>) {
        let ahead = self.ahead();
        let mut all = 0u64;
        let mut done = 0u64;
        let mut most = None;
        for (place, item) in self.items().iter().enumerate() {
            if let Item::Call(_, mark) = *item {
                all = all.saturating_add(1);
                if place < ahead {
                    done = done.saturating_add(1);
                }
                if let Mark::Until(n) = mark {
                    most = most.max(Some(n));
                }
            }
        }
        (all, done, most)
    }

    /// How many items each segment has: one begins at each callback whose mark is another one than
    /// that of the callback before it.
    pub fn segments(&self) -> [u64; 4] {
        let mut sizes = [0u64; 4];
        let mut at = 0usize;
        let mut last = Mark::Done;
        for item in self.items() {
            match *item {
                Item::Call(_, mark) if mark != last => {
                    at = if mark == Mark::Unmarked {
                        3
                    } else {
                        at.saturating_add(1)
                    };
                    last = mark;
                }
                _ => {}
            }
            if at < 4 {
                sizes[at] = sizes[at].saturating_add(1);
            }
        }
        sizes
    }
}
