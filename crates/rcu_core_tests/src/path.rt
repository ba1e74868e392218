//! A path of grace periods through epochs, and the state of a cookie that is taken on it.
ghost use Rattle.std.specs.Prelude.{◌≡◌, ◌+◌, ◌/◌};

/// How many epochs a path goes through.
const EPOCHS: u32 = 5;

/// A step of a path.
#[derive(Clone, Copy)]
pub enum Turn {
    Begin,
    End,
    Renumber,
}

/// How many steps an epoch has: two for each grace period, and a renumbering.
fn steps_in_epoch(last: u32) -> u32
    ensures { result ≡ last / 2 + 1 }
{
    last / 2 + 1
}

/// How many steps the path has if this number is the last one, at most 1,000.
pub fn steps(last: u32) -> u32 {
    steps_in_epoch(last.min(1_000)) * EPOCHS
}

/// The step at a place of the path.
pub fn turn_at(last: u32, place: u32) -> Turn {
    let step = place % steps_in_epoch(last);
    if step == last / 2 {
        Turn::Renumber
    } else if step % 2 == 0 {
        Turn::Begin
    } else {
        Turn::End
    }
}

/// The grace periods of a path since a snapshot: how many begin, and how many of them end.
#[derive(Clone, Copy)]
pub struct Since {
    begins: u32,
    ends: u32,
}

impl Since {
    /// The taking itself.
    pub fn taking() -> Since {
        Since { begins: 0, ends: 0 }
    }

    /// The path goes on. An end counts if its begin does.
    pub fn go(&mut self, turn: Turn) {
        match turn {
            Turn::Begin => self.begins = self.begins.saturating_add(1),
            Turn::End if self.begins > 0 => self.ends = self.ends.saturating_add(1),
            Turn::End | Turn::Renumber => {}
        }
    }

    /// Returns whether a grace period began and ended.
    pub fn has_full_period(&self) -> bool {
        self.ends > 0
    }
}
