//! Numbers that look drawn at random, the same in each run.
ghost use Rattle.std.specs.Prelude.{◌<◌};

/// A generator (Marsaglia's xorshift). Its state is never 0.
#[derive(Drop)]
pub struct Draw(pub u64);

impl Draw {
    /// A number below this one.
    pub fn below(&mut self, bound: u64) -> u64
        requires { 0 < bound }
        ensures { result < bound }
    {
        self.0 ^= self.0 << 13;
        self.0 ^= self.0 >> 7;
        self.0 ^= self.0 << 17;
        self.0 % bound
    }
}
