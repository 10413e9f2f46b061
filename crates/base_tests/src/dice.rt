//! Numbers for random tests.

ghost use Rattle.std.specs.Prelude.{◌<◌};

/// Numbers in a fixed order that looks like none.
#[derive(Drop)]
pub struct Dice(pub u64);

impl Dice {
    pub fn below(&mut self, n: u64) -> u64
        requires { 0 < n }
        ensures { result < n }
    {
        self.0 = self
            .0
            .wrapping_mul(6_364_136_223_846_793_005)
            .wrapping_add(1_442_695_040_888_963_407);
        (self.0 >> 33) % n
    }
}
