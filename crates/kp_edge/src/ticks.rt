ghost use Rattle.std.specs.Prelude.{◌≡◌, ◌+◌, ℕ};
ghost use Rattle.std.specs.Borrow.{ftrue};

use std::marker::Model;

/// A number that proofs alone see: it takes no bytes, and nothing of it is left when the program runs.
#[derive(Drop)]
pub struct Ticks {
    pub ghost count: { ℕ },
}

// Nothing in memory stands for the number, so its two functions are proved by hand.
impl Model for Ticks {
    ghost also_owns = { λ _. ftrue };
}

impl Ticks {
    pub fn new() -> Ticks
        ensures { result.count ≡ 0 }
    {
        Ticks {}
    }

    pub fn tick(&mut self)
        ensures { self.new.count ≡ self.old.count + 1 }
    {}
}
