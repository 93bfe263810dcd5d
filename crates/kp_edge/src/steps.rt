ghost use Rattle.std.specs.Prelude.{◌≡◌, ◌+◌};

use crate::ticks::Ticks;
use std::marker::{Model, PhantomData};

/// A counter of steps, of the kind that the type `L` names. It takes no bytes, and only contracts see
/// its number: a function that is to be bounded ticks at each step, and its clause bounds the ticks.
#[derive(Drop)]
pub struct Steps<L> {
    ticks: Ticks,
    marker: PhantomData<L>,
}

impl<L> Model for Steps<L> {
    ghost use Rattle.std.specs.Prelude.{ℕ};

    ghost Value = { ℕ };

    ghost view = { λ s. s.ticks.count };
}

impl<L> Steps<L> {
    pub fn new() -> Steps<L>
        ensures { result ≡ 0 }
    {
        Steps {
            ticks: Ticks::new(),
            marker: PhantomData,
        }
    }

    pub fn tick(&mut self)
        ensures { self.new ≡ self.old + 1 }
    {
        self.ticks.tick();
    }
}
