ghost use Rattle.std.specs.Prelude.{◌≡◌};
ghost use Rattle.side_requests.specs.AskNumbers.{ask_number, asked_then};

use std::marker::Model;

const MOST_ASKS: u32 = 64;

/// Numbers the asks of one request. Contracts see how many it gave.
#[derive(Debug, Drop)]
pub struct AskBook {
    asked: u32,
}

impl Model for AskBook {
    ghost use Rattle.std.specs.Prelude.{ℕ};

    ghost Value = { ℕ };

    ghost view = { λ book. book.asked };
}

impl AskBook {
    pub fn new() -> AskBook
        ensures { result ≡ 0 }
    {
        AskBook { asked: 0 }
    }

    /// The next ask's number: 0 to 63, and then none. It takes no memory.
    pub fn next(&mut self) -> Option<u32>
        ensures number { result ≡ ask_number self.old }
        ensures asked { self.new ≡ asked_then self.old }
    {
        if self.asked >= MOST_ASKS {
            return None;
        }
        let number = self.asked;
        self.asked += 1;
        Some(number)
    }
}
