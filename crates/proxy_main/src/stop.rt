ghost use Rattle.std.specs.Prelude.{◌≡◌};
ghost use Rattle.proxy_main.specs.declared.stop.LineStop.TheVariants as line_stop;

use kp_edge::NoMemory;

// Why a line was not answered.
#[derive(Clone, Copy, Debug, PartialEq, Eq)]
pub(crate) enum LineStop {
    // It is too long or outside the grammar.
    BadLine,
    NoMemory,
}

impl From<NoMemory> for LineStop {
    ghost from_gives = { λ _ stop. stop ≡ line_stop.NoMemory };

    fn from(_refused: NoMemory) -> LineStop {
        LineStop::NoMemory
    }
}

// Why a script was read no further.
#[derive(Clone, Copy, Debug, PartialEq, Eq)]
pub(crate) enum Stop {
    // A line is too long or outside the grammar.
    BadLine,
    // The script is longer than its limit.
    TooLong,
    // A read of the input failed.
    Input,
    // A write of the output failed.
    Output,
    NoMemory,
}

impl From<LineStop> for Stop {
    ghost use Rattle.proxy_main.specs.Stops.{stop_of};

    ghost from_gives = { λ line stop. stop ≡ stop_of line };

    fn from(line: LineStop) -> Stop {
        match line {
            LineStop::BadLine => Stop::BadLine,
            LineStop::NoMemory => Stop::NoMemory,
        }
    }
}
