/// What a probe does on its turns.
#[derive(Clone, Copy, Debug)]
pub enum Habit {
    /// It asks so often, three times at most, and then forwards the request.
    Asking { what: u8, times: u8 },
    /// It has one turn on a request, and one on what comes back for it.
    TwoTurns { what: u8 },
    /// It holds a Heartbeat and goes by the verdict.
    Heeding,
}
