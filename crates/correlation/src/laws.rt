//! What a window of sends has to do with the machine's list.
ghost use Rattle.correlation.specs.IsWindow.{WindowLaws};

/// A window that stands for a state of the machine stands for the next one after each event that concerns sends.
pub fn window_laws()
    ensures { WindowLaws }
{}
