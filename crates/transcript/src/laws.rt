ghost use Rattle.std.specs.Prelude.{◌≡◌, ℕ, List};
ghost use Rattle.transcript.specs.Lines.{Spells};
ghost use Rattle.transcript.specs.declared.line.Line.{Line};

/// A text spells one line at most.
pub fn one_line()
    ensures { (text : List ℕ) (a b : Line) → Spells a text → Spells b text → a ≡ b }
{}
