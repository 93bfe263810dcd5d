ghost use Rattle.std.specs.Prelude.{◌≡◌, ◌+◌, ℕ, List, take};
ghost use Rattle.config_answers.specs.ConfigAnswers.{config_answer, config_limit};
ghost use Rattle.config_answers.specs.ClusterAnswers.{cluster_answer};
ghost use Rattle.config_answers.specs.declared.asked.Asked.{Asked};

/// Law: one byte past the limit tells as much of a configuration as all of it. It has an empty body.
pub fn front_law()
    ensures answer { (asked : Asked) (whole : List ℕ) → config_answer asked (take (config_limit + 1) whole) ≡ config_answer asked whole }
    ensures cluster { (name whole : List ℕ) → cluster_answer name (take (config_limit + 1) whole) ≡ cluster_answer name whole }
{}
