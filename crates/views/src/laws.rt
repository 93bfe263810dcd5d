//! What holds of each format.
ghost use Rattle.views.specs.Laws.{ItemsHaveOneView};

/// The law of views. A call does nothing but give it to its caller's proof.
pub fn view_laws()
    ensures { ItemsHaveOneView }
{}
