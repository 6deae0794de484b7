//! That the ends of journals are drawn.
ghost use Rattle.mu_picture.specs.Endings.{EndsAreDrawn};

/// Of each journal that obeys its script the last step has a mark, which tells how the journal
/// ends: stopped, its budget spent, outrun or finished.
pub fn ends_are_drawn()
    ensures { EndsAreDrawn }
{}
