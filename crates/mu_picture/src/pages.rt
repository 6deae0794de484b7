//! That the steps that are asked for have one picture, and how it goes on in the next.
ghost use Rattle.mu_picture.specs.Pages.{PicturesAreOne, PicturesGoOn};

/// Pictures of the same steps of a run show the same: what a picture has to show is settled by the
/// steps, also where it ends if they have more rows than a page.
pub fn pictures_are_one()
    ensures { PicturesAreOne }
{}

/// A picture that has no room for all steps says with which step it goes on. The picture that is
/// asked for from there on begins with the mark of that step, and both have each mark once.
pub fn pictures_go_on()
    ensures { PicturesGoOn }
{}
