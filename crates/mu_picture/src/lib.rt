//! A picture of a run: what is drawn of its steps, and the drawing as a document of SVG.
//!
//! A picture is a list of marks, in the order of the steps: what a step does that is drawn, in the
//! lane of the replica that made it. Long stretches without a mark are folded.
#![tactic(auto)]

mod deeds;
mod drawing;
mod endings;
mod heading;
mod lanes;
mod layout;
mod marks;
mod openings;
mod pages;
mod pictures;
mod rows;
mod shapes;
mod sheet;
mod standings;
mod trail;
mod words;

pub use drawing::{Breach, drawing_of};
pub use endings::ends_are_drawn;
pub use pages::{pictures_are_one, pictures_go_on};
pub use pictures::{Extent, Picture, picture_of};
pub use sheet::Sheet;
