//! The published index: one writer publishes answered requests, and readers look at what was
//! published, with no lock and no wait.
#![tactic(auto)]

mod block;
mod inner;
mod laws;
mod open;
mod outcomes;
mod page;
mod publisher;
mod reader;
mod rule;
mod sight;
mod step;
mod view;

pub use laws::{latest_outcomes_count, views_show_answers};
pub use open::{IndexFault, PLACES_MAX, publish_index};
pub use publisher::Publisher;
pub use reader::{Reader, Told};
pub use rule::History;
pub use step::Step;
pub use view::View;
