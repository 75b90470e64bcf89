//! What a plan does to the cells of a chip, and the map of it: an image for any browser.
//! `docs/FORMATS.md`, "Maps", has them.
//!
//! [`PlanMarks`] takes a plan's lines piece after piece and knows the state of each cell;
//! [`draw_map`] draws them. [`laws`] says that a folded line hides nothing, and [`worked`] has
//! values, worked out by hand.
#![tactic(auto)]

mod beside;
mod blocks;
mod cells;
mod drawing;
mod labels;
pub mod laws;
mod marks;
mod part;
mod rows;
mod sizes;
mod state;
mod totals;
mod wanted;
pub mod worked;

pub use beside::Title;
pub use drawing::draw_map;
pub use marks::PlanMarks;
pub use state::State;
pub use wanted::Wanted;
