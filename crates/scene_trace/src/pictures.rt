//! Pictures of a scene's plan and of what a run did, as texts: an SVG, and a page of HTML that needs nothing beside it.
//!
//! What comes from a document is escaped wherever it stands. A page has its run as JSON in which no tag begins.

mod boxes;
mod bytes;
mod drawing;
mod json;
mod page;
mod plan;
mod record;
mod script;
mod series;
mod sharing;
mod style;

pub use bytes::put_html;
pub use drawing::plan_svg;
pub use page::run_page;
pub use plan::{Plan, PlanSystem};
pub use record::Record;
