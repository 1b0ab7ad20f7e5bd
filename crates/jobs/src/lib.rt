// Jobs: what is to be summed, as a file that ends in a trailer.
#![tactic(auto)]

mod activations;
mod codes;
mod error;
mod job;
mod plan;
mod reader;
mod survey;
mod text;
mod trailer;
mod words;

pub use activations::Activations;
pub use codes::{FormatCode, UnitCode};
pub use error::JobError;
pub use job::{Job, Section};
pub use plan::Plan;
pub use survey::header;
pub use text::text_of;
