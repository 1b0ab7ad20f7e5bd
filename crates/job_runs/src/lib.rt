// A job from beginning to end: its calls, worked on a run, and the listing that comes of their answers.
#![tactic(auto)]

mod asking;
mod material;
mod text;
mod told;
mod working;

pub use text::job_text;
pub use working::list_job;
