// A job that was accepted: its plan, and the parts of the file that it speaks of.
use crate::plan::Plan;

// A part of a file, with its place.
#[derive(Clone, Copy)]
pub struct Section<'a> {
    pub place: usize,
    pub bytes: &'a [u8],
}

// The facts of a job that was read are not held by the type: it would ask more of whoever makes one.
#[derive(Clone, Copy)]
pub struct Job<'a> {
    pub plan: Plan,
    pub activations: Section<'a>,
    pub weights: Section<'a>,
}
