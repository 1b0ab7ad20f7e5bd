// What the calls of a job are made of.
ghost use Rattle.std.specs.Prelude.{◌≡◌, length};
ghost use Rattle.jobs.specs.Plan.{weight_bytes};
ghost use Rattle.job_runs.specs.Parts.{Fair};

use jobs::Plan;

// A plan with a word for each of its rows, and the bytes of all its sheets.
#[derive(Drop)]
pub(crate) struct Material<'a, W> {
    pub(crate) plan: Plan,
    pub(crate) words: &'a [W],
    pub(crate) weights: &'a [u8],
    ghost fair: { Fair plan },
    ghost full: { length words.now ≡ plan.rows },
    ghost whole: { length weights.now ≡ weight_bytes plan },
}

impl<'a, W> Material<'a, W> {
    pub(crate) fn new(plan: Plan, words: &'a [W], weights: &'a [u8]) -> Material<'a, W>
        requires fair { Fair plan }
        requires full { length words.now ≡ plan.rows }
        requires whole { length weights.now ≡ weight_bytes plan }
        ensures plan { result.plan ≡ plan }
        ensures words { result.words.now ≡ words.now }
        ensures weights { result.weights.now ≡ weights.now }
    {
        Material {
            plan,
            words,
            weights,
        }
    }
}
