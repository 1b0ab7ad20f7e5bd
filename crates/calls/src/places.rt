// Which calls a run allows, by its stage.
ghost use Rattle.std.specs.Prelude.{◌≡◌, false, map};
ghost use Rattle.std.specs.Option.{option_map};
ghost use Rattle.formats.specs.Coding.{Coding};
ghost use Rattle.sheets.specs.Page.{Page};
ghost use Rattle.calls.specs.Lists.{leads, misplaced};
ghost use Rattle.calls.specs.Work.{event_of, placed};
ghost use Rattle.calls.specs.Stages.{aligned_at};

use crate::{Call, Misplaced};

// Whether a run still surveys, or its step is settled.
#[derive(Clone, Copy)]
enum Stage {
    Surveying,
    Aligned,
}

impl<'a, W: Copy, S> Call<'a, W, S> {
    // The stage that the call leads to, if a run at this stage allows it.
    fn next(&self, stage: Stage) -> Option<Stage>
        ensures { (f : Coding W) (page : S → Page) → option_map aligned_at result ≡ leads (aligned_at stage) (event_of f page self.now) }
    {
        match (stage, self) {
            (Stage::Surveying, Call::Survey(_)) => Some(Stage::Surveying),
            (Stage::Surveying, Call::Fix) => Some(Stage::Aligned),
            (Stage::Aligned, Call::Feed(_, _) | Call::Read(_)) => Some(Stage::Aligned),
            (Stage::Aligned, Call::Clear) => Some(Stage::Surveying),
            _ => None,
        }
    }
}

// Keeps out a list with a call that the state of the run, just opened, would not allow at its place.
pub(crate) fn check_places<W: Copy, S>(calls: &[Call<'_, W, S>]) -> Result<(), Misplaced>
    ensures { (f : Coding W) (page : S → Page) → result ≡ placed (misplaced 0 false (map (event_of f page) calls.now)) }
{
    let mut stage = Stage::Surveying;
    for (place, call) in calls.iter().enumerate() {
        let Some(next) = call.next(stage) else {
            return Err(Misplaced { call: place });
        };
        stage = next;
    }
    Ok(())
}
