// The calls that a job is worked by.
ghost use Rattle.std.specs.Prelude.{◌≡◌, ◌≤◌, ◌++◌, length, IfOk};
ghost use Rattle.formats.specs.Coding.{Coding};
ghost use Rattle.alignment.specs.Tile.{tile_of};
ghost use Rattle.sheets.specs.Meanings.{any_meaning};
ghost use Rattle.sheets.specs.Packing.{page};
ghost use Rattle.runs.specs.Log as log;
ghost use Rattle.calls.specs.Work.{event_of};
ghost use Rattle.jobs.specs.Plan.{sheet_bytes};
ghost use Rattle.job_runs.specs.Events.{events_of, surveys, feeds, reads, job_events};

use crate::material::Material;
use alignment::TILE_WORDS;
use calls::Call;
use sheets::AnySheet;
use std::alloc::{AllocError, Global};

type Calls<'a, W> = Vec<Call<'a, W, AnySheet<'a>>>;

// The survey of a tile. (A function with a name, since the borrow checker does not cover `map` with a closure here.)
fn survey<'a, W>(tile: &'a [W]) -> Call<'a, W, AnySheet<'a>>
    ensures { (f : Coding W) → event_of f any_meaning result ≡ log.survey (tile_of f tile.now) }
{
    Call::Survey(tile)
}

impl<'a, W: Copy> Material<'a, W> {
    // Every tile is surveyed.
    fn ask_surveys(&self, heap: Global) -> Result<Calls<'a, W>, AllocError>
        ensures { IfOk result (λ v. (f : Coding W) → events_of f v.items ≡ surveys (tile_of f self.now.words.now)) }
    {
        self.words.chunks(TILE_WORDS).map(survey).collect(heap)
    }

    // The sheet of so many rows in the bytes, which are as many as it takes.
    fn sheet(&self, rows: usize, bytes: &'a [u8]) -> AnySheet<'a>
        requires few { rows ≤ 128 }
        requires long { length bytes.now ≡ sheet_bytes self.now.plan rows }
        ensures { any_meaning result ≡ page self.now.plan.sheet rows self.now.plan.columns bytes.now }
    {
        let columns = usize::from(self.plan.columns);
        AnySheet::new(self.plan.sheet, rows, columns, bytes).unwrap()
    }

    // Every tile is fed with its sheet. (Cut off sheet by sheet, since the last one is shorter: that tiles and sheets as
    // `chunks` lie side by side would have to be proved, and is not plainer to read.)
    fn ask_feeds(&self, mut calls: Calls<'a, W>) -> Result<Calls<'a, W>, AllocError>
        ensures { IfOk result (λ v. (f : Coding W) → events_of f v.items ≡ events_of f calls.entry.items ++ feeds self.now.plan (tile_of f self.now.words.now) self.now.weights.now) }
    {
        let plan = self.plan;
        let mut rest = self.weights;
        for tile in self.words.chunks(TILE_WORDS) {
            let size = plan.sheet.byte_length(tile.len() as u16, plan.columns);
            let (sheet, behind) = rest.split_at(size);
            calls.push(Call::Feed(tile, self.sheet(tile.len(), sheet)))?;
            rest = behind;
        }
        Ok(calls)
    }

    // Every column is read.
    fn ask_reads(&self, mut calls: Calls<'a, W>) -> Result<Calls<'a, W>, AllocError>
        ensures { IfOk result (λ v. (f : Coding W) → events_of f v.items ≡ events_of f calls.entry.items ++ reads self.now.plan.columns) }
    {
        // A loop: the borrow checker covers no `map` whose result names a lifetime and a type that no argument names.
        for column in 0..usize::from(self.plan.columns) {
            calls.push(Call::Read(column))?;
        }
        Ok(calls)
    }

    // All calls of a job.
    pub(crate) fn calls(&self, heap: Global) -> Result<Calls<'a, W>, AllocError>
        ensures { IfOk result (λ v. (f : Coding W) → events_of f v.items ≡ job_events self.now.plan (tile_of f self.now.words.now) self.now.weights.now) }
    {
        let mut calls = self.ask_surveys(heap)?;
        calls.push(Call::Fix)?;
        let calls = self.ask_feeds(calls)?;
        self.ask_reads(calls)
    }
}
