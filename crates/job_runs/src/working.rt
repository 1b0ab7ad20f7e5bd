// A job worked, and listed.
ghost use Rattle.std.specs.Prelude.{◌≡◌, true, length};
ghost use Rattle.alignment.specs.Tile.{tile_of};
ghost use Rattle.runs.specs.Checks.{setting};
ghost use Rattle.calls.specs.Work.{is_aligned, state_of};
ghost use Rattle.jobs.specs.Error.{MadeInMemory};
ghost use Rattle.jobs.specs.Plan.{activation_bytes, weight_bytes};
ghost use Rattle.jobs.specs.Survey.{activations_tile, coding_of};
ghost use Rattle.job_runs.specs.Parts.{Fair, job_setting};
ghost use Rattle.job_runs.specs.Listing.{ListedAs, ListingOf, listing_check};

use crate::material::Material;
use crate::told::{lines_of, readings_of};
use alignment::ExtraBits;
use calls::{Opening, Run, WorkError, work};
use formats::{Bfloat16, Binary16, Binary32, Fixed8, Format};
use jobs::{Activations, Job, JobError, UnitCode};
use layers::{Drain, Odd};
use listing::{Header, Listing};
use planes::Plane;
use std::alloc::Global;
use units::{Multiplier, Unit};

// The shared exponent of a run that is aligned.
fn shared_exponent<F: Format, U: Unit>(run: &Run<F, U>) -> i32
    requires { is_aligned run.now ≡ true }
    ensures { result ≡ (state_of F.Format.meaning U.Unit.meaning run.now).shared }
{
    match run {
        Run::Aligned(run) => run.step().shared.exponent(),
        Run::Surveying(_) => unreachable(),
    }
}

// The listing of a job on an opening that its plan asks for.
fn list_on<F: Format + Drop, U: Unit + Drop>(
    heap: Global,
    material: &Material<'_, F::Word>,
    opening: Opening<F, U>,
) -> Result<Listing, JobError>
    requires { setting (F.Format.meaning opening.format).least opening.extra.bits (U.Unit.meaning opening.unit) ≡ job_setting material.now.plan }
    ensures { ListedAs material.now.plan (tile_of (F.Format.meaning opening.format) material.now.words.now) material.now.weights.now result }
{
    let calls = material.calls(heap)?;
    // Taken apart by hand: a call cannot be misplaced here, and `JobError` has no such case.
    let worked = match work(heap, opening, calls.as_slice()) {
        Ok(worked) => worked,
        Err(WorkError::Memory(error)) => return Err(JobError::Memory(error)),
        Err(WorkError::Misplaced(_)) => unreachable(),
    };
    let readings = readings_of(heap, worked.answers.as_slice())?;
    let header = Header {
        rows: material.plan.rows,
        shared: shared_exponent(&worked.run),
        extra: material.plan.extra,
    };
    let lines = lines_of(heap, readings.as_slice())?;
    Ok(Listing { header, lines })
}

// The same on a unit, opened with the extra bits of the plan.
fn list_unit<F: Format + Drop, U: Unit + Drop>(
    heap: Global,
    material: &Material<'_, F::Word>,
    format: F,
    unit: U,
) -> Result<Listing, JobError>
    requires { setting (F.Format.meaning format).least material.now.plan.extra (U.Unit.meaning unit) ≡ job_setting material.now.plan }
    ensures { ListedAs material.now.plan (tile_of (F.Format.meaning format) material.now.words.now) material.now.weights.now result }
{
    let opening = Opening {
        format,
        unit,
        extra: ExtraBits::new(u32::from(material.plan.extra)).unwrap(),
    };
    list_on(heap, material, opening)
}

// The same on the unit that the plan asks for. Each unit is a type of its own, so each arm lists for itself.
fn list_words<F: Format + Drop>(
    heap: Global,
    material: &Material<'_, F::Word>,
    format: F,
) -> Result<Listing, JobError>
    requires { (F.Format.meaning format).least ≡ (coding_of material.now.plan.format).least }
    ensures { ListedAs material.now.plan (tile_of (F.Format.meaning format) material.now.words.now) material.now.weights.now result }
{
    let columns = usize::from(material.plan.columns);
    match material.plan.unit {
        UnitCode::DrainMultiplier => {
            let unit = Drain::new(Multiplier::new(columns).unwrap());
            list_unit(heap, material, format, unit)
        }
        UnitCode::DrainOddPlane => {
            let unit = Drain::new(Odd::new(Plane::new(columns).unwrap()));
            list_unit(heap, material, format, unit)
        }
        UnitCode::DrainPlane => {
            let unit = Drain::new(Plane::new(columns).unwrap());
            list_unit(heap, material, format, unit)
        }
    }
}

// The listing of a job that was read. Each format is a type of its own, so each arm lists for itself.
fn list_read(heap: Global, job: &Job) -> Result<Listing, JobError>
    requires fair { Fair job.now.plan }
    requires words { length job.now.activations.bytes.now ≡ activation_bytes job.now.plan }
    requires sheets { length job.now.weights.bytes.now ≡ weight_bytes job.now.plan }
    ensures { ListedAs job.now.plan (activations_tile job.now.plan job.now.activations.bytes.now) job.now.weights.bytes.now result }
{
    let plan = job.plan;
    let weights = job.weights.bytes;
    match job.words(heap)? {
        Activations::Binary16(words) => {
            let material = Material::new(plan, words.as_slice(), weights);
            list_words(heap, &material, Binary16)
        }
        Activations::Bfloat16(words) => {
            let material = Material::new(plan, words.as_slice(), weights);
            list_words(heap, &material, Bfloat16)
        }
        Activations::Binary32(words) => {
            let material = Material::new(plan, words.as_slice(), weights);
            list_words(heap, &material, Binary32)
        }
        Activations::Fixed8(words) => {
            let material = Material::new(plan, words.as_slice(), weights);
            list_words(heap, &material, Fixed8::new(0).unwrap())
        }
    }
}

// The listing of the job that a file holds, or why it has none.
pub fn list_job(heap: Global, file: &[u8]) -> Result<Listing, JobError>
    ensures { MadeInMemory (listing_check file.now) (ListingOf file.now) result }
{
    let job = Job::read(file)?;
    list_read(heap, &job)
}
