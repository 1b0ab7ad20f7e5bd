// What the answers to a job's calls tell.
ghost use Rattle.std.specs.Prelude.{◌≡◌, ◌≤◌, length, IfOk};
ghost use Rattle.jobs.specs.Error.{MadeInMemory};
ghost use Rattle.job_runs.specs.Readings.{first_refusal, line_of, lines_from, readings};

use calls::Answer;
use jobs::JobError;
use listing::Line;
use runs::Reading;
use std::alloc::{AllocError, Global};

// The readings among the answers, or else the first refusal.
pub(crate) fn readings_of(heap: Global, answers: &[Answer]) -> Result<Vec<Reading>, JobError>
    ensures { MadeInMemory (first_refusal answers.now) (λ v. v.items ≡ readings answers.now) result }
{
    let mut all = Vec::new(heap);
    for answer in answers {
        if let Some(reading) = (*answer)? {
            all.push(reading)?;
        }
    }
    Ok(all)
}

// The line of a column.
fn line(column: u8, reading: Reading) -> Line
    ensures { result ≡ line_of column reading }
{
    Line {
        column,
        total: reading.total,
        slack: reading.slack,
        word: reading.word,
    }
}

// A line for each reading, from column 0 on.
pub(crate) fn lines_of(heap: Global, readings: &[Reading]) -> Result<Vec<Line>, AllocError>
    requires { length readings.now ≤ 16 }
    ensures { IfOk result (λ v. v.items ≡ lines_from 0 readings.now) }
{
    // A loop, which proves of its invariant: of a range zipped and mapped it would take several lemmas that it ends in time.
    let mut lines = Vec::new(heap);
    for (column, reading) in (0u8..).zip(readings) {
        lines.push(line(column, *reading))?;
    }
    Ok(lines)
}
