// Working lists of calls.
ghost use Rattle.std.specs.Prelude.{◌≡◌, true, false};
ghost use Rattle.runs.specs.Log.{Holds};
ghost use Rattle.calls.specs.Lists.{aligned_after, allowed, log_after};
ghost use Rattle.calls.specs.Work.{AlikeWhereWorked, Follows, WorkOf, event_of, events_of, format_of, is_aligned, opened_log, state_of};

use crate::places::check_places;
use crate::{Answer, Call, Opening, Run, WorkError, Worked};
use formats::Format;
use runs::SurveyingRun;
use sheets::Sheet;
use std::alloc::Global;
use units::Unit;

impl<F: Format, U: Unit> Run<F, U> {
    // Makes a call that the run's state allows. (A match, and no list of closures: all calls are checked before any is made.)
    fn make<S: Sheet>(self, call: &Call<'_, F::Word, S>) -> (Run<F, U>, Answer)
        requires { allowed (is_aligned self) (event_of (F.Format.meaning (format_of self)) S.Sheet.meaning call.now) ≡ true }
        ensures format { format_of result.0 ≡ format_of self }
        ensures stage { is_aligned result.0 ≡ aligned_after (event_of (F.Format.meaning (format_of self)) S.Sheet.meaning call.now) }
        ensures follows { Follows (event_of (F.Format.meaning (format_of self)) S.Sheet.meaning call.now) (state_of F.Format.meaning U.Unit.meaning self) result.1 (state_of F.Format.meaning U.Unit.meaning result.0) }
    {
        match (self, call) {
            (Run::Surveying(mut run), Call::Survey(words)) => {
                let answer = run.survey(words).map(|()| None);
                (Run::Surveying(run), answer)
            }
            (Run::Surveying(run), Call::Fix) => (Run::Aligned(run.fix()), Ok(None)),
            (Run::Aligned(mut run), Call::Feed(words, sheet)) => {
                let answer = run.feed(words, sheet).map(|()| None);
                (Run::Aligned(run), answer)
            }
            (Run::Aligned(run), Call::Read(column)) => {
                let answer = run.read(*column).map(Some);
                (Run::Aligned(run), answer)
            }
            (Run::Aligned(run), Call::Clear) => (Run::Surveying(run.clear()), Ok(None)),
            _ => unreachable(),
        }
    }
}

fn open<F: Format, U: Unit>(opening: Opening<F, U>) -> Run<F, U>
    ensures format { format_of result ≡ opening.format }
    ensures stage { is_aligned result ≡ false }
    ensures logs { Holds (opened_log F.Format.meaning U.Unit.meaning opening) (state_of F.Format.meaning U.Unit.meaning result) }
{
    let Opening {
        format,
        unit,
        extra,
    } = opening;
    Run::Surveying(SurveyingRun::open(format, unit, extra))
}

// Opens a run and makes the calls in turn, after a check that none of them is misplaced. Whatever they were, refused or
// not: every answer is the rule's, and in every column the total and the slack tell where the exact sum of the accepted
// terms lies.
pub fn work<F: Format + Drop, U: Unit + Drop, S: Sheet>(
    heap: Global,
    opening: Opening<F, U>,
    calls: &[Call<'_, F::Word, S>],
) -> Result<Worked<F, U>, WorkError>
    ensures { WorkOf F.Format.meaning U.Unit.meaning S.Sheet.meaning opening calls.now result }
{
    check_places(calls)?;
    let mut run = open(opening);
    let mut answers = Vec::new(heap);
    for call in calls {
        let (next, answer) = run.make(call);
        run = next;
        answers.push(answer)?;
    }
    Ok(Worked { run, answers })
}

// Works two lists of calls, each on a run of its own, over any formats, units and sheets. A column of the one and a
// column of the other that have one step, and accepted the same terms, each as often, give equal figures.
pub fn work_both<
    F: Format + Drop,
    U: Unit + Drop,
    S: Sheet,
    G: Format + Drop,
    V: Unit + Drop,
    R: Sheet,
>(
    heap: Global,
    left: Opening<F, U>,
    left_calls: &[Call<'_, F::Word, S>],
    right: Opening<G, V>,
    right_calls: &[Call<'_, G::Word, R>],
) -> (
    Result<Worked<F, U>, WorkError>,
    Result<Worked<G, V>, WorkError>,
)
    ensures left { WorkOf F.Format.meaning U.Unit.meaning S.Sheet.meaning left left_calls.now result.0 }
    ensures right { WorkOf G.Format.meaning V.Unit.meaning R.Sheet.meaning right right_calls.now result.1 }
    ensures alike { AlikeWhereWorked F.Format.meaning U.Unit.meaning G.Format.meaning V.Unit.meaning (log_after (opened_log F.Format.meaning U.Unit.meaning left) (events_of F.Format.meaning S.Sheet.meaning left left_calls.now)) (log_after (opened_log G.Format.meaning V.Unit.meaning right) (events_of G.Format.meaning R.Sheet.meaning right right_calls.now)) result.0 result.1 }
{
    (work(heap, left, left_calls), work(heap, right, right_calls))
}
