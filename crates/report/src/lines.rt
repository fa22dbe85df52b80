//! The lines of a report.
ghost use Rattle.std.specs.Prelude.{◌≡◌, ◌≤◌, length, MatchResult};
ghost use Rattle.report.specs.Lines.{Lined, Spoiled};

use crate::line::Line;
use figures::least_cost;
use network::{Fault, Weight};
use sources::Source;

/// One line for each weight, in their order, at the front of sixteen.
// Beside corner_report's `lines_of`, and not one function with it: each line here is a run's answer, there a plan's.
// Source, start and target stand side by side, as `least_cost` takes them.
pub(crate) fn lines_at<S: Source>(
    source: &S,
    start: usize,
    target: usize,
    weights: &[Weight],
) -> Result<[Line; 16], Fault>
    requires { length weights.now ≤ 16 }
    ensures { MatchResult result (λ lines. Lined (S.Source.network source.now) start target weights.now lines (length weights.now)) (λ f. Spoiled (S.Source.network source.now) start target weights.now f) }
{
    let mut lines = [Line::default(); 16];
    // A line is written by its place: with `zip` the proof of `lines_at` did not close, since nothing is known after the
    // loop of what is written through it.
    for (i, weight) in weights.iter().enumerate() {
        lines[i] = Line {
            weight: *weight,
            least: least_cost(source, start, target, *weight)?,
        };
    }
    Ok(lines)
}
