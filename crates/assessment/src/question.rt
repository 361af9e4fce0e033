// The bytes of a question.
ghost use Rattle.std.specs.Prelude.{◌≡◌, ◌<◌, ◌≤◌, ◌==◌, length, drop, if◌then◌else◌, Ok, Err, MatchOption};
ghost use Rattle.std.specs.Bool.{then_some};
ghost use Rattle.assessment.specs.declared.faults.QuestionCause.TheVariants.{Length};
ghost use Rattle.assessment.specs.Questions.{objective_size, question_size, objective_at, asked};

use crate::faults::QuestionCause;
use fault::{Cause, Fault};
use plans::Objective;

// The objective at the front of some bytes, and the bytes behind it.
fn split_objective(bytes: &[u8]) -> Option<(Objective, &[u8])>
    ensures { MatchOption result (length bytes.now < objective_size) (λ p. (objective_size ≤ length bytes.now) × (p.0 ≡ objective_at bytes.now 0) × (p.1.now ≡ drop objective_size bytes.now)) }
{
    let (column, rest) = bytes.split_first()?;
    let (bound, rest) = rest.split_first_chunk()?;
    let (target, rest) = rest.split_first_chunk()?;
    let objective = Objective {
        column: usize::from(*column),
        bound: usize::from(u16::from_le_bytes(*bound)),
        target: i64::from_le_bytes(*target),
    };
    Some((objective, rest))
}

// The two objectives whose bytes these are.
fn split_pair(bytes: &[u8]) -> Option<[Objective; 2]>
    ensures { result ≡ then_some (length bytes.now == question_size) (asked bytes.now) }
{
    let (first, rest) = split_objective(bytes)?;
    let (second, rest) = split_objective(rest)?;
    rest.is_empty().then_some([first, second])
}

// The two objectives of a question, which has just the bytes that they take.
pub(crate) fn read(bytes: &[u8]) -> Result<[Objective; 2], Fault<QuestionCause>>
    ensures { result ≡ (if length bytes.now == question_size then Ok (asked bytes.now) else Err (record { cause = Length; place = length bytes.now })) }
{
    split_pair(bytes).ok_or(QuestionCause::Length.at(bytes.len()))
}
