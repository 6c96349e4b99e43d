// The rides of labels, and of finals.

ghost use Rattle.std.specs.Prelude.{◌≡◌, IfOk, map};
ghost use Rattle.round_engine.specs.Chain.{rides_of};
ghost use Rattle.journey_rebuild.specs.Answers.{answer_of};

use flex_model::{Answer, Listed, NoMemory, Ride};
use round_engine::{Final, Label};
use std::alloc::Global;

/// The rides of the label and of those before it, first ride first. Its only refusal is want of memory.
pub fn rebuild(alloc: Global, label: &Label<'_>) -> Result<Listed<Ride>, NoMemory>
    ensures { IfOk result (λ rides. rides ≡ rides_of label.now) }
{
    let mut rides = match label.parent {
        Some(parent) => rebuild(alloc, parent)?,
        None => Listed::new(alloc),
    };
    rides.push(label.ride)?;
    Ok(rides)
}

/// The finals of a search as answers, each with the rides of its label, copied out of the arena. Its only refusal is want of
/// memory.
pub fn answers_of(alloc: Global, finals: &[Final<'_>]) -> Result<Listed<Answer>, NoMemory>
    ensures { IfOk result (λ answers. answers ≡ map answer_of finals.now) }
{
    let mut answers = Listed::new(alloc);
    for best in finals {
        let rides = rebuild(alloc, best.label)?;
        answers.push(Answer {
            triple: best.triple,
            rides,
        })?;
    }
    Ok(answers)
}
