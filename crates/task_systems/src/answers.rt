// How a state's answers are told by a system.
ghost use Rattle.std.specs.Prelude.{◌≡◌};
ghost use Rattle.task_laws.specs.Systems.{told, accepted_as};

use job_state::State;
use jobs::JobRefusal;
use transition::Refusal;

// A function, and no From: neither type is of this crate.
pub(crate) fn tell(refusal: JobRefusal) -> Refusal<JobRefusal>
    ensures { result ≡ told refusal }
{
    match refusal {
        JobRefusal::NoTask => Refusal::Lacking,
        JobRefusal::NotFitting => Refusal::NotFitting,
        JobRefusal::TaskDropped
        | JobRefusal::StillReady
        | JobRefusal::Waiting
        | JobRefusal::NonePicked
        | JobRefusal::TaskDue => Refusal::Own(refusal),
    }
}

// The state, where the answer accepts it.
pub(crate) fn accept(
    answer: Result<(), JobRefusal>,
    state: State,
) -> Result<State, Refusal<JobRefusal>>
    ensures { result ≡ accepted_as answer state }
{
    answer.map(|()| state).map_err(tell)
}
