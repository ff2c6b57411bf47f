//! The statuses of the ends of an exercise.
ghost use Rattle.std.specs.Prelude.{◌≡◌};
ghost use Rattle.ldm_exercise.specs.Statuses.{status_of_exercise};

use crate::exercise_command::ExerciseFault;
use ldm_status::Status;

/// The status of how an exercise ended.
pub fn status_of(ending: Result<(), ExerciseFault>) -> Status
    ensures { result ≡ status_of_exercise ending }
{
    match ending {
        Ok(()) => Status::Done,
        Err(ExerciseFault::SinkFault) => Status::SinkFault,
        Err(ExerciseFault::OutOfMemory) => Status::NoMemory,
    }
}
