//! The statuses of the ends of these commands.
ghost use Rattle.std.specs.Prelude.{◌≡◌};
ghost use Rattle.ldm_play.specs.SavingStatuses.{status_of_saving, status_of_closed, status_of_save, status_of_resume};
ghost use Rattle.ldm_play.specs.SavingStatuses.{status_of_check};

use crate::check_command::CheckFault;
use crate::save_command::KeptPlay;
use ldm_book::CreateFault;
use ldm_image::{ImageFault, SaveEnd};
use ldm_status::Status;

impl From<KeptPlay> for Status {
    ghost use Rattle.ldm_play.specs.SavingStatuses.{status_of_kept};

    ghost from_gives = { λ ending status. status ≡ status_of_kept ending };

    fn from(ending: KeptPlay) -> Status {
        match ending {
            KeptPlay::Stopped(end) => Status::from(end),
            KeptPlay::Played(end) => of_saving(end),
        }
    }
}

// The status of how a queue was saved.
fn of_saving(end: SaveEnd) -> Status
    ensures { result ≡ status_of_saving end }
{
    match end {
        SaveEnd::Saved => Status::Done,
        SaveEnd::DiskFault => Status::StoreFault,
        SaveEnd::OutOfMemory => Status::NoMemory,
    }
}

// The status where no queue was opened.
fn of_closed(why: ImageFault) -> Status
    ensures { result ≡ status_of_closed why }
{
    match why {
        ImageFault::Unclean { .. } => Status::Unclean,
        ImageFault::BadImage { at } => Status::BadImage { at },
        ImageFault::DiskFault => Status::StoreFault,
        ImageFault::OutOfMemory => Status::NoMemory,
    }
}

/// The status of how a `save` ended.
pub fn status_of_save(ending: Result<KeptPlay, CreateFault>) -> Status
    ensures { result ≡ status_of_save ending }
{
    match ending {
        Ok(ending) => Status::from(ending),
        Err(fault) => crate::status_of(Err(fault)),
    }
}

/// The status of how a `resume` ended.
pub fn status_of_resume(ending: Result<KeptPlay, ImageFault>) -> Status
    ensures { result ≡ status_of_resume ending }
{
    match ending {
        Ok(ending) => Status::from(ending),
        Err(why) => of_closed(why),
    }
}

/// The status of how a `pqcheck` ended.
pub fn status_of_check(ending: Result<(), CheckFault>) -> Status
    ensures { result ≡ status_of_check ending }
{
    match ending {
        Ok(()) => Status::Done,
        Err(CheckFault::Unopened(why)) => of_closed(why),
        Err(CheckFault::SinkFault) => Status::SinkFault,
    }
}
