//! The laws of the job of files and logs.

ghost use Rattle.aa_round_trip_laws.specs.Made.{LogsAskWhatCanBeMade};
ghost use Rattle.aa_round_trip_laws.specs.Printed.{PrintedJobsAreRead, LogJobsAreRead};

use crate::job_laws::jobs_are_read;

/// The requests of the tasks that logs give can be made, so that a job can have them. It does nothing: its contract is a law.
pub fn logs_ask_what_can_be_made()
    ensures { LogsAskWhatCanBeMade }
{}

/// What `push_job` writes of the sources that units share, where its tasks ask what can be made, is read as the job of these texts,
/// tasks and states. It does nothing: its contract is a law.
pub fn printed_jobs_are_read()
    ensures { PrintedJobsAreRead }
{
    jobs_are_read();
}

/// What `push_job` writes of the sources that units share and of the tasks that logs give is read as the job of these. It does
/// nothing: its contract is a law.
pub fn log_jobs_are_read()
    ensures { LogJobsAreRead }
{
    logs_ask_what_can_be_made();
    printed_jobs_are_read();
}
