//! The laws of jobs' texts.

ghost use Rattle.aa_round_trip_laws.specs.Again.{RequestsAreRead};
ghost use Rattle.aa_round_trip_laws.specs.Jobs.{JobsAreRead};

/// A request that is written as an item of a task is read as that request. It does nothing: its contract is a law.
pub fn requests_are_read()
    ensures { RequestsAreRead }
{}

/// A job that is written is read as that job. It does nothing: its contract is a law.
pub fn jobs_are_read()
    ensures { JobsAreRead }
{}
