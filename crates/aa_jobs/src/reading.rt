//! Reads a job.

ghost use Rattle.std.specs.Prelude.{◌≡◌, ◌≢◌, IfOk, IfErr, Ok, Err};
ghost use Rattle.aa_jobs.specs.declared.job_fault.JobFault.{JobFault};
ghost use Rattle.aa_jobs.specs.Steps.{Gives};
ghost use Rattle.aa_jobs.specs.Stream.{written_as};
ghost use Rattle.aa_jobs.specs.Made.{limited_in, made_job, mapped};
ghost use Rattle.aa_jobs.specs.Raw.{raw_job};
ghost use Rattle.aa_jobs.specs.Jobs.{written_in, job_of};

use crate::job::Job;
use crate::job_fault::JobFault;
use crate::limits::is_within_limits;
use crate::meaning::job_from;
use crate::raw::RawJob;
use crate::stream;
use json::{Reader, Scratch};
use std::alloc::Global;

/// How many bytes a job may have.
const MAX_BYTES: usize = 16_777_216;

/// How deep arrays and objects may nest.
const MAX_DEPTH: usize = 127;

/// What stands in the job that the text is.
fn raw_in(alloc: Global, text: &str) -> Result<RawJob, JobFault>
    ensures { Gives raw_job result (mapped made_job (written_as text.now)) }
{
    let mut scratch = Scratch::new(alloc);
    let Ok(mut reader) = Reader::new(text, &mut scratch) else {
        return Err(JobFault::NoMemory);
    };
    let raw = stream::job(alloc, &mut reader, MAX_DEPTH)?;
    match reader.next() {
        None => raw,
        Some(_) => Err(JobFault::NotJson),
    }
}

/// What stands in the job that the bytes are.
fn raw_job(alloc: Global, bytes: &[u8]) -> Result<RawJob, JobFault>
    ensures { Gives raw_job result (mapped made_job (written_in bytes.now)) }
{
    match std::str::from_utf8(bytes) {
        Ok(text) => raw_in(alloc, text),
        Err(_) => Err(JobFault::NotJson),
    }
}

/// The job that stands there, if nothing is over its limit.
fn limited_job(alloc: Global, raw: RawJob) -> Result<Job, JobFault>
    ensures { Gives (λ j. j) result (limited_in (raw_job raw)) }
{
    if is_within_limits(&raw) {
        job_from(alloc, raw)
    } else {
        Err(JobFault::TooLarge)
    }
}

fn read(alloc: Global, bytes: &[u8]) -> Result<Job, JobFault>
    ensures { Gives (λ j. j) result (job_of bytes.now) }
{
    if bytes.len() > MAX_BYTES {
        return Err(JobFault::TooLarge);
    }
    let raw = raw_job(alloc, bytes)?;
    limited_job(alloc, raw)
}

/// The job that the bytes are.
///
/// Refused in this order: `TooLarge` for more than 16,777,216 bytes; `NotJson`; `BadShape`; `TooLarge` for a number, a list or
/// a text over its limit; `BadRequest`. Want of memory (`NoMemory`) may be met before any of them but the first.
pub fn read_job(alloc: Global, bytes: &[u8]) -> Result<Job, JobFault>
    ensures read { IfOk result (λ j. job_of bytes.now ≡ Ok j) }
    ensures refused { IfErr result (λ e. e ≢ JobFault.NoMemory → job_of bytes.now ≡ Err e) }
{
    read(alloc, bytes)
}
