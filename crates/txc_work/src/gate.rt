use crate::job::Job;

/// Calls that each worker makes around a job, on its thread. With them a caller can count the jobs, report the
/// running one, or delay one.
pub trait Gate {
    /// Called before the job's transaction begins.
    fn before(&self, job: &Job);

    /// Called after the job has its outcome.
    fn after(&self, job: &Job);
}
