//! Who is told when a worker begins a job and when it is done.
use std::marker::Sync;

/// Is told when a worker begins a job and when it is done. Jobs are numbered from 0.
pub trait Gate: Sync {
    /// A worker is about to begin the job.
    fn enter(&self, job: u32);

    /// The worker is done with the job.
    fn leave(&self, job: u32);
}

/// A gate that does nothing.
#[derive(Drop)]
pub struct OpenGate;

impl Gate for OpenGate {
    fn enter(&self, _job: u32) {}

    fn leave(&self, _job: u32) {}
}
