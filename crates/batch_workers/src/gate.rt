//! A gate that workers pass, at which tests can hold them.

/// Where a worker stands with a job.
#[derive(Clone, Copy, Debug, PartialEq, Eq)]
pub enum Point {
    /// It drew the job, and opens nothing yet.
    Taken,
    /// It opened the job's pair, and converts nothing yet.
    Opened,
    /// It did the job's work.
    Ended,
}

/// What a worker passes with a job, by its number from 1. It promises nothing but that it returns.
pub trait Gate {
    fn pass(&self, job: u32, point: Point);
}

/// A gate that holds nobody.
#[derive(Clone, Copy, Debug, Drop)]
pub struct OpenGate;

impl Gate for OpenGate {
    fn pass(&self, _job: u32, _point: Point) {}
}
