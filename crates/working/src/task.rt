// A task: what it holds, and what it has still to do.
use crate::record::Record;
use crate::work::Work;

#[derive(Drop)]
pub struct Task<'c> {
    pub own: Record,
    pub work: Work<'c>,
}
