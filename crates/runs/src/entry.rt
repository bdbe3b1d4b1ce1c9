// A task's entry in an object's queue.
use working::Declared;

#[derive(Clone, Copy, Debug, PartialEq, Eq)]
pub struct Entry {
    pub number: u8,
    pub declared: Declared,
}
