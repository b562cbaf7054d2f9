//! Answers by workers, what they gather, the text of a report, and writers: short writes and faults.

mod answers;
mod gathered;
mod writers;
