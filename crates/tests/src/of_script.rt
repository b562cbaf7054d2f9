//! Runs of scripts: what runs at the same time, viewers, failing writers, and want of memory.

mod beside;
mod faults;
mod gates;
mod large;
mod live;
mod runs;
mod values;
mod workers;
mod written;
