//! The limits of reports.

use crew::MAX_SEATS;

/// The most workers of a report, each of which has a seat. The fewest is one.
pub const MAX_WORKERS: u64 = MAX_SEATS;

/// The most reports that are under way at a time.
pub const MAX_REPORTS: usize = 8;
