//! Scripts: the runner, which goes from line to line over one table, what a script writes, and the laws of that. A
//! program that runs scripts calls [`run`], with viewers beside the lines [`live`], and where it ends after its run [`run_in`],
//! in a manner and by a hash of its choice. One that answers lines as they come holds a [`Session`].
#![tactic(auto)]

mod answer;
mod block;
mod change;
mod classic_spelling;
mod closing;
mod coming;
mod command;
mod csv_spelling;
mod ended;
mod fault;
mod finish;
mod gallery;
mod hash_choice;
mod heard;
mod here;
mod how;
mod joining;
mod json_spelling;
mod laws;
mod limits;
mod lines;
mod listing;
mod load_line;
mod manner;
mod on_refusal;
mod own;
mod owned;
mod parameters;
mod reporting;
mod retelling;
mod running;
mod session;
mod setup;
mod spelling;
mod stage;
mod standing;
mod statement;
mod step;
mod telling;
mod told;
mod too_much;
mod undone;
mod unstarted;
mod value_lines;
mod viewing;
mod walk;

pub use answer::Answer;
pub use ended::Ended;
pub use fault::Fault;
pub use finish::Finish;
pub use hash_choice::HashChoice;
pub use heard::Heard;
pub use here::output_here;
pub use how::How;
pub use joining::join_told;
pub use laws::{
    a_session_writes_the_output_of_its_lines, each_line_by_itself, each_script_has_one_output,
    hash_decides_shapes_alone, live_writes_the_output_first,
    strict_stops_at_the_first_refused_line, worked_scripts,
};
pub use limits::{
    DEPTH, Limits, MAX_PARTS, MAX_SCRIPT_BYTES, ROWS, SHOTS, SMALL, VIEWERS, WORKERS,
};
pub use manner::Manner;
pub use on_refusal::OnRefusal;
pub use own::{OwnUntold, tell_own_here};
pub use retelling::output_of_told;
pub use running::{live, run, run_in};
pub use session::Session;
pub use setup::Setup;
pub use telling::{Untold, tell_here};
pub use told::Told;
pub use undone::Undone;
pub use value_lines::{delete_line, put_line};
pub use viewing::{Showing, Viewing};
