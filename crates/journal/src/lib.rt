// The steps of a journal: what a step can be, what it does to the accounts, when it is possible, taking the last one back, the first step that
// leaves a trace, what has become of a step, and what an account's blocks and limits leave. Document 01, "Room, seats, directory" and "The checks",
// and request 9 of document 02.
// It knows nothing of when a seat is fit, nor of calls and messages. Steps stand in `specs/Steps.antt`, how they end in `specs/Results.antt`, which
// answers which in `specs/Answers.antt`, what they do in `specs/Working.antt`, traces in `specs/Traces.antt`, blocks and limits in
// `specs/Limits.antt`, and that sums fit their types in `specs/Low.antt`.
#![tactic(auto)]

mod answers;
mod limits;
mod results;
mod steps;
mod traces;
mod working;

pub use answers::result_now;
pub use limits::{available_below, blocked_into, blocked_out, turnover_above, turnover_shut};
pub use results::Outcome;
pub use steps::{SET, SUM_MOST, no_identifier, no_settings, no_step, settings_fit, step_fits};
pub use traces::{Placed, Trace, earliest, is_known, is_there};
pub use working::{append, drop_last, is_possible};
