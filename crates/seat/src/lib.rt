// One seat of a room: when it is fit, and the calls that need no message. Document 01, "Room, seats, directory" and "Calls and refusals".
// What its steps can be and do stands in `journal`; it knows nothing of sheets and checks. What settings are, and what an account opens with,
// stands in `specs/Settings.antt`, fitness in `specs/Fit.antt`, the calls in `specs/Calls.antt`.
#![tactic(auto)]

mod calls;
mod fit;
mod settings;

pub use calls::{
    Refusal, account_found, clear, close_seat, no_ticket, open_seat, read_account, set_account,
    take_back,
};
pub use fit::{room_fits, seat_fits};
pub use settings::{Wish, settings_of};
