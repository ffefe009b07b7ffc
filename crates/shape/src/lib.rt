// What bytes mean: digits and capitals, six-digit codes, real dates and the day before, times, amounts in kopecks, identifiers, UETRs,
// IBANs, accounts and good message identifiers. Each is a definition in `specs/` and a function that is proved to be it.
// It knows nothing of sheets, messages or rooms. The rules stand in document 01, "Fields", under "Shapes".
#![tactic(auto)]

pub mod byte;
pub mod date;
pub mod field;
mod number;
pub mod pattern;
pub mod stored;
