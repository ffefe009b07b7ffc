// An account's settings: what a set call gives, how it is stored, and what an account opens with. The rules stand in `specs/Settings.antt`.
ghost use Rattle.std.specs.Prelude.{◌≡◌};
ghost use Rattle.seat.specs.Settings.{limit_number, settings_of, opening_limit, opening_settings};

use journal::SUM_MOST;
use layout::rows::Settings;

// What a set call gives an account: all four settings at once.
#[derive(Clone, Copy)]
pub struct Wish {
    pub out: bool,
    pub into: bool,
    pub ltk: u64,
    // The LPO in kopecks, which may be 0, or none.
    pub lpo: Option<u64>,
}

// A limit as it is stored: 0 for none, n + 1 for n. One that is too high stays too high.
#[tactic(auto, unfolding(crate::specs::Settings::limit_number))]
fn limit_number(limit: Option<u64>) -> u64
    ensures { result ≡ limit_number limit }
{
    limit.map_or(0, |n| if n <= SUM_MOST { n + 1 } else { SUM_MOST + 2 })
}

// What a set call gives, as it is stored.
#[tactic(auto, unfolding(crate::specs::Settings::settings_of))]
pub fn settings_of(wish: Wish) -> Settings
    ensures { result ≡ settings_of wish }
{
    Settings {
        out: u64::from(wish.out),
        into: u64::from(wish.into),
        ltk: wish.ltk,
        lpo: limit_number(wish.lpo),
    }
}

// The LPO that an account opens with: its opening sum, or none where that is 0. An LPO of 0 would stop all that goes out.
#[tactic(auto, unfolding(crate::specs::Settings::opening_limit))]
fn opening_limit(sum: u64) -> Option<u64>
    ensures { result ≡ opening_limit sum }
{
    if sum == 0 { None } else { Some(sum) }
}

// The settings that an account opens with.
#[tactic(auto, unfolding(crate::specs::Settings::opening_settings))]
pub fn opening_settings(sum: u64) -> Settings
    ensures { result ≡ opening_settings sum }
{
    settings_of(Wish {
        out: false,
        into: false,
        ltk: 0,
        lpo: opening_limit(sum),
    })
}
