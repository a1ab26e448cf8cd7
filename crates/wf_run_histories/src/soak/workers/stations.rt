//! Standard stations: the parameters of the stations that `soak` and `live` join.

ghost use Rattle.std.specs.Prelude.{◌≡◌};
ghost use Rattle.wf_run_histories.specs.Stations.{standard_join, standard_rate};

use wf_frame::{Ask, AskedRate};

/// Returns the join of a station: a window of 64 numbers from `start` on, the greatest exponent, and weight
/// 1.
pub fn standard_join(station: u16, start: u16) -> Ask
    ensures { result ≡ standard_join station start }
{
    Ask::Join {
        station,
        window: 64,
        start,
        exponent: 3,
        weight: 1,
    }
}

/// Returns the rate of a station: 20 MHz, the long guard interval, and the MCS that is its number modulo 8.
pub fn standard_rate(station: u16) -> Ask
    ensures { result ≡ standard_rate station }
{
    Ask::Rate {
        station,
        rate: AskedRate::Ht {
            mcs: (station % 8) as u8,
            mhz: 20,
            short: false,
        },
    }
}
