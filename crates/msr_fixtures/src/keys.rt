//! The key of the one header.
ghost use Rattle.std.specs.Prelude.{◌≡◌, IsTrue, false};
ghost use Rattle.msr_header.specs.Reading.{is_quality};
ghost use Rattle.msr_rows.specs.Correction.{is_pending};

use msr_rows::Key;
use msr_time::Rate;

/// The key of a row of the header, but with that rate.
pub fn key_at(rate: Rate) -> Key
    ensures quality { IsTrue (is_quality result.quality) }
    ensures normal { is_pending result.activity result.correction ≡ false }
{
    Key {
        network: *b"XX",
        station: *b"TEST ",
        location: *b"00",
        channel: *b"BHZ",
        quality: b'D',
        rate,
        activity: 0,
        clock: 0,
        data_quality: 0,
        correction: 0,
        timing: 0,
    }
}
