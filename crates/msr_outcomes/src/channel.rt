//! The name of a day's channel.
ghost use Rattle.std.specs.Prelude.{◌≡◌, IfOk};
ghost use Rattle.std.specs.String.{string_bytes};
ghost use Rattle.msr_outcomes.specs.Entries.{channel_of};

use msr_sds::SdsName;
use std::alloc::{AllocError, Global};

/// NET.STA.LOC.CHAN
pub fn channel_text(alloc: Global, name: &SdsName<'_>) -> Result<String, AllocError>
    ensures { IfOk result (λ text. string_bytes text ≡ channel_of name.now) }
{
    let network = name.network();
    let station = name.station();
    let location = name.location();
    let channel = name.channel();
    format!(in alloc; "{network}.{station}.{location}.{channel}")
}
