//! Why an entry is no day, and why a call of the system failed, as lines tell it.
ghost use Rattle.std.specs.Prelude.{◌≡◌, IfOk};
ghost use Rattle.std.specs.String.{string_bytes};
ghost use Rattle.msr_folders.specs.Members.{IsReasonMember, IsReasonOf, skip_text};

use crate::paths::JsonText;
use msr_sds::SdsFault;
use std::alloc::{AllocError, Global};
use std::io;

/// Why an entry is skipped.
pub fn skip_text<'a>(fault: SdsFault) -> &'a str
    ensures { result.now ≡ skip_text fault }
{
    match fault {
        SdsFault::NotSds => "not an SDS path",
        SdsFault::NotWaveform => "not waveform data",
        SdsFault::BadDay => "bad day",
    }
}

/// The member of JSON that tells why a call of the system failed.
fn member_of(alloc: Global, reason: io::Error) -> Result<String, AllocError>
    ensures { IfOk result (λ text. IsReasonMember (string_bytes text)) }
{
    let text = reason.to_string(alloc)?;
    let text = JsonText {
        text: text.as_str(),
    };
    format!(in alloc; ",\"reason\":\"{text}\"")
}

/// The member of JSON that tells why a call of the system failed, with a comma before it; nothing if it gave no reason.
pub fn reason_json(alloc: Global, reason: Option<io::Error>) -> Result<String, AllocError>
    ensures { IfOk result (λ text. IsReasonOf reason (string_bytes text)) }
{
    match reason {
        Some(reason) => member_of(alloc, reason),
        None => Ok(String::new(alloc)),
    }
}
