//! What is told of a day whose files were to change places.
ghost use Rattle.std.specs.Prelude.{◌≡◌};
ghost use Rattle.msr_replace.specs.Answers.{replaced_of};
ghost use Rattle.msr_replace.specs.Restored.{refusal_of, restored_of};

use crate::answers::{DayAnswer, DayRefusal, DayRestored};
use msr_exchange::{Hindrance, Refusal, Told, Verified};

fn refusal_of(refusal: Refusal) -> DayRefusal
    ensures { result ≡ refusal_of refusal }
{
    match refusal {
        Refusal::Day(Hindrance::Dress) | Refusal::Records(Hindrance::Dress) => DayRefusal::Dress,
        Refusal::Day(Hindrance::Link | Hindrance::Taken) => DayRefusal::Link,
        Refusal::Aside(Hindrance::Link) => DayRefusal::AsideLink,
        Refusal::Aside(Hindrance::Taken) => DayRefusal::AsideTaken,
        Refusal::Aside(Hindrance::Dress) => DayRefusal::AsideDress,
        Refusal::Records(Hindrance::Link) => DayRefusal::RecordsLink,
        Refusal::Records(Hindrance::Taken) => DayRefusal::RecordsTaken,
    }
}

/// What is told of a day whose files were to change places.
pub(crate) fn replaced_of(told: Told, verified: &Verified) -> DayAnswer
    ensures { result ≡ replaced_of told verified.now }
{
    match told {
        Told::Done => DayAnswer::Replaced {
            before: verified.file.bytes,
            after: verified.records.bytes,
        },
        Told::Same => DayAnswer::Same,
        Told::Changed => DayAnswer::Changed,
        Told::Refused(refusal) => DayAnswer::Refused(refusal_of(refusal)),
    }
}

pub(crate) fn restored_of(told: Told) -> DayRestored
    ensures { result ≡ restored_of told }
{
    match told {
        Told::Done | Told::Same => DayRestored::Restored,
        Told::Changed => DayRestored::Changed,
        Told::Refused(refusal) => DayRestored::Refused(refusal_of(refusal)),
    }
}
