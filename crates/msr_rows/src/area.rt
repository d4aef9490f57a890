//! The samples of a data area.
ghost use Rattle.std.specs.Prelude.{◌≡◌, ◌≢◌, ◌≤◌, ◌-◌, ◌↔◌, true, length, IfOk, IfErr, IsTrue};
ghost use Rattle.msr_rows.specs.Area.{Carries, AreaHasFault, ReverseAgreesIfAny};

use crate::fault::FaultKind;
use msr_base::{Order, SampleVec, Storage};
use msr_plain::{PlainFault, decode_plain_into};
use msr_steim::{Decoded, SteimFault, decode_steim_into};

/// The samples of an area that stores them so, in the memory of `spare`. It stands apart, so that its loops over words
/// have registers of their own.
#[inline(never)]
pub(crate) fn decode_area(
    spare: SampleVec,
    storage: Storage,
    order: Order,
    area: &[u8],
    count: u16,
) -> Result<Decoded, FaultKind>
    requires some { 1 ≤ count }
    requires small { length area.now ≤ 1048576 }
    ensures samples { IfOk result (λ d. Carries storage order area.now d.samples) }
    ensures count { IfOk result (λ d. length d.samples ≡ count) }
    ensures reverse { IfOk result (λ d. IsTrue d.reverse_agrees ↔ ReverseAgreesIfAny storage order area.now d.samples) }
    ensures fault { IfErr result (λ f. f ≢ FaultKind.Memory → AreaHasFault storage order area.now count f) }
{
    let Ok(mut values) = spare.into_places(usize::from(count)) else {
        return Err(FaultKind::Memory);
    };
    let out = values.as_mut_slice();
    match storage {
        Storage::Integers(width) => match decode_plain_into(width, order, area, out) {
            Ok(()) => Ok(Decoded {
                samples: SampleVec::from_vec(values),
                reverse_agrees: true,
            }),
            Err(PlainFault::DataShort) => Err(FaultKind::DataShort),
            Err(PlainFault::Memory) => Err(FaultKind::Memory),
        },
        Storage::Frames(version) => match decode_steim_into(version, order, area, out) {
            Ok(reverse_agrees) => Ok(Decoded {
                samples: SampleVec::from_vec(values),
                reverse_agrees,
            }),
            Err(SteimFault::DataShort) => Err(FaultKind::DataShort),
            Err(SteimFault::BadCode(word)) => Err(FaultKind::BadCode(word)),
            Err(SteimFault::Memory) => Err(FaultKind::Memory),
        },
    }
}
