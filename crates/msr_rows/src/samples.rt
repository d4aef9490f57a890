//! The samples of a data area, one after the other, read from its bytes.
ghost use Rattle.std.specs.Prelude.{◌≡◌, ◌≤◌, ◌↔◌, ℤ, [], length, IfOk, IfErr, IsTrue};
ghost use Rattle.std.specs.Iterator.{item_count};
ghost use Rattle.msr_steim.specs.InOrder.{GivesFirst};
ghost use Rattle.msr_steim.specs.Area.{CarriesSteim, ReverseAgrees as FramesAgree};
ghost use Rattle.msr_rows.specs.Area.{Carries, AreaHasFault, ReverseAgreesIfAny};

use crate::fault::FaultKind;
use msr_base::{Order, Storage, Version};
use msr_plain::{PlainSamples, plain_samples};
use msr_steim::{SteimFault, SteimSamples, steim_samples};
use std::marker::Model;

/// The samples that are left, by how they are stored.
#[derive(Clone, Drop)]
enum Numbers<'a> {
    Plain(PlainSamples<'a>),
    Steim(SteimSamples<'a>),
    Empty,
}

/// The samples of a record, read from its bytes one by one. Contracts see those that are left, and whether
/// the last of all is the reverse constant. A clone takes no memory.
#[derive(Clone, Drop)]
pub struct Samples<'a> {
    numbers: Numbers<'a>,
}

impl<'a> Model for Samples<'a> {
    ghost use Rattle.msr_steim.specs.InOrder.{SamplesLeft};

    ghost Value = { SamplesLeft };

    ghost use Rattle.msr_rows.specs.NumbersLeft.{left_of};

    ghost view = { λ samples. left_of samples.numbers };
}

impl<'a> Samples<'a> {
    /// The samples of a record that has none.
    pub(crate) fn none() -> Samples<'a>
        ensures samples { result.samples ≡ [] }
        ensures agrees { IsTrue result.agrees }
    {
        Samples {
            numbers: Numbers::Empty,
        }
    }

    /// Whether the last sample is the reverse constant; true for integers, which have none.
    pub(crate) fn reverse_agrees(&self) -> bool
        ensures { result ≡ self.now.agrees }
    {
        match &self.numbers {
            Numbers::Steim(samples) => samples.reverse_agrees(),
            _ => true,
        }
    }
}

impl<'a> Iterator for Samples<'a> {
    type Item = i32;

    ghost next_gives = { GivesFirst };

    ghost remaining = { item_count {A = ℤ} (λ left. left.samples) };

    fn next(&mut self) -> Option<i32> {
        match &mut self.numbers {
            Numbers::Plain(samples) => samples.next(),
            Numbers::Steim(samples) => samples.next(),
            Numbers::Empty => None,
        }
    }
}

/// The samples of an area of Steim frames. Where it is inlined, LLVM no longer has a loop over integers for each width.
#[inline(never)]
fn view_frames<'a>(
    version: Version,
    order: Order,
    area: &'a [u8],
    count: u16,
) -> Result<Samples<'a>, FaultKind>
    requires some { 1 ≤ count }
    requires small { length area.now ≤ 1048576 }
    ensures samples { IfOk result (λ s. CarriesSteim version order area.now s.samples) }
    ensures count { IfOk result (λ s. length s.samples ≡ count) }
    ensures reverse { IfOk result (λ s. IsTrue s.agrees ↔ FramesAgree order area.now s.samples) }
    ensures fault { IfErr result (AreaHasFault (Storage.Frames version) order area.now count) }
{
    match steim_samples(version, order, area, count) {
        Ok(samples) => Ok(Samples {
            numbers: Numbers::Steim(samples),
        }),
        Err(SteimFault::DataShort) => Err(FaultKind::DataShort),
        Err(SteimFault::BadCode(word)) => Err(FaultKind::BadCode(word)),
        Err(SteimFault::Memory) => Err(FaultKind::Memory),
    }
}

/// The samples of an area that stores them so.
pub(crate) fn view_area<'a>(
    storage: Storage,
    order: Order,
    area: &'a [u8],
    count: u16,
) -> Result<Samples<'a>, FaultKind>
    requires some { 1 ≤ count }
    requires small { length area.now ≤ 1048576 }
    ensures samples { IfOk result (λ s. Carries storage order area.now s.samples) }
    ensures count { IfOk result (λ s. length s.samples ≡ count) }
    ensures reverse { IfOk result (λ s. IsTrue s.agrees ↔ ReverseAgreesIfAny storage order area.now s.samples) }
    ensures fault { IfErr result (AreaHasFault storage order area.now count) }
{
    match storage {
        Storage::Integers(width) => match plain_samples(width, order, area, count) {
            Some(samples) => Ok(Samples {
                numbers: Numbers::Plain(samples),
            }),
            None => Err(FaultKind::DataShort),
        },
        Storage::Frames(version) => view_frames(version, order, area, count),
    }
}
