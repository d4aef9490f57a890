//! Data areas of plain integers.
#![tactic(auto)]

ghost use Rattle.std.specs.Prelude.{◌≡◌, ◌<◌, ◌≤◌, ◌↔◌, ◌++◌, ◌-◌, ◌*◌, All, replicate, IfOk, IsErrOf, OnErr, OnOk, drop, length};
ghost use Rattle.msr_base.specs.Storage.{size_of};
ghost use Rattle.msr_plain.specs.Plain.{CarriesPlain, FitsWidth, bytes_of_all, number_in, sample_bytes};

mod borrowed;
mod laws;

pub use borrowed::{PlainSamples, plain_samples};
use byteorder::{BigEndian, ByteOrder, LittleEndian};
pub use laws::{filled_area_carries, one_outcome};
use msr_base::Order;
pub use msr_base::{SampleVec, Width};
use std::alloc::{AllocError, Global};
use thiserror::Error;

/// Why the samples of an area were not given.
#[derive(Clone, Copy, Debug, PartialEq, Eq, Error)]
pub enum PlainFault {
    /// The area is too short for the given number of samples.
    #[error("the area is too short for its samples")]
    DataShort,
    /// There is no memory for the samples.
    #[error("out of memory")]
    Memory,
}

impl From<AllocError> for PlainFault {
    ghost use Rattle.msr_plain.specs.declared.PlainFault.TheVariants.{Memory};

    ghost from_gives = { λ _ fault. fault ≡ Memory };

    fn from(_: AllocError) -> PlainFault {
        PlainFault::Memory
    }
}

/// The number in the first bytes.
fn read_number(width: Width, order: Order, bytes: &[u8]) -> i32
    requires { size_of width ≤ length bytes.now }
    ensures { result ≡ number_in width order bytes.now }
{
    match (width, order) {
        (Width::Two, Order::Big) => i32::from(BigEndian::read_i16(bytes)),
        (Width::Two, Order::Little) => i32::from(LittleEndian::read_i16(bytes)),
        (Width::Three, Order::Big) => BigEndian::read_i24(bytes),
        (Width::Three, Order::Little) => LittleEndian::read_i24(bytes),
        (Width::Four, Order::Big) => BigEndian::read_i32(bytes),
        (Width::Four, Order::Little) => LittleEndian::read_i32(bytes),
    }
}

/// Reads a number for each place. Inlined with literals for width and order, LLVM reads several at once.
#[inline(always)]
fn read_numbers(width: Width, order: Order, area: &[u8], out: &mut [i32])
    requires { size_of width * length out.old ≤ length area.now }
    ensures { CarriesPlain width order area.now out.new }
{
    for place in 0..out.len() {
        out[place] = read_number(width, order, &area[width.bytes() * place..]);
    }
}

/// Fills `out` with the first samples that the area carries. Bytes after them are not looked at. Takes
/// no memory, and if the area is too short `out` is left as it was.
pub fn decode_plain_into(
    width: Width,
    order: Order,
    area: &[u8],
    out: &mut [i32],
) -> Result<(), PlainFault>
    ensures samples { OnOk result (CarriesPlain width order area.now out.new) }
    ensures short { IsErrOf result PlainFault.DataShort ↔ (length area.now < size_of width * length out.old) }
    ensures never_memory { IsErrOf result PlainFault.Memory → ⊥ }
    ensures unchanged { OnErr result (out.new ≡ out.old) }
{
    if area.len() < width.bytes() * out.len() {
        return Err(PlainFault::DataShort);
    }
    match (width, order) {
        (Width::Two, Order::Big) => read_numbers(Width::Two, Order::Big, area, out),
        (Width::Two, Order::Little) => read_numbers(Width::Two, Order::Little, area, out),
        (Width::Three, Order::Big) => read_numbers(Width::Three, Order::Big, area, out),
        (Width::Three, Order::Little) => read_numbers(Width::Three, Order::Little, area, out),
        (Width::Four, Order::Big) => read_numbers(Width::Four, Order::Big, area, out),
        (Width::Four, Order::Little) => read_numbers(Width::Four, Order::Little, area, out),
    }
    Ok(())
}

/// The first `count` samples that the area carries, by `decode_plain_into` in memory of their own.
pub fn decode_plain(
    alloc: Global,
    width: Width,
    order: Order,
    area: &[u8],
    count: u16,
) -> Result<SampleVec, PlainFault>
    ensures samples { IfOk result (λ samples. CarriesPlain width order area.now samples) }
    ensures count { IfOk result (λ samples. length samples ≡ count) }

    // Running out of memory comes only if the area is long enough.
    ensures short { IsErrOf result PlainFault.DataShort ↔ (length area.now < size_of width * count) }
{
    let count = usize::from(count);
    if area.len() < width.bytes() * count {
        return Err(PlainFault::DataShort);
    }
    let mut values = SampleVec::new(alloc).into_places(count)?;
    decode_plain_into(width, order, area, values.as_mut_slice())?;
    Ok(SampleVec::from_vec(values))
}

/// Writes a sample into the first bytes, big-endian.
fn write_number(width: Width, sample: i32, bytes: &mut [u8])
    requires fits { FitsWidth width sample }
    requires room { size_of width ≤ length bytes.old }
    ensures { bytes.new ≡ sample_bytes width sample ++ drop (size_of width) bytes.old }
{
    match width {
        Width::Two => BigEndian::write_i16(bytes, sample as i16),
        Width::Three => BigEndian::write_i24(bytes, sample),
        Width::Four => BigEndian::write_i32(bytes, sample),
    }
}

/// Fills the area with the samples, big-endian, and then with zeros. Inlined with a literal for the width, each number
/// is written without a test of it.
#[inline(always)]
fn fill_numbers(width: Width, samples: &[i32], area: &mut [u8])
    requires fit { All (FitsWidth width) samples.now }
    requires room { size_of width * length samples.now ≤ length area.old }
    ensures bytes { area.new ≡ bytes_of_all width samples.now
        ++ replicate (length area.old - size_of width * length samples.now) 0 }
    ensures carried { CarriesPlain width Order.Big area.new samples.now }
{
    let size = width.bytes();
    for (place, sample) in samples.iter().enumerate() {
        write_number(width, *sample, &mut area[size * place..]);
    }
    area[size * samples.len()..].fill(0);
}

/// Fills the area with the samples, big-endian, and then with zeros.
pub fn fill_plain(width: Width, samples: &[i32], area: &mut [u8])
    requires fit { All (FitsWidth width) samples.now }
    requires room { size_of width * length samples.now ≤ length area.old }
    ensures bytes { area.new ≡ bytes_of_all width samples.now
        ++ replicate (length area.old - size_of width * length samples.now) 0 }
    ensures carried { CarriesPlain width Order.Big area.new samples.now }
{
    match width {
        Width::Two => fill_numbers(Width::Two, samples, area),
        Width::Three => fill_numbers(Width::Three, samples, area),
        Width::Four => fill_numbers(Width::Four, samples, area),
    }
}
