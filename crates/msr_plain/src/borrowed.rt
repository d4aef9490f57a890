//! The samples of an area of plain integers, one after the other, without memory.

ghost use Rattle.std.specs.Prelude.{◌≡◌, ◌<◌, ◌*◌, ◌↔◌, ℤ, List, IfSome, IsNone, length};
ghost use Rattle.std.specs.Iterator.{YieldsFirst, item_count};
ghost use Rattle.msr_base.specs.Storage.{size_of};
ghost use Rattle.msr_plain.specs.Plain.{CarriesPlain};

use crate::{Width, read_number};
use msr_base::Order;
use std::alloc::AllocError;
use std::marker::Model;

/// The samples of an area, read from its bytes one by one. Contracts see the list of those that are left.
/// A clone takes no memory.
#[derive(Drop)]
pub struct PlainSamples<'a> {
    width: Width,
    order: Order,
    bytes: &'a [u8],
    left: u16,
}

impl<'a> Model for PlainSamples<'a> {
    ghost use Rattle.std.specs.Prelude.{◌≤◌, ◌*◌, List, ℤ, length};
    ghost use Rattle.msr_base.specs.Storage.{size_of};
    ghost use Rattle.msr_plain.specs.Plain.{numbers_in_area};

    ghost Value = { List ℤ };

    ghost view = { λ samples. numbers_in_area samples.width samples.order samples.bytes.now samples.left };

    ghost invariant = { λ samples. size_of samples.width * samples.left ≤ length samples.bytes.now };
}

impl<'a> Clone for PlainSamples<'a> {
    ghost use Rattle.std.specs.Prelude.{◌≡◌, ⊤};

    ghost is_clone = { λ samples copy. copy ≡ samples };

    ghost is_infallible = { λ _. ⊤ };

    fn clone(&self) -> Result<PlainSamples<'a>, AllocError> {
        Ok(PlainSamples { ..*self })
    }
}

impl<'a> Iterator for PlainSamples<'a> {
    type Item = i32;

    ghost next_gives = { YieldsFirst {A = ℤ} (λ left. left) };

    ghost remaining = { item_count {A = ℤ} (λ left. left) };

    fn next(&mut self) -> Option<i32> {
        if self.left == 0 {
            return None;
        }
        let sample = read_number(self.width, self.order, self.bytes);
        self.bytes = &self.bytes[self.width.bytes()..];
        self.left -= 1;
        Some(sample)
    }
}

/// Gives the first `count` samples that the area carries, as `decode_plain` gives them, or `None`
/// if the area is too short for them. Bytes after them are not looked at. It takes no memory.
pub fn plain_samples<'a>(
    width: Width,
    order: Order,
    area: &'a [u8],
    count: u16,
) -> Option<PlainSamples<'a>>
    ensures samples { IfSome result (CarriesPlain width order area.now) }
    ensures count { IfSome result (λ samples. length samples ≡ count) }
    ensures short { IsNone result ↔ (length area.now < size_of width * count) }
{
    if area.len() < width.bytes() * usize::from(count) {
        return None;
    }
    Some(PlainSamples {
        width,
        order,
        bytes: area,
        left: count,
    })
}
