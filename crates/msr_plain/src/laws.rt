//! What holds of every area of plain integers.

ghost use Rattle.std.specs.Prelude.{◌≡◌, ◌<◌, ◌*◌, ◌++◌, ℕ, ℤ, All, List, length};
ghost use Rattle.msr_base.specs.declared.order.Order.{Order};
ghost use Rattle.msr_base.specs.declared.storage.Width.{Width};
ghost use Rattle.msr_base.specs.Storage.{size_of};
ghost use Rattle.msr_plain.specs.Plain.{CarriesPlain, FitsWidth, bytes_of_all};

use msr_base::Order;

/// The bytes of some samples carry these samples, whatever bytes follow.
pub fn filled_area_carries()
    ensures { (width : Width) (samples : List ℤ) (rest : List ℕ)
        → All (FitsWidth width) samples
        → CarriesPlain width Order.Big (bytes_of_all width samples ++ rest) samples }
{}

/// An area carries at most one list of samples of each length, and none for which it is too short.
pub fn one_outcome()
    ensures samples { (width : Width) (order : Order) (area : List ℕ) (xs ys : List ℤ)
        → CarriesPlain width order area xs → CarriesPlain width order area ys → length xs ≡ length ys
        → xs ≡ ys }
    ensures not_short { (width : Width) (order : Order) (area : List ℕ) (samples : List ℤ)
        → CarriesPlain width order area samples → length area < size_of width * length samples
        → ⊥ }
{}
