//! The lengths of written records.

ghost use Rattle.std.specs.Prelude.{◌≡◌, ◌<◌, ◌≤◌, ◌^◌, ◌↔◌, IsSome, IfSome};
ghost use Rattle.msr_base.specs.RecordLength.{IsRecordLength, least_exponent, most_exponent};

/// The length of a written record: a power of two from 256 to 65536 bytes.
#[derive(Clone, Copy, Debug, PartialEq, Eq)]
pub struct Length {
    bytes: u32,
    exponent: u8,
    ghost least: { 2 ^ least_exponent ≤ bytes },
    ghost most: { bytes ≤ 2 ^ most_exponent },
    ghost power: { bytes ≡ 2 ^ exponent },
    ghost from: { least_exponent ≤ exponent },
    ghost to: { exponent ≤ most_exponent },
}

impl Length {
    ghost use Rattle.msr_base.specs.Lengths.{bytes_of};
    ghost use Rattle.msr_base.specs.RecordLength.{frames_of, words_of};

    /// The length of that many bytes, if records have it.
    pub fn new(bytes: u32) -> Option<Length>
        ensures some { IsSome result ↔ IsRecordLength bytes }
        ensures same { IfSome result (λ l. bytes_of l ≡ bytes) }
    {
        let exponent = match bytes {
            256 => 8,
            512 => 9,
            1024 => 10,
            2048 => 11,
            4096 => 12,
            8192 => 13,
            16384 => 14,
            32768 => 15,
            65536 => 16,
            _ => return None,
        };
        Some(Length { bytes, exponent })
    }

    /// How many bytes the record has.
    pub fn bytes(self) -> u32
        ensures same { result ≡ bytes_of self }
        ensures is_length { IsRecordLength (bytes_of self) }
    {
        self.bytes
    }

    /// The number of bytes as a power of two, as blockette 1000 has it.
    pub fn exponent(self) -> u8
        ensures { bytes_of self ≡ 2 ^ result }
    {
        self.exponent
    }

    /// How many frames of 64 bytes stand after the header.
    pub fn frames(self) -> u32
        ensures { result ≡ frames_of (bytes_of self) }
    {
        self.bytes / 64 - 1
    }

    /// How many words of the record hold differences, if it is one of Steim-1 or Steim-2.
    pub fn data_words(self) -> u32
        ensures same { result ≡ words_of (bytes_of self) }
        ensures some { 43 ≤ result }
        ensures bound { result < 2 ^ 31 }
    {
        15 * self.frames() - 2
    }
}
