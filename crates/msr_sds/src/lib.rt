//! The paths of day files in an archive that is kept as a SeisComP Data Structure (SDS), relative
//! to the archive's folder: `YEAR/NET/STA/CHAN.TYPE/NET.STA.LOC.CHAN.TYPE.YEAR.DAY`.
#![tactic(auto)]

mod folders;
mod parts;

ghost use Rattle.std.specs.Prelude.{◌≡◌, ◌↔◌, IfOk};
ghost use Rattle.std.specs.Str.Parse.{digits_value};
ghost use Rattle.std.specs.String.{string_bytes};
ghost use Rattle.msr_sds.specs.SdsPath.{SdsPath, HasForm, ReadsAs, ReadsAsDay, IsWaveform, HasDate, OneReading, path_of};

pub use folders::{FOLDERS, levels_below};
use parts::{Parts, number};
use std::alloc::{AllocError, Global};
use std::marker::Model;
use thiserror::Error;

/// Why a text is not the path of a day of waveform data: the first of these that applies, in this order.
#[derive(Clone, Copy, Debug, PartialEq, Eq, Error)]
pub enum SdsFault {
    /// The text has not the form of a path, or a part that stands in it twice differs.
    #[error("not an SDS path")]
    NotSds,
    /// The type of the data is not D, as that of logs or of opaque data.
    #[error("not waveform data")]
    NotWaveform,
    /// The year is not from 1900 to 2100, or has no such day.
    #[error("bad day")]
    BadDay,
}

/// The path of a day of waveform data.
#[derive(Drop)]
pub struct SdsName<'a> {
    path: &'a str,
    parts: Parts<'a>,
}

impl<'a> Model for SdsName<'a> {
    ghost use Rattle.std.specs.Prelude.{◌≡◌};
    ghost use Rattle.msr_sds.specs.Parts.{parts_of};
    ghost use Rattle.msr_sds.specs.SdsPath.{SdsPath, path_of};

    ghost Value = { SdsPath };

    ghost view = { λ name. parts_of name.parts };

    ghost invariant = { λ name. name.path.now ≡ path_of (parts_of name.parts) };
}

impl<'a> SdsName<'a> {
    /// Reads a path.
    pub fn parse(text: &'a str) -> Result<SdsName<'a>, SdsFault>
        ensures found { IfOk result (λ name. ReadsAsDay text.now name) }
        ensures only { (path : SdsPath) → ReadsAsDay text.now path → result ≡ Ok path }

        ensures not_sds { (result ≡ Err SdsFault.NotSds)
            ↔ ((path : SdsPath) → ¬ (ReadsAs text.now path)) }
        ensures not_waveform { (result ≡ Err SdsFault.NotWaveform)
            ↔ ((path : SdsPath) × ReadsAs text.now path × ¬ (IsWaveform path)) }
        ensures bad_day { (result ≡ Err SdsFault.BadDay)
            ↔ ((path : SdsPath) × ReadsAs text.now path × IsWaveform path × ¬ (HasDate path)) }
    {
        let Some(parts) = Parts::read(text) else {
            return Err(SdsFault::NotSds);
        };
        if parts.data_type != "D" {
            return Err(SdsFault::NotWaveform);
        }
        if !parts.have_date() {
            return Err(SdsFault::BadDay);
        }
        Ok(SdsName { path: text, parts })
    }

    /// The code of the network.
    pub fn network(&self) -> &'a str
        ensures { result.now ≡ self.now.network }
    {
        self.parts.network
    }

    /// The code of the station.
    pub fn station(&self) -> &'a str
        ensures { result.now ≡ self.now.station }
    {
        self.parts.station
    }

    /// The code of the location, which may be empty.
    pub fn location(&self) -> &'a str
        ensures { result.now ≡ self.now.location }
    {
        self.parts.location
    }

    /// The code of the channel.
    pub fn channel(&self) -> &'a str
        ensures { result.now ≡ self.now.channel }
    {
        self.parts.channel
    }

    /// The year.
    pub fn year(&self) -> u16
        requires { HasForm self.now }
        ensures { result ≡ digits_value 10 self.now.year }
    {
        number(self.parts.year)
    }

    /// The day of the year.
    pub fn day(&self) -> u16
        requires { HasForm self.now }
        ensures { result ≡ digits_value 10 self.now.day }
    {
        number(self.parts.day)
    }

    /// The path that was read.
    pub fn path_text(&self, alloc: Global) -> Result<String, AllocError>
        ensures { IfOk result (λ text. string_bytes text ≡ path_of self.now) }
    {
        String::from_str(alloc, self.path)
    }
}

/// A text reads as one path at most.
pub fn one_reading()
    ensures { OneReading }
{}
