//! What was told so far, counted, and the last line.
ghost use Rattle.std.specs.Prelude.{◌≡◌, ◌++◌, ◌∷◌, [], List, IfErr, IfOk, OnOk};
ghost use Rattle.std.specs.String.{string_bytes};
ghost use Rattle.msr_devices.specs.Device.{CanCountCall, IsCalm, Takes};
ghost use Rattle.msr_folders.specs.Visits.{StopsPrefix};
ghost use Rattle.msr_verify.specs.Entries.{IsVerifyTally, JudgedEntry};
ghost use Rattle.msr_verify.specs.Walk.{judged_json, judged_line, judged_end, known_json, known_told, others_json, others_told};

use crate::judgement::Judgement;
use msr_devices::{DeviceFault, Sink, write_all};
use msr_options::{Known, ListForm, Verifying};
use std::alloc::{AllocError, Global};

/// How many entries had each judgement, days in place with those that are verified, and how many were neither these nor
/// skipped or known.
#[derive(Clone, Copy, Default)]
pub(crate) struct VerifyTally {
    pub verified: u64,
    pub skipped: u64,
    pub refused: u64,
    pub known: u64,
    pub missing: u64,
    pub not_shown: u64,
    pub differ: u64,
    pub orphans: u64,
    pub unverified: u64,
}

impl VerifyTally {
    /// The tally before anything was told.
    pub(crate) fn new() -> VerifyTally
        ensures { IsVerifyTally [] result }
    {
        VerifyTally::default()
    }

    /// Counts one entry more.
    pub(crate) fn add(&mut self, judgement: Judgement)
        ensures { (before : List JudgedEntry) (entry : JudgedEntry) → IsVerifyTally before self.old
            → entry.judgement ≡ judgement → IsVerifyTally (before ++ entry ∷ []) self.new }
    {
        match judgement {
            Judgement::Verified | Judgement::InPlace => {
                self.verified = self.verified.saturating_add(1);
                return;
            }
            Judgement::Skipped(_) => {
                self.skipped = self.skipped.saturating_add(1);
                return;
            }
            Judgement::Known(_) | Judgement::KnownMissing => {
                self.known = self.known.saturating_add(1);
                return;
            }
            Judgement::Missing => self.missing = self.missing.saturating_add(1),
            Judgement::NotShown => self.not_shown = self.not_shown.saturating_add(1),
            Judgement::Differs => self.differ = self.differ.saturating_add(1),
            Judgement::Misplaced(_) | Judgement::Refused(_) => {
                self.refused = self.refused.saturating_add(1);
            }
            Judgement::Orphan => self.orphans = self.orphans.saturating_add(1),
        }
        self.unverified = self.unverified.saturating_add(1);
    }

    /// The counts at the end of the last line, which no other walk has.
    fn others(self, alloc: Global) -> Result<String, AllocError>
        ensures { IfOk result (λ text. string_bytes text ≡ others_told self) }
    {
        let (missing, unshown) = (self.missing, self.not_shown);
        let (differ, orphans) = (self.differ, self.orphans);
        format!(in alloc; " missing {missing} notshown {unshown} differs {differ} orphan {orphans}")
    }

    /// How many are known, if that is asked for.
    fn known_told(self, alloc: Global, told: bool) -> Result<String, AllocError>
        ensures { IfOk result (λ text. string_bytes text ≡ known_told told self) }
    {
        if !told {
            return Ok(String::new(alloc));
        }
        format!(in alloc; " known {}", self.known)
    }

    /// The member of JSON that tells it.
    fn known_json(self, alloc: Global, told: bool) -> Result<String, AllocError>
        ensures { IfOk result (λ text. string_bytes text ≡ known_json told self) }
    {
        if !told {
            return Ok(String::new(alloc));
        }
        format!(in alloc; ",\"known\":{}", self.known)
    }

    /// The last line in words.
    fn words(self, alloc: Global, known: Known<'_>) -> Result<String, AllocError>
        ensures { IfOk result (λ line. string_bytes line ≡ judged_line known.entry self) }
    {
        let (files, skipped, refused) = (self.verified, self.skipped, self.refused);
        let known = self.known_told(alloc, known.is_asked())?;
        let others = self.others(alloc)?;
        format!(in alloc; "files {files} skipped {skipped} refused {refused}{known}{others}\n")
    }

    /// The last members of the last line in JSON.
    fn others_json(self, alloc: Global, told: bool) -> Result<String, AllocError>
        ensures { IfOk result (λ text. string_bytes text ≡ others_json told self) }
    {
        let known = self.known_json(alloc, told)?;
        let (missing, unshown) = (self.missing, self.not_shown);
        let (differ, orphans) = (self.differ, self.orphans);
        format!(in alloc;
            "{known},\"missing\":{missing},\"notshown\":{unshown},\"differs\":{differ},\"orphan\":{orphans}"
        )
    }

    /// The last line in JSON.
    fn json(self, alloc: Global, known: Known<'_>) -> Result<String, AllocError>
        ensures { IfOk result (λ line. string_bytes line ≡ judged_json known.entry self) }
    {
        let (files, skipped, refused) = (self.verified, self.skipped, self.refused);
        let others = self.others_json(alloc, known.is_asked())?;
        format!(in alloc;
            "{{\"what\":\"files\",\"files\":{files},\"skipped\":{skipped},\"refused\":{refused}{others}}}\n"
        )
    }

    /// The last line.
    fn line(self, alloc: Global, asked: &Verifying<'_>) -> Result<String, AllocError>
        ensures { IfOk result (λ line. string_bytes line ≡ judged_end asked.now self) }
    {
        match asked.telling.form {
            ListForm::Words => self.words(alloc, asked.known),
            ListForm::Json => self.json(alloc, asked.known),
        }
    }

    /// Writes the last line.
    pub(crate) fn write<O: Sink>(
        self,
        alloc: Global,
        asked: &Verifying<'_>,
        out: &mut O,
    ) -> Result<(), DeviceFault>
        requires { CanCountCall (O.device out.old) }
        ensures all { OnOk result (Takes (O.device out.old) (O.device out.new) (judged_end asked.now self)) }
        ensures calm { OnOk result (IsCalm (O.device out.old) (O.device out.new)) }
        ensures stops { IfErr result (StopsPrefix (O.device out.old) (O.device out.new) (judged_end asked.now self)) }
    {
        let line = self.line(alloc, asked)?;
        write_all(out, line.as_bytes())?;
        Ok(())
    }
}
