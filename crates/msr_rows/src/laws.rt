//! What holds of rows, records and refusals of any bytes.
ghost use Rattle.std.specs.Prelude.{◌≡◌, ◌≤◌, ◌^◌, ℕ, Bool, List, Ok, IsTrue, false, length, take};
ghost use Rattle.msr_time.specs.Instant.{IsInstant};
ghost use Rattle.msr_header.specs.declared.header.Header.{Header};
ghost use Rattle.msr_header.specs.Reading.{header_of, is_quality};
ghost use Rattle.msr_rows.specs.Correction.{is_pending};
ghost use Rattle.msr_rows.specs.Records.{IsRowOf, IsRecordOf, IsRefused, RowIsInTime, HasReverse, IsRefusedBeforeTime};
ghost use Rattle.msr_rows.specs.declared.row.Row.{Row};
ghost use Rattle.msr_rows.specs.declared.row.Record.{Record};
ghost use Rattle.msr_rows.specs.declared.fault.FaultKind.{FaultKind};

/// Bytes begin with a record of one row, or are refused with one fault, and never both.
pub fn one_answer()
    ensures row { (bytes : List ℕ) (row other : Row) → IsRowOf bytes row → IsRowOf bytes other → row ≡ other }
    ensures whole { (bytes : List ℕ) (found other : Record) → IsRecordOf bytes found → IsRecordOf bytes other
        → found ≡ other }
    ensures fault { (bytes : List ℕ) (fault other : FaultKind) → IsRefused bytes fault → IsRefused bytes other
        → fault ≡ other }
    ensures not_both { (bytes : List ℕ) (found : Record) (fault : FaultKind) → IsRecordOf bytes found
        → IsRefused bytes fault → ⊥ }
{}

/// Bytes say one thing of the reverse constant of the record that they begin with, be it in time or not: what the
/// record says, if it is read. They say nothing if another fault than that of its time refuses it.
pub fn one_reverse()
    ensures one { (bytes : List ℕ) (agrees other : Bool) → HasReverse bytes agrees → HasReverse bytes other
        → agrees ≡ other }
    ensures whole { (bytes : List ℕ) (found : Record) → IsRecordOf bytes found → HasReverse bytes found.reverse_agrees }
    ensures not_both { (bytes : List ℕ) (agrees : Bool) → HasReverse bytes agrees → IsRefusedBeforeTime bytes → ⊥ }
{}

/// A record's own bytes decide: if as many bytes as it has are the same, all that is read of it is
/// the same, whatever stands after them and also if nothing does.
pub fn own_bytes_decide()
    ensures found { (bytes others : List ℕ) (found : Record) → IsRecordOf bytes found
        → take found.length others ≡ take found.length bytes → IsRecordOf others found }
    ensures row { (bytes others : List ℕ) (row : Row) → (is_row : IsRowOf bytes row)
        → take (2 ^ is_row.header.exponent) others ≡ take (2 ^ is_row.header.exponent) bytes → IsRowOf others row }
    ensures refused { (bytes others : List ℕ) (header : Header) (fault : FaultKind) → header_of bytes ≡ Ok header
        → take (2 ^ header.exponent) others ≡ take (2 ^ header.exponent) bytes → IsRefused bytes fault
        → IsRefused others fault }
{}

/// A row that was read meets what `encode_record` asks of the key and of the number of samples, and
/// one whose time is in range what it asks of the start.
pub fn rows_are_writable()
    ensures row { (bytes : List ℕ) (row : Row) → IsRowOf bytes row
        → IsTrue (is_quality row.key.quality) × (is_pending row.key.activity row.key.correction ≡ false)
        × (1 ≤ length row.samples) }
    ensures start { (row : Row) → RowIsInTime row → IsInstant row.start }
{}
