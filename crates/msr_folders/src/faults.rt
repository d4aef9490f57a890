//! How lines tell a fault of a file.
ghost use Rattle.std.specs.Prelude.{◌≡◌, IfOk};
ghost use Rattle.std.specs.String.{string_bytes};
ghost use Rattle.msr_folders.specs.Faults.{fault_json, fault_name, fault_number, fault_value, numbered_text, read_fault_text, value_json, value_text};

use msr_header::HeaderFault;
use msr_input::{Fault, ReadFault};
use msr_rows::FaultKind;
use std::alloc::{AllocError, Global};
use std::fmt;

/// The number of a refusal and its name; want of memory is none, and has 0.
fn fault_row<'a>(kind: FaultKind) -> (u8, &'a str)
    ensures { (result.0 ≡ fault_number kind) × (result.1.now ≡ fault_name kind) }
{
    match kind {
        FaultKind::Header(HeaderFault::Truncated) => (1, "Truncated"),
        FaultKind::Header(HeaderFault::NotARecord) => (2, "NotARecord"),
        FaultKind::Header(HeaderFault::BadTime) => (3, "BadTime"),
        FaultKind::Header(HeaderFault::BadChain) => (4, "BadChain"),
        FaultKind::Header(HeaderFault::OtherBlockette(_)) => (5, "OtherBlockette"),
        FaultKind::Header(HeaderFault::TwiceBlockette(_)) => (6, "TwiceBlockette"),
        FaultKind::Header(HeaderFault::NoBlockette1000) => (7, "NoBlockette1000"),
        FaultKind::Header(HeaderFault::BadExponent) => (8, "BadExponent"),
        FaultKind::Header(HeaderFault::BadOrder) => (9, "BadOrder"),
        FaultKind::Header(HeaderFault::RecordCut) => (10, "RecordCut"),
        FaultKind::Header(HeaderFault::ChainPastRecord) => (11, "ChainPastRecord"),
        FaultKind::DataShort => (12, "DataShort"),
        FaultKind::BadCode(_) => (13, "BadCode"),
        FaultKind::NoRate => (14, "NoRate"),
        FaultKind::OtherEncoding(_) => (15, "OtherEncoding"),
        FaultKind::BadDataOffset => (16, "BadDataOffset"),
        FaultKind::TimeRange => (17, "TimeRange"),
        FaultKind::ReverseMismatch => (18, "ReverseMismatch"),
        FaultKind::Memory => (0, "Memory"),
    }
}

fn fault_value(kind: FaultKind) -> Option<u32>
    ensures { result ≡ fault_value kind }
{
    match kind {
        FaultKind::Header(HeaderFault::OtherBlockette(blockette)) => Some(blockette as u32),
        FaultKind::Header(HeaderFault::TwiceBlockette(blockette)) => Some(blockette as u32),
        FaultKind::BadCode(word) => Some(word),
        FaultKind::OtherEncoding(encoding) => Some(encoding as u32),
        _ => None,
    }
}

/// A refusal of a record: its number, its name and its value.
#[derive(Clone, Copy)]
struct ToldKind {
    kind: FaultKind,
}

impl fmt::Display for ToldKind {
    ghost use Rattle.std.specs.Prelude.{Some};
    ghost use Rattle.msr_folders.specs.Faults.{numbered_text};

    ghost output = { λ told. Some (numbered_text told.kind) };

    fn fmt<W: fmt::Write>(&self, f: &mut fmt::Formatter<W>) -> fmt::Result {
        let (number, name) = fault_row(self.kind);
        match fault_value(self.kind) {
            Some(value) => write!(f, "{number} {name} {value}"),
            None => write!(f, "{number} {name}"),
        }
    }
}

/// A fault of a file, in words.
#[derive(Clone, Copy)]
pub struct ToldFault {
    pub fault: ReadFault,
}

impl fmt::Display for ToldFault {
    ghost use Rattle.std.specs.Prelude.{Some};
    ghost use Rattle.msr_folders.specs.Faults.{read_fault_text};

    ghost output = { λ told. Some (read_fault_text told.fault) };

    fn fmt<W: fmt::Write>(&self, f: &mut fmt::Formatter<W>) -> fmt::Result {
        match self.fault {
            ReadFault::Input(fault) => {
                let (offset, told) = (fault.offset, ToldKind { kind: fault.kind });
                write!(f, "offset {offset}: {told}")
            }
            ReadFault::Read => f.write_str("read fault"),
            ReadFault::Memory => f.write_str("out of memory"),
        }
    }
}

fn value_json(alloc: Global, value: Option<u32>) -> Result<String, AllocError>
    ensures { IfOk result (λ text. string_bytes text ≡ value_json value) }
{
    match value {
        Some(value) => format!(in alloc; ",\"value\":{value}"),
        None => Ok(String::new(alloc)),
    }
}

/// The members of JSON that tell a refusal of a record, each with a comma before it.
pub fn fault_json(alloc: Global, fault: Fault) -> Result<String, AllocError>
    ensures { IfOk result (λ text. string_bytes text ≡ fault_json fault) }
{
    let offset = fault.offset;
    let (number, name) = fault_row(fault.kind);
    let value = value_json(alloc, fault_value(fault.kind))?;
    format!(in alloc; ",\"offset\":{offset},\"number\":{number},\"name\":\"{name}\"{value}")
}
