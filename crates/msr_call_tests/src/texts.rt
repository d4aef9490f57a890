//! Texts of faults that no input shows.
use crate::facts::is_text;
use msr_devices::DeviceFault;
use msr_fixtures::expect;
use msr_header::HeaderFault;
use msr_input::{Fault, ReadFault};
use msr_plain::PlainFault;
use msr_rows::FaultKind;
use msr_steim::SteimFault;
use std::test::Fail;

#[test]
fn memory_is_its_own_fault(rt: HostRuntime) -> Result<(), Fail> {
    let (plain, steim, record) = (PlainFault::Memory, SteimFault::Memory, FaultKind::Memory);
    let read = ReadFault::from(DeviceFault::Memory);
    let text = format!(in rt.alloc(); "{plain}, {steim}, {record}, {read}");
    expect(
        is_text(
            text,
            "out of memory, out of memory, out of memory, out of memory",
        ),
        "out of memory",
    )
}

#[test]
fn faults_of_inputs(rt: HostRuntime) -> Result<(), Fail> {
    let kind = FaultKind::Header(HeaderFault::OtherBlockette(500));
    let fault = Fault { offset: 0, kind };
    let (input, read) = (
        ReadFault::Input(fault),
        ReadFault::from(DeviceFault::Failed),
    );
    let text = format!(in rt.alloc(); "{fault}, {input}, {read}");
    let expected = "offset 0: 5 OtherBlockette 500, offset 0: 5 OtherBlockette 500, read fault";
    expect(is_text(text, expected), "a fault")
}
