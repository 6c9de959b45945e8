use std::process::Abort;
use std::test::Fail;
use text::hex;
use text::hex::{Hex, HexFault};

fn meant(rt: &(impl Abort + AllocGlobal), text: &str, bytes: &[u8]) -> Result<(), Fail> {
    let v = hex::bytes(rt.alloc(), text.as_bytes())?;
    assert!(rt; v.as_slice() == bytes);
    Ok(())
}

#[test]
fn bytes_of_a_text(rt: HostRuntime) -> Result<(), Fail> {
    meant(&rt, "", &[])?;
    meant(&rt, " \t\r\n", &[])?;
    meant(&rt, "4D5404", &[77, 84, 4])?;
    meant(&rt, "4d 54\n0 4\n", &[77, 84, 4])?;
    meant(&rt, "00 09 0a 0F a0 fF", &[0, 9, 10, 15, 160, 255])
}

fn fault(rt: &(impl Abort + AllocGlobal), text: &str, fault: HexFault) -> Result<(), Fail> {
    assert_eq!(rt; hex::bytes(rt.alloc(), text.as_bytes()).err(), Some(fault));
    Ok(())
}

#[test]
fn faults_of_a_text(rt: HostRuntime) -> Result<(), Fail> {
    fault(&rt, "4", HexFault::Odd)?;
    fault(&rt, "4D 5\n", HexFault::Odd)?;
    fault(&rt, "4D 5G", HexFault::NotDigit(4))?;
    fault(&rt, "x4D", HexFault::NotDigit(0))?;
    fault(&rt, "4:", HexFault::NotDigit(1))?;
    fault(&rt, "/0", HexFault::NotDigit(0))?;
    fault(&rt, "@0", HexFault::NotDigit(0))?;
    fault(&rt, "0`", HexFault::NotDigit(1))
}

#[test]
fn text_of_bytes(rt: HostRuntime) -> Result<(), Fail> {
    let none = format!(in rt.alloc(); "{}", Hex(&[]))?;
    assert!(rt; none.as_str() == "");
    let some = format!(in rt.alloc(); "{}", Hex(&[0, 9, 10, 77, 160, 255]))?;
    assert!(rt; some.as_str() == "00090A4DA0FF");
    Ok(())
}
