//! Spellings, with values from outside.

use super::*;
use std::test::Fail;

#[test]
fn numbers(rt: HostRuntime) -> Result<(), Fail> {
    assert_eq!(rt; natural(b"0"), Some(0));
    assert_eq!(rt;
        natural(b"18446744073709551615"),
        Some(18_446_744_073_709_551_615)
    );
    assert_eq!(rt; natural(b"18446744073709551616"), None);
    assert_eq!(rt; natural(b"007"), None);
    assert_eq!(rt; natural(b"+1"), None);
    assert_eq!(rt; natural(b""), None);
    assert_eq!(rt; integer(b"-1"), Some(-1));
    assert_eq!(rt; integer(b"-0"), None);
    assert_eq!(rt; integer(b"-01"), None);
    assert_eq!(rt;
        integer(b"-9223372036854775807"),
        Some(-9_223_372_036_854_775_807)
    );
    assert_eq!(rt; integer(b"9223372036854775808"), None);
    assert_eq!(rt; counted(b"128"), 127);
    Ok(())
}

#[test]
fn words(rt: HostRuntime) -> Result<(), Fail> {
    let (first, rest) = next_word(b"step give(#1 #2)");
    assert_eq!(rt; first, b"step".as_slice());
    let (second, rest) = next_word(rest);
    assert_eq!(rt; second, b"give".as_slice());
    let (third, _) = next_word(rest);
    assert_eq!(rt; third, b"1".as_slice());
    let (none, _) = next_word(b" ()");
    assert_eq!(rt; none, b"".as_slice());
    Ok(())
}

#[test]
fn processes(rt: HostRuntime) -> Result<(), Fail> {
    let mut out = Vec::new(rt.alloc());
    push_processes(&mut out, [0, 9].as_slice())?;
    assert_eq!(rt; out.as_slice(), b"(#1 #10)".as_slice());
    let read = processes_in(rt.alloc(), 2, out.as_slice())?;
    assert_eq!(rt; read.as_slice(), [0, 9].as_slice());
    Ok(())
}
