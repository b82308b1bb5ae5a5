//! Texts that no command reads as ALB, since they don't begin with a heading; all others are rows of `tests/rows`.
use alb_reader::{AlbRead, push_fault, read_alb};
use std::alloc::{AllocError, Global};
use std::test::Fail;

/// The printed fault of a text, or `good`.
fn answer(alloc: Global, text: &[u8]) -> Result<String, AllocError> {
    let mut told = String::new(alloc);
    if text.len() > 100 {
        return Ok(told);
    }
    match read_alb(alloc, text) {
        AlbRead::Good(_, _) => told.push_str("good")?,
        AlbRead::Fault(fault) => push_fault(&mut told, &fault)?,
        AlbRead::NoMemory => told.push_str("memory")?,
    }
    Ok(told)
}

#[test]
fn texts_that_begin_with_no_heading(rt: HostRuntime) -> Result<(), Fail> {
    let stray = answer(rt.alloc(), b"1\n<end>\n")?;
    let empty = answer(rt.alloc(), b"")?;
    assert!(rt; (stray.as_str() == "line 1 stray") & (empty.as_str() == "line 1 missing end"));
    Ok(())
}
