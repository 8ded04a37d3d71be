//! Bytes as text: how many equal ones stand one behind another, and which.

use std::alloc::{AllocError, Global};

/// One run behind others: its length and its byte, a zero byte as a point.
fn push_run(text: &mut String, count: u64, byte: u8) -> Result<(), AllocError> {
    if count == 0 {
        return Ok(());
    }
    if !text.is_empty() {
        text.push_str(" ")?;
    }
    let letter = if byte == 0 { '.' } else { byte as char };
    write!(text, "{count}{letter}")
}

/// The runs of these bytes, `none` where there are none.
pub(crate) fn runs_text(alloc: Global, bytes: &[u8]) -> Result<String, AllocError> {
    let mut text = String::new(alloc);
    let mut count: u64 = 0;
    let mut last = 0;
    for byte in bytes {
        if *byte != last {
            push_run(&mut text, count, last)?;
            count = 0;
        }
        last = *byte;
        count = count.saturating_add(1);
    }
    push_run(&mut text, count, last)?;
    if text.is_empty() {
        text.push_str("none")?;
    }
    Ok(text)
}
