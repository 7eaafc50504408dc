//! Texts and their copies.
use cov_base::{FileRow, FileRows, LineNo, Memory, Text};
use std::alloc::Global;
use std::process::Abort;
use std::test::Fail;

/// One line with its text.
pub(super) fn one_row(alloc: Global, line: u32, text: &[u8]) -> Result<FileRows, Memory> {
    let mut rows = FileRows::new(alloc);
    rows.push(FileRow {
        line: LineNo::new(line),
        text: Text::from_slice(alloc, text)?,
    })?;
    Ok(rows)
}

// A copy of a text that is gone.
fn inherited(alloc: Global, bytes: &[u8]) -> Result<Text, Memory> {
    let first = Text::from_slice(alloc, bytes)?;
    first.copy()
}

#[test]
fn a_copy_outlives_its_text_and_changes_alone(rt: HostRuntime) -> Result<(), Fail> {
    let text = inherited(rt.alloc(), b"one")?;
    let mut longer = text.copy()?;
    longer.append(b"more")?;
    assert!(rt; text.as_slice() == b"one".as_slice());
    assert!(rt; longer.as_slice() == b"onemore".as_slice());
    assert!(rt; longer.into_vec()?.as_slice() == b"onemore".as_slice());
    assert!(rt; text.into_vec()?.as_slice() == b"one".as_slice());
    Ok(())
}
