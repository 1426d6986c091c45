//! What the tests share: assertions, scripts with what is expected of them, texts that are made of
//! templates.
mod cases;
mod replay;
mod stories;
mod templates;
mod timelines;
mod tool;
mod tree;

use std::process::Abort;

// This holds in this row.
fn holds(rt: &impl Abort, row: &str, good: bool) {
    assert!(rt; good, "{row}");
}

// In this row the bytes that were found are those that are wanted.
fn same(rt: &impl Abort, row: &str, found: &[u8], wanted: &[u8]) {
    let text = str::from_utf8(found).unwrap_or("bytes that are no text");
    assert!(rt; found == wanted, "{row}: {text:?}");
}
