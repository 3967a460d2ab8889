// Text as it is printed: it need not be UTF-8, and its control bytes are question marks.
use std::alloc::{AllocError, Global};
use std::io;

fn soft(b: u8) -> u8 {
    if b.is_ascii_control() { b'?' } else { b }
}

// A text as it is printed.
pub(crate) fn softened(alloc: Global, text: &[u8]) -> Result<Vec<u8>, AllocError> {
    text.iter().map(|b| soft(*b)).collect(alloc)
}

// Writes a text, and ends the line.
pub(crate) fn write_line(rt: &(impl Print + AllocGlobal), text: &[u8]) -> io::Result<()> {
    rt.write_all(&softened(rt.alloc(), text)?)?;
    rt.write_all(b"\n")
}
