// The lines of a file of any length. It is read chunk by chunk, and not by `read_until`, which holds a line of any length.
use crate::answer;
use std::alloc::{AllocError, Global};
use std::io::{self, Read};

// The most bytes of a line of the file. A line that the reader takes has fewer, with each byte written by four and the longest name of a kind before
// each token.
const MOST_BYTES: usize = 400_000;

// All lines from this one on are told of by its number.
const LAST_NUMBER: u64 = 999_999_999_999;

// What is held of a line whose end is not read yet: its bytes, of which one too many shows that there are too many; and its number.
#[derive(Drop)]
struct Held {
    bytes: Vec<u8>,
    number: u64,
}

impl Held {
    fn new(alloc: Global) -> Held {
        Held {
            bytes: Vec::new(alloc),
            number: 1,
        }
    }

    // Puts a part of the line behind what is held of it.
    fn hold(&mut self, part: &[u8]) -> Result<(), AllocError> {
        let room = (MOST_BYTES + 1).saturating_sub(self.bytes.len());
        self.bytes.extend_from_slice(&part[..part.len().min(room)])
    }

    // Tells of the line, which has ended, and goes on to the next.
    fn end(&mut self, rt: &(impl Print + AllocGlobal)) -> io::Result<()> {
        let line = self.bytes.as_slice();
        if line.len() > MOST_BYTES {
            println!(rt; "line {}: over 400,000 bytes", self.number)?;
        } else {
            answer::tell(rt, self.number, line.strip_suffix(b"\r").unwrap_or(line))?;
        }
        self.bytes.clear();
        self.number = self.number.saturating_add(1).min(LAST_NUMBER);
        Ok(())
    }

    // Tells of each line that ends in a chunk of the file, and holds what stands behind the last.
    fn take_chunk(&mut self, rt: &(impl Print + AllocGlobal), chunk: &[u8]) -> io::Result<()> {
        for part in chunk.split_inclusive(|b| *b == b'\n') {
            match part.strip_suffix(b"\n") {
                Some(ended) => {
                    self.hold(ended)?;
                    self.end(rt)?;
                }
                None => self.hold(part)?,
            }
        }
        Ok(())
    }
}

// Tells of each line of a file, also of a last one that does not end in a newline. The chunks are counted, by a number that no file has: a `loop` needs a
// measure, and nothing says that a file ends.
pub(crate) fn tell_all<R: Read>(rt: &(impl Print + AllocGlobal), file: &mut R) -> io::Result<()> {
    // Fixed memory: 65,536 bytes, however long the file is.
    let mut chunk = [0u8; 65536];
    let mut held = Held::new(rt.alloc());
    for _ in 0..u64::MAX {
        let n = file.read(&mut chunk)?;
        if n == 0 {
            break;
        }
        held.take_chunk(rt, &chunk[..n])?;
    }
    if !held.bytes.is_empty() {
        held.end(rt)?;
    }
    Ok(())
}
