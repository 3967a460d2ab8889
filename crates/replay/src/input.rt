// Decimal numbers in a text, each ended by one other byte.
ghost use Rattle.std.specs.Prelude.{◌≤◌, ◌<◌, IfSome, length};
ghost use Rattle.std.specs.Iterator.{at_most};

use std::alloc::{AllocError, Global};

// What a digit counts.
fn digit(b: u8) -> Option<u64>
    ensures { IfSome result (λ d. d ≤ 9) }
{
    char::from(b).to_digit(10).map(u64::from)
}

// The number that a text starts with, read no further than a u32 could need, and the text behind the byte that ends it.
fn first_number(text: &[u8]) -> (u64, &[u8])
    ensures { 0 < length text.now → length result.1.now < length text.now }
{
    let mut value = 0;
    for (at, b) in text.iter().enumerate() {
        match digit(*b) {
            Some(digit) if value <= 429_496_730 => value = value * 10 + digit,
            _ => return (value, &text[at + 1..]),
        }
    }
    (value, &[])
}

pub(crate) fn byte_of(number: u64) -> u8 {
    (number & 0xff) as u8
}

pub(crate) fn u32_of(number: u64) -> u32 {
    (number & 0xffff_ffff) as u32
}

// The numbers of a text, one after the other, and what their arrays are made with.
#[derive(Drop)]
pub(crate) struct Numbers<'a> {
    pub(crate) alloc: Global,
    pub(crate) text: &'a [u8],
}

impl Iterator for Numbers<'_> {
    type Item = u64;

    ghost remaining = { λ s. at_most (length s.text.now) };

    fn next(&mut self) -> Option<u64> {
        if self.text.is_empty() {
            return None;
        }
        let (number, rest) = first_number(self.text);
        self.text = rest;
        Some(number)
    }
}

impl Numbers<'_> {
    // The next number. A number that a recorded call lacks is 0, as compare/record has it.
    pub(crate) fn number(&mut self) -> u64 {
        self.next().unwrap_or(0)
    }

    // An array: how many elements it has, how many of them are given, and these; the others are `other`. None where it has more than `most`.
    pub(crate) fn array<T: Copy, F: Fn(u64) -> T>(
        &mut self,
        most: usize,
        other: T,
        element: F,
    ) -> Result<Option<Vec<T>>, AllocError>
        requires { F.IsAlwaysCallable element }
    {
        let len = self.number() as usize;
        let given = self.number() as usize;
        let mut elements = Vec::new(self.alloc);
        for _ in 0..given.min(most) {
            elements.push(element(self.number()))?;
        }
        if len > most {
            return Ok(None);
        }
        elements.resize(len, other)?;
        Ok(Some(elements))
    }

    // An array of bytes.
    pub(crate) fn bytes(&mut self, most: usize, other: u8) -> Result<Option<Vec<u8>>, AllocError> {
        self.array(most, other, byte_of)
    }
}
