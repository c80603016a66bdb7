use satp_base::{Memory, Text};
use std::alloc::Global;

/// A text with a piece so many times over, and then another piece as many times.
#[derive(Clone, Copy)]
pub struct Grown {
    pub first: &'static [u8],
    pub open: &'static [u8],
    pub close: &'static [u8],
    pub times: usize,
    pub last: &'static [u8],
}

/// Adds a piece so many times. Want of memory shows as a text that is too short.
pub fn put(text: &mut Text, piece: &[u8], times: usize) {
    for _ in 0..times {
        let _ = text.append(piece);
    }
}

impl Grown {
    pub fn text(&self, alloc: Global) -> Result<Text, Memory> {
        let mut text = Text::copy(alloc, self.first)?;
        put(&mut text, self.open, self.times);
        put(&mut text, self.close, self.times);
        put(&mut text, self.last, 1);
        Ok(text)
    }
}
