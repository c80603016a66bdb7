use crate::answer::{Answer, Shown};
use crate::reading::{digest_of, kind_of};
use satp_base::{Text, Texts};
use std::alloc::Global;

/// The texts that were said in a case.
#[derive(Drop)]
pub struct Said {
    texts: Texts,
    /// Whether nothing is told of a text but that it was said.
    is_brief: bool,
}

impl Said {
    pub fn new(alloc: Global) -> Said {
        Said {
            texts: Texts::new(alloc),
            is_brief: false,
        }
    }

    pub fn be_brief(&mut self) {
        self.is_brief = true;
    }

    pub fn length(&self) -> usize {
        self.texts.length()
    }

    /// The text of a number, from 1.
    pub fn text(&self, number: usize) -> Option<&Text> {
        self.texts.get(number.wrapping_sub(1))
    }

    /// Adds a text. None where no memory was found.
    pub fn add(&mut self, alloc: Global, text: Text) -> Option<Answer> {
        if self.is_brief {
            self.texts.push(text).ok()?;
            return Some(Answer::Done);
        }
        let bytes = digest_of(text.bytes());
        let kind = kind_of(alloc, text.bytes());
        self.texts.push(text).ok()?;
        Some(Answer::Said(Shown {
            number: self.texts.length(),
            kind,
            bytes,
        }))
    }
}
