use percent_encoding::percent_decode;
use satp_base::Area;
use std::alloc::Global;

/// A line: who is called, the word of the call, and up to three further words. What is missing is empty.
#[derive(Clone, Copy)]
pub struct Call<'a> {
    pub to: &'a str,
    pub word: &'a str,
    pub first: &'a str,
    pub second: &'a str,
    /// The last word of the line.
    pub last: &'a str,
}

impl<'a> Call<'a> {
    pub fn read(line: &'a str) -> Call<'a> {
        let mut words = line.split(' ');
        let to = words.next().unwrap_or("");
        let word = words.next().unwrap_or("");
        let first = words.next().unwrap_or("");
        let second = words.next().unwrap_or("");
        let last = line.rsplit(' ').next().unwrap_or("");
        Call {
            to,
            word,
            first,
            second,
            last,
        }
    }

    pub fn area(self) -> Area {
        match self.first {
            "b" => Area::JournalB,
            "ledger" => Area::Ledger,
            _ => Area::JournalA,
        }
    }

    /// The number that the second further word is.
    pub fn number(self) -> u64 {
        self.second.parse::<u64>().unwrap_or(0)
    }
}

/// The bytes of a word, whose escapes are read. None where no memory was found.
pub fn decoded(alloc: Global, word: &str) -> Option<Vec<u8>> {
    let mut bytes = Vec::new(alloc);
    percent_decode(word.as_bytes()).append_to(&mut bytes).ok()?;
    Some(bytes)
}
