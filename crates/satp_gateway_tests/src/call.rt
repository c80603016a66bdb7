/// A line: which side it speaks of, the word of the call, and up to five further words. What is missing is empty.
#[derive(Clone, Copy)]
pub struct Call<'a> {
    pub to: &'a str,
    pub word: &'a str,
    pub first: &'a str,
    pub second: &'a str,
    pub third: &'a str,
    /// What stands after these, as it stands.
    pub rest: &'a str,
}

impl<'a> Call<'a> {
    pub fn read(line: &'a str) -> Call<'a> {
        let (to, rest) = cut_word(line);
        let (word, rest) = cut_word(rest);
        let (first, rest) = cut_word(rest);
        let (second, rest) = cut_word(rest);
        let (third, rest) = cut_word(rest);
        Call {
            to,
            word,
            first,
            second,
            third,
            rest,
        }
    }
}

/// The first word, and what stands after its space.
pub fn cut_word(line: &str) -> (&str, &str) {
    match line.split_once(' ') {
        Some(both) => both,
        None => (line, ""),
    }
}

/// The number that a word is, and 0 where it is none.
pub fn number_of(word: &str) -> u64 {
    word.parse::<u64>().unwrap_or(0)
}
