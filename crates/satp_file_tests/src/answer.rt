use satp_base::{self, Entry};

/// What a call answers.
#[derive(Clone, Copy)]
pub enum Answer {
    /// The line is no call, or its call has no answer.
    Nothing,
    Done(bool),
    /// Whether it is so.
    Is(bool),
    Length(u64),
    /// How many bytes were read, and the room for them.
    Read(usize, [u8; 4]),
    Shown(Entry),
    Acted(satp_base::Answer),
}

/// Prints a line and what its call answers. None where that fails.
pub fn print_answer(rt: &HostRuntime, line: &str, answer: Answer) -> Option<()> {
    let printed = match answer {
        Answer::Nothing => println!(rt; "{line}"),
        Answer::Done(true) => println!(rt; "{line}: done"),
        Answer::Done(false) => println!(rt; "{line}: failed"),
        Answer::Is(true) => println!(rt; "{line}: yes"),
        Answer::Is(false) => println!(rt; "{line}: no"),
        Answer::Length(length) => println!(rt; "{line}: {length}"),
        Answer::Read(count, room) => println!(rt; "{line}: {count} {}", text_of(&room)),
        Answer::Shown(entry) => println!(rt; "{line}: {entry:?}"),
        Answer::Acted(answer) => println!(rt; "{line}: {answer:?}"),
    };
    printed.ok()
}

fn text_of(bytes: &[u8]) -> &str {
    str::from_utf8(bytes).unwrap_or("no text")
}
