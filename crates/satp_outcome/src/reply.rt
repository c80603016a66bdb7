use crate::outcome::InputEnd;
use satp_base::Text;

/// What a command makes of the text that it read.
#[derive(Drop)]
pub enum Reply {
    /// It prints these lines.
    Lines(Text),
    /// It refuses the text. That the input is too long is found before there is a text.
    Refuses(InputEnd),
}
