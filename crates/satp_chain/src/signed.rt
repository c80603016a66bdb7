use satp_base::{Message, Text};

/// A message, and the compact JWS that it was read from or written as.
#[derive(Drop)]
pub struct Signed {
    pub message: Message,
    pub text: Text,
}
