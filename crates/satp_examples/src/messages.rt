// The forms of messages and their canonical texts.
ghost use Rattle.satp_examples.specs.Messages.{FormsOfMessages, TextsOfMessages};

/// What a message may be, and its text to the byte.
pub fn law_messages()
    ensures forms { FormsOfMessages }
    ensures texts { TextsOfMessages }
{}
