// What commands reply.
ghost use Rattle.satp_examples.specs.Replies.{RepliesOfAnswer, RepliesOfCheck, RepliesOfSignedCheck};

/// What `answer` and `check`, with a key and without, reply to a text.
pub fn law_replies()
    ensures answer { RepliesOfAnswer }
    ensures check { RepliesOfCheck }
    ensures signed { RepliesOfSignedCheck }
{}
