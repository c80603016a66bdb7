//! What holds of canonical texts.

ghost use Rattle.std.specs.Prelude.{◌≡◌, ℕ, List, ◌<◌, slice_index};
ghost use Rattle.satp_base.specs.Canonical.{IsText, canonical};
ghost use Rattle.satp_base.specs.Forms.{IsMessage};
ghost use Rattle.satp_base.specs.declared.message.Message.{Message};

/// No two messages have one canonical text.
pub fn law_one_message()
    ensures { (m n : Message) (text : List ℕ) → IsMessage m → IsMessage n
        → IsText m text → IsText n text → m ≡ n }
{}

/// Every canonical text is ASCII.
pub fn law_ascii()
    ensures { (m : Message) (i : ℕ) → IsMessage m → slice_index (canonical m) i < 128 }
{}
