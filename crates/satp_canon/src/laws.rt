//! Theorems on canonical texts as JSON values, and on the order of names. They stand over definitions alone and make no call.

ghost use Rattle.satp_canon.specs.FirstFault.{FindsTheFirst};
ghost use Rattle.satp_canon.specs.Reads.{WritesItsText};

/// What a text is compared with is the canonical text of the message whose members its JSON value holds.
pub fn law_written()
    ensures { WritesItsText }
{}

/// The name that is told of those that are missing or too many is the first of them in byte order.
pub fn law_first_name()
    ensures { FindsTheFirst }
{}
