// What holds of the definitions alone.
ghost use Rattle.satp_serve.specs.Laws.{Exchanges};

use crate::responder::Responder;

/// In whatever pieces the bytes came: where no interim answer was said, what was said is the exchange of the requests that the bytes
/// have, in their order, up to the first whose answer closes, and a fault comes last.
pub fn law_exchanges<S, G: Responder<S>>()
    ensures { Exchanges G.replies }
{}
