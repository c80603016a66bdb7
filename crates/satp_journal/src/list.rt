ghost use Rattle.std.specs.Prelude.{◌≡◌, IfOk, MatchResult};
ghost use Rattle.satp_base.specs.Format.{Stands};
ghost use Rattle.satp_journal.specs.Listing.{IsUnread};

use crate::fault::Unread;
use crate::scan::{Scanned, scan};
use crate::stock::Stock;
use satp_base::{Memory, Text, Texts};
use std::alloc::Global;

/// The list of payloads that the bytes of a journal stand for. At most one byte is no payload.
///
/// `Damaged` comes exactly where the bytes stand for no list.
pub fn payloads(alloc: Global, image: &[u8]) -> Result<Texts, Unread>
    ensures { MatchResult result (Stands image.now) (IsUnread image.now) }
{
    let Scanned { stock, .. } = scan(alloc, image)?;
    Ok(texts_of(alloc, &stock)?)
}

/// Each payload as a text of its own.
#[tactic(auto, using(crate::proofs::Copying::copied_more, crate::proofs::Copying::copied_all))]
fn texts_of(alloc: Global, stock: &Stock) -> Result<Texts, Memory>
    ensures { IfOk result (λ texts. texts ≡ stock.now.payloads) }
{
    let mut texts = Texts::new(alloc);
    while let Some(payload) = stock.get(texts.length()) {
        let text = Text::copy(alloc, payload)?;
        if texts.push(text).is_err() {
            return Err(Memory);
        }
    }
    Ok(texts)
}
