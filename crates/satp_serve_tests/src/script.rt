// A responder that answers by the first byte of a body.
ghost use Rattle.std.specs.Prelude.{◌≡◌, IfOk};
ghost use Rattle.satp_serve.specs.Replies.{IsReplied};

use satp_base::{Memory, Text};
use satp_serve::{Halt, Replied, Responder};
use std::alloc::Global;

/// Halts at `s`, `m` and `c`, has nothing to say to `n`, says `e` back, and refuses every other body. The site counts the bodies.
#[derive(Drop)]
pub struct Script;

fn replied(alloc: Global, code: u16, body: &[u8]) -> Result<Replied, Memory>
    ensures { IfOk result (λ r. (r.code ≡ code) × (r.body ≡ body.now)) }
{
    Ok(Replied {
        code,
        body: Text::copy(alloc, body)?,
    })
}

impl Responder<u32> for Script {
    ghost fits = { λ script site. Unit {0} };

    ghost replies = { λ script before body result next after. Unit {0} };

    fn reply(&mut self, alloc: Global, site: &mut u32, body: &[u8]) -> Result<Replied, Halt>
        ensures { IfOk result IsReplied }
    {
        *site = site.saturating_add(1);
        let answer = match body.first() {
            Some(b's') => return Err(Halt::Site),
            Some(b'm') => return Err(Halt::Memory),
            Some(b'c') => return Err(Halt::Cut),
            Some(b'n') => replied(alloc, 204, b""),
            Some(b'e') => replied(alloc, 200, body),
            _ => replied(alloc, 400, b"jws parts 1\n"),
        };
        match answer {
            Ok(answer) => Ok(answer),
            Err(Memory) => Err(Halt::Memory),
        }
    }
}
