// A connection that is served: bytes that are heard in pieces, and the answers to them.
ghost use Rattle.std.specs.Prelude.{◌≡◌, ◌≤◌, ◌++◌, Ok, true, false, ℕ, List, IfOk};
ghost use Rattle.satp_serve.specs.Feeding.{FeedAnswers, talk, unheard};

use crate::listening::Listening;
use crate::responder::Responder;
use crate::say::add_halt;
use crate::turn::{ServeFault, Turn};
use satp_base::{Memory, Text};
use satp_http::Requests;
use std::alloc::Global;
use std::marker::Model;

/// A connection that is served, whatever carries its bytes. It brings at most 64 requests.
#[derive(Drop)]
pub struct Served {
    listening: Listening,
    closed: bool,
}

impl Model for Served {
    ghost use Rattle.std.specs.Prelude.{◌≡◌, ◌<◌, ◌≤◌, false, length};
    ghost use Rattle.satp_http.specs.Heads.{room};
    ghost use Rattle.satp_serve.specs.Feeding.{Serving};

    ghost Value = { Serving };

    ghost view = { λ s. record { feed = s.listening.requests; count = s.listening.count; closed = s.closed } };

    ghost invariant = { λ s. (s.listening.count ≤ 64) × (s.closed ≡ false → (s.listening.count < 64) × (length s.listening.requests.held < room)) };
}

impl Served {
    /// A connection on which nothing was heard. It takes the memory for all bytes that will be held.
    pub fn new(alloc: Global) -> Result<Served, Memory>
        ensures { IfOk result (λ served. served ≡ unheard) }
    {
        let requests = Requests::new(alloc)?;
        Ok(Served {
            listening: Listening { requests, count: 0 },
            closed: false,
        })
    }

    /// How many requests were handed over.
    pub fn count(&self) -> u32
        ensures count { result ≡ self.now.count }
        ensures most { result ≤ 64 }
    {
        self.listening.count
    }

    /// Takes a piece of what is heard, and adds what is said to it.
    ///
    /// `Close` comes where the last answer closes the connection, or where the responder cuts it off in place of an answer. What
    /// comes after that is passed over.
    ///
    /// `Site` comes where the responder halts with it, and `Memory` where it does, or where no memory is found. Then an answer of code
    /// 503 is the last, if memory for it is found, and each later call answers `Close` and says nothing.
    pub fn serve_over<S, G: Responder<S>>(
        &mut self,
        alloc: Global,
        responder: &mut G,
        site: &mut S,
        piece: &[u8],
        said: &mut Text,
    ) -> Result<Turn, ServeFault>
        requires fits { self.old.closed ≡ false → G.fits responder.old site.old }
        ensures answers { self.old.closed ≡ false → FeedAnswers G.replies self.old.feed self.new.feed (talk self.old responder.old site.old said.old) (talk self.new responder.new site.new said.new) piece.now result }
        ensures fits { result ≡ Ok Turn.More → G.fits responder.new site.new }
        ensures open { result ≡ Ok Turn.More → self.new.closed ≡ false }
        ensures closed { self.old.closed ≡ true → (result ≡ Ok Turn.Close) × (self.new ≡ self.old) × (said.new ≡ said.old) × (responder.new ≡ responder.old) × (site.new ≡ site.old) }
        ensures grows { (more : List ℕ) × (said.new ≡ said.old ++ more) }
    {
        if self.closed {
            return Ok(Turn::Close);
        }
        match self
            .listening
            .answer_piece(alloc, responder, site, piece, said)
        {
            Ok(Turn::More) => Ok(Turn::More),
            Ok(Turn::Close) => {
                self.closed = true;
                Ok(Turn::Close)
            }
            Err(fault) => {
                self.closed = true;
                add_halt(alloc, fault, said);
                Err(fault)
            }
        }
    }
}
