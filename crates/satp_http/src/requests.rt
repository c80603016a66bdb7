// The requests that a connection brings.
ghost use Rattle.std.specs.Prelude.{◌≡◌, ◌≤◌, ◌<◌, Ok, length, IfOk};
ghost use Rattle.satp_http.specs.Feeds.{no_requests, Adds, TakesRequest};
ghost use Rattle.satp_http.specs.Heads.{room};
ghost use Rattle.satp_http.specs.declared.requests.Taken.TheVariants.{More};

use crate::HttpFault;
use crate::buffer::Buffer;
use crate::head::Found;
use crate::request_head::find_request;
use satp_base::{Memory, Text};
use std::alloc::Global;
use std::marker::Model;

/// A request that came whole.
#[derive(Drop)]
pub struct Asked {
    /// The bytes behind the head, as many as its Content-Length says.
    pub body: Text,
    /// Whether the client closes the connection behind it.
    pub close: bool,
}

/// What the bytes so far give.
#[derive(Drop)]
pub enum Taken {
    /// No whole request, and no fault.
    More,
    /// The client waits for the interim answer before it sends the body. This comes once for a request.
    Continue,
    /// The request at the front, which is no longer held.
    Request(Asked),
}

/// The requests of a connection, from bytes that come in any pieces. At most 16,384 bytes are held, and
/// the room for them is reserved when it is made.
#[derive(Drop)]
pub struct Requests {
    buffer: Buffer,
    continued: bool,
    stuck: Option<HttpFault>,
}

impl Model for Requests {
    ghost use Rattle.satp_http.specs.Heads.{client};
    ghost use Rattle.satp_http.specs.Feeds.{RequestFeed, IsStuck};

    ghost Value = { RequestFeed };

    ghost view = { λ r. record { held = r.buffer; continued = r.continued; stuck = r.stuck } };

    ghost invariant = { λ r. IsStuck client 0 r.buffer r.stuck };
}

impl Requests {
    /// Takes the memory for all bytes that will be held.
    pub fn new(alloc: Global) -> Result<Requests, Memory>
        ensures { IfOk result (λ requests. requests ≡ no_requests) }
    {
        Ok(Requests {
            buffer: Buffer::new(alloc)?,
            continued: false,
            stuck: None,
        })
    }

    /// Adds as much of the piece as there is room for, and says how many bytes that was.
    pub fn feed(&mut self, piece: &[u8]) -> usize
        ensures adds { Adds piece.now self.old.held self.new.held result }
        ensures rest { self.new ≡ record self.old { held = self.new.held } }
        ensures most { length self.new.held ≤ room }
    {
        self.buffer.add(piece)
    }

    /// How many bytes are held.
    pub fn held(&self) -> usize
        ensures held { result ≡ length self.now.held }
        ensures most { result ≤ room }
    {
        self.buffer.bytes().len()
    }

    /// Takes the request at the front, where it is whole. Where it isn't there is room for more bytes.
    ///
    /// A fault comes as soon as the bytes held show it, and is the first of its head in the order of
    /// `HttpFault`, with two exceptions: where both `Head` and `ManyHeaders` hold, either may come; and where
    /// the bytes end within a target that no bytes after them make a head's, `Head` may come only once the
    /// target has ended. A fault is answered again by each later call, but for `Memory`, which changes
    /// nothing.
    pub fn take(&mut self, alloc: Global) -> Result<Taken, HttpFault>
        ensures takes { TakesRequest self.old self.new result }
        ensures room { result ≡ Ok More → length self.new.held < room }
    {
        if let Some(fault) = self.stuck {
            return Err(fault);
        }
        match find_request(self.buffer.bytes()) {
            Found::More => Ok(Taken::More),
            Found::Fault(fault) => {
                self.stuck = Some(fault);
                Err(fault)
            }
            Found::Head(start, framing) => {
                let end = start + framing.length;
                if end > self.buffer.bytes().len() {
                    if framing.expects && !self.continued {
                        self.continued = true;
                        return Ok(Taken::Continue);
                    }
                    return Ok(Taken::More);
                }
                let Ok(body) = Text::copy(alloc, &self.buffer.bytes()[start..end]) else {
                    return Err(HttpFault::Memory);
                };
                self.buffer.drop_front(end);
                self.continued = false;
                Ok(Taken::Request(Asked {
                    body,
                    close: framing.close,
                }))
            }
        }
    }
}
