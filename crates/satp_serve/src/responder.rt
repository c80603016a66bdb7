// What answers the bodies of requests.
ghost use Rattle.std.specs.Prelude.{◌≡◌, List, ℕ, Result, IfOk, OnOk};
ghost use Rattle.satp_serve.specs.Replies.{IsReplied};

use satp_base::Text;
use std::alloc::Global;

/// What a request is answered with: a code, and a body.
#[derive(Drop)]
pub struct Replied {
    pub code: u16,
    pub body: Text,
}

/// Why a request has no answer.
#[derive(Clone, Copy, Debug, PartialEq, Eq)]
pub enum Halt {
    /// A call on the site failed.
    Site,
    /// No memory was found.
    Memory,
    /// The connection ends in place of the answer.
    Cut,
}

/// What answers the bodies of requests over a site.
pub trait Responder<S> {
    ghost use Rattle.satp_serve.specs.declared.responder.Halt.{Halt};
    ghost use Rattle.satp_serve.specs.declared.responder.Replied.{Replied};

    /// A site at which it can be asked.
    ghost fits: { Self → S → Type 0 };

    /// A body was answered so, and they went on to these.
    ghost replies: { Self → S → List ℕ → Result Replied Halt → Self → S → Type 0 };

    /// Answers a body.
    fn reply(&mut self, alloc: Global, site: &mut S, body: &[u8]) -> Result<Replied, Halt>
        requires { fits self.old site.old }
        ensures goes { replies self.old site.old body.now result self.new site.new }
        ensures fits { OnOk result (fits self.new site.new) }
        ensures form { IfOk result IsReplied };
}
