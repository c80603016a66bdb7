// The connection that the peer serves.
ghost use Rattle.std.specs.Prelude.{◌≡◌, ◌++◌, ℕ, List, IfOk};
ghost use Rattle.satp_loop.specs.Following.{Hands, fresh};
ghost use Rattle.satp_loop.specs.Peers.{PeerReplies};
ghost use Rattle.satp_serve.specs.GatewayReplies.{IsWithin, RepliesAt, site_view};

use crate::peer::Peer;
use satp_base::{Memory, Site, Text};
use satp_serve::{ServeFault, Served};
use std::alloc::Global;

/// The connection that the peer serves, and all that it answered there.
#[derive(Drop)]
pub struct Answering {
    served: Served,
    answers: Text,
}

impl Answering {
    /// A connection on which nothing was heard. It takes the memory for all bytes that will be held.
    pub(crate) fn new(alloc: Global) -> Result<Answering, Memory>
        ensures { IfOk result (λ answering. answering ≡ fresh) }
    {
        let served = Served::new(alloc)?;
        let answers = Text::copy(alloc, b"")?;
        Ok(Answering { served, answers })
    }

    /// What the peer answered.
    pub(crate) fn answers(&self) -> &[u8]
        ensures { result.now ≡ self.now.answers }
    {
        self.answers.bytes()
    }

    /// Hands a piece to the peer. After the peer has closed the connection nobody hears it. A failure of the peer's site is the peer's: it closes the connection.
    pub(crate) fn hear<S: Site>(
        &mut self,
        alloc: Global,
        peer: &mut Peer,
        site: &mut S,
        piece: &[u8],
    ) -> Result<(), Memory>
        requires within { IsWithin peer.old.gateway (S.told site.old) }
        ensures hears { Hands (PeerReplies (RepliesAt (site_view S.told S.book S.faults) S.beside)) piece.now result self.old peer.old site.old self.new peer.new site.new }
        ensures grows { (more : List ℕ) × (self.new.answers ≡ self.old.answers ++ more) }
        ensures within { IsWithin peer.new.gateway (S.told site.new) }
        ensures beside { S.beside site.old site.new }
    {
        match self
            .served
            .serve_over(alloc, peer, site, piece, &mut self.answers)
        {
            Ok(_) => Ok(()),
            Err(ServeFault::Site) => Ok(()),
            Err(ServeFault::Memory) => Err(Memory),
        }
    }
}
