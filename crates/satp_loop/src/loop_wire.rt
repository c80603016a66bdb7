// A wire whose peer is a gateway at its own site.
ghost use Rattle.std.specs.Prelude.{◌≡◌, ◌≤◌, false, length};
ghost use Rattle.satp_journal.specs.State.{Fits};
ghost use Rattle.satp_loop.specs.Following.{answers_of};
ghost use Rattle.satp_points.specs.States.{is_broken};

use crate::answering::Answering;
use crate::line::Line;
use crate::mail::Mail;
use crate::peer::Peer;
use crate::seat::Seat;
use satp_base::{Address, Dial, Memory, Site, Wire, WireFault};
use std::alloc::Global;

/// A wire whose peer is a gateway at its own site, which answers what is said at once.
///
/// It opens one connection, and refuses a second one. Each other call fails only where no memory was found, here or by the peer. A failure of the peer's site is none of the wire:
/// the peer says so if it can, and closes the connection.
///
/// A read that finds nothing left to hear, with room for it, hears the end, whether or not the peer has closed the connection. From then on nothing more is heard, and nobody hears what is said.
#[derive(Drop)]
pub struct LoopWire<S: Site> {
    alloc: Global,
    line: Line,
    answering: Option<Answering>,
    peer: Peer,
    site: S,
    ghost heard: { line.place ≤ length (answers_of answering) },
    ghost within: { is_broken peer.gateway ≡ false → Fits peer.gateway (S.told site) },
}

impl<S: Site> LoopWire<S> {
    ghost use Rattle.std.specs.Prelude.{◌≡◌, ◌++◌, ℕ, List, None, Some, OnOk, OnErr};
    ghost use Rattle.satp_base.specs.Streams.{HasCause};
    ghost use Rattle.satp_loop.specs.Following.{HandsOver, answers_of, fresh};
    ghost use Rattle.satp_loop.specs.Lines.{Misses, opening, quiet};
    ghost use Rattle.satp_loop.specs.Peers.{PeerReplies};
    ghost use Rattle.satp_serve.specs.GatewayReplies.{IsWithin, RepliesAt, site_view};

    /// A wire that was never called, whose peer is a gateway at its site that has this mail.
    #[tactic(auto, using(crate::proofs::Keeping::fits_from))]
    pub fn new(alloc: Global, seat: Seat<S>, mail: Mail) -> LoopWire<S>
        requires within { IsWithin seat.gateway (S.told seat.site) }
        ensures quiet { (result.line ≡ quiet) × (result.answering ≡ None) }
        ensures peer { (result.peer.gateway ≡ seat.gateway) × (result.peer.mail ≡ mail) }
        ensures site { result.site ≡ seat.site }
    {
        LoopWire {
            alloc,
            line: Line::new(alloc),
            answering: None,
            peer: Peer {
                gateway: seat.gateway,
                mail,
            },
            site: seat.site,
        }
    }

    /// How many calls failed because no memory was found, here or by the peer.
    pub fn wants(&self) -> u64
        ensures { result ≡ self.now.line.wants }
    {
        self.line.wants()
    }

    /// The peer at its site, and the mail.
    #[tactic(auto, using(crate::proofs::Keeping::within_from))]
    pub fn into_parts(self) -> (Seat<S>, Mail)
        ensures gateway { result.0.gateway ≡ self.peer.gateway }
        ensures site { result.0.site ≡ self.site }
        ensures mail { result.1 ≡ self.peer.mail }
        ensures within { IsWithin result.0.gateway (S.told result.0.site) }
    {
        let peer = self.peer;
        (
            Seat {
                gateway: peer.gateway,
                site: self.site,
            },
            peer.mail,
        )
    }

    /// Opens the one connection, or refuses a second one.
    fn begin(&mut self, dial: Dial) -> Result<(), WireFault>
        ensures ok { OnOk result ((self.old.line.used ≡ false) × (self.new.line ≡ opening dial self.old.line) × (self.new.answering ≡ Some fresh)) }
        ensures err { OnErr result (Misses dial self.old.line self.new.line × (self.new.answering ≡ self.old.answering)) }
        ensures peer { (self.new.peer ≡ self.old.peer) × (self.new.site ≡ self.old.site) }
        ensures cause { HasCause self.old.line.faults self.new.line.faults result }
    {
        if self.line.was_opened() {
            return Err(self.line.refuse(dial));
        }
        let Ok(answering) = Answering::new(self.alloc) else {
            self.line.want();
            return Err(WireFault);
        };
        self.line.open(dial)?;
        self.answering = Some(answering);
        Ok(())
    }

    /// Hands a piece to the peer. After the end was heard, nobody hears it.
    #[tactic(auto, using(crate::proofs::Keeping::within_from, crate::proofs::Keeping::fits_from))]
    fn hand_over(&mut self, piece: &[u8]) -> Result<(), Memory>
        ensures hands { HandsOver (PeerReplies (RepliesAt (site_view S.told S.book S.faults) S.beside)) piece.now result self.old.line.ended self.old.answering self.old.peer self.old.site self.new.answering self.new.peer self.new.site }
        ensures line { self.new.line ≡ self.old.line }
        ensures grows { (more : List ℕ) × (answers_of self.new.answering ≡ answers_of self.old.answering ++ more) }
        ensures beside { S.beside self.old.site self.new.site }
    {
        if self.line.has_ended() {
            return Ok(());
        }
        match &mut self.answering {
            Some(answering) => answering.hear(self.alloc, &mut self.peer, &mut self.site, piece),
            None => Ok(()),
        }
    }
}

impl<S: Site> Wire for LoopWire<S> {
    ghost use Rattle.std.specs.Prelude.{Some};
    ghost use Rattle.satp_loop.specs.Following.{Follows, answers_of, point};
    ghost use Rattle.satp_loop.specs.FollowingLaws.{follows_same, follows_then};
    ghost use Rattle.satp_loop.specs.Lines.{traffic_of};
    ghost use Rattle.satp_loop.specs.LineLaws.{one_is_open};
    ghost use Rattle.satp_loop.specs.Peers.{PeerReplies};
    ghost use Rattle.satp_serve.specs.GatewayReplies.{RepliesAt, site_view};

    ghost told = { λ w. Some (traffic_of w.line (answers_of w.answering)) };

    ghost faults = { λ w. w.line.faults };

    ghost listens = { λ w. w.line.listens };

    ghost is_open = { λ w. w.line.is_open };

    ghost beside = { λ old new. Follows (PeerReplies (RepliesAt (site_view S.told S.book S.faults) S.beside)) S.beside
        (point old.line old.answering old.peer old.site) (point new.line new.answering new.peer new.site) };

    fn listen(&mut self, at: &Address) -> Result<(), WireFault> {
        self.line.listen(*at)
    }

    fn accept(&mut self) -> Result<(), WireFault> {
        self.begin(Dial::Accept)
    }

    fn connect(&mut self, at: &Address) -> Result<(), WireFault> {
        self.begin(Dial::Connect { at: *at })
    }

    fn read(&mut self, into: &mut [u8]) -> Result<usize, WireFault> {
        match &self.answering {
            Some(answering) => Ok(self.line.hear(answering.answers(), into)),
            None => Ok(self.line.hear(b"", into)),
        }
    }

    fn write(&mut self, piece: &[u8]) -> Result<usize, WireFault> {
        self.line.say(piece)?;
        match self.hand_over(piece) {
            Ok(()) => Ok(piece.len()),
            Err(Memory) => {
                self.line.take_back(piece.len());
                Err(WireFault)
            }
        }
    }

    fn shut(&mut self) {
        self.line.shut();
    }

    ghost one_open = { λ w t told opened. one_is_open w.line (answers_of w.answering) t told opened };

    ghost beside_same = { λ w. follows_same (PeerReplies (RepliesAt (site_view S.told S.book S.faults) S.beside)) S.beside S.beside_same (point w.line w.answering w.peer w.site) };

    ghost beside_then = { λ a b c. follows_then (PeerReplies (RepliesAt (site_view S.told S.book S.faults) S.beside)) S.beside S.beside_then
        (point a.line a.answering a.peer a.site) (point b.line b.answering b.peer b.site) (point c.line c.answering c.peer c.site) };
}
