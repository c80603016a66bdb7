// A connection that a gateway serves.
ghost use Rattle.std.specs.Prelude.{◌≡◌, ◌≢◌, ◌≤◌, ◌++◌, Ok, true, false, ℕ, List, option_map, IfErr, OnOk};
ghost use Rattle.satp_base.specs.Streams.{Rose};
ghost use Rattle.satp_serve.specs.Connections.{ConnectionAnswers};
ghost use Rattle.satp_serve.specs.Feeding.{FeedAnswers, talk};
ghost use Rattle.satp_serve.specs.GatewayReplies.{GatewayReplies, IsWithin, site_view};

use crate::connection::{Connection, ConnectionEnd, serve_connection_over};
use crate::served::Served;
use crate::turn::{ServeFault, Turn};
use satp_base::{Site, Text, Wire};
use satp_gateway::Gateway;
use std::alloc::Global;

/// Serves the connection that is open by a gateway at its site, and shuts it.
///
/// Each request is handed to the gateway, in order, and its reply is said. It reads at most 1,048,576 bytes. After a call on the wire failed, or heard the end, none is
/// made but `shut`.
///
/// The site's count of faults rises only where the connection ends with `Site`. What the wire does with the last answer after `Site` or `Memory` changes nothing of that end.
pub fn serve_connection<S: Site, W: Wire>(
    alloc: Global,
    gateway: &mut Gateway,
    site: &mut S,
    wire: &mut W,
) -> Connection
    requires open { W.is_open wire.old ≡ true }
    requires within { IsWithin gateway.old (S.told site.old) }
    ensures says { ConnectionAnswers GatewayReplies gateway.old (site_view S.told S.book S.faults site.old) gateway.new (site_view S.told S.book S.faults site.new) (W.told wire.old) (W.told wire.new) (W.faults wire.old) (W.faults wire.new) result }
    ensures within { IsWithin gateway.new (S.told site.new) }
    ensures site_beside { S.beside site.old site.new }
    ensures site_later { S.faults site.old ≤ S.faults site.new }
    ensures site_cause { result.end ≡ ConnectionEnd.Site → Rose (S.faults site.old) (S.faults site.new) }
    ensures site_kept { result.end ≢ ConnectionEnd.Site → S.faults site.new ≡ S.faults site.old }
    ensures shut { (W.is_open wire.new ≡ false) × (W.listens wire.new ≡ W.listens wire.old) }
    ensures dials { option_map (λ t. t.dials) (W.told wire.new) ≡ option_map (λ t. t.dials) (W.told wire.old) }
    ensures most { result.requests ≤ 64 }
    ensures wire_beside { W.beside wire.old wire.new }
    ensures wire_later { W.faults wire.old ≤ W.faults wire.new }
    ensures wire_cause { result.end ≡ ConnectionEnd.Wire → Rose (W.faults wire.old) (W.faults wire.new) }
{
    serve_connection_over(alloc, gateway, site, wire)
}

impl Served {
    /// Takes a piece of what is heard, hands the requests that are whole to a gateway, and adds what is said to it.
    ///
    /// `Close` comes where the last answer closes the connection. What comes after that is passed over.
    ///
    /// `Site` and `Memory` come where the gateway answers them, and `Memory` where no memory is found. Then an answer of code 503 is the last, if memory for it is found,
    /// and each later call answers `Close` and says nothing. The site's count of faults rises only at `Site`.
    pub fn feed<S: Site>(
        &mut self,
        alloc: Global,
        gateway: &mut Gateway,
        site: &mut S,
        piece: &[u8],
        said: &mut Text,
    ) -> Result<Turn, ServeFault>
        requires within { IsWithin gateway.old (S.told site.old) }
        ensures answers { self.old.closed ≡ false → FeedAnswers GatewayReplies self.old.feed self.new.feed (talk self.old gateway.old (site_view S.told S.book S.faults site.old) said.old) (talk self.new gateway.new (site_view S.told S.book S.faults site.new) said.new) piece.now result }
        ensures open { result ≡ Ok Turn.More → self.new.closed ≡ false }
        ensures closed { self.old.closed ≡ true → (result ≡ Ok Turn.Close) × (self.new ≡ self.old) × (said.new ≡ said.old) × (gateway.new ≡ gateway.old) × (site.new ≡ site.old) }
        ensures grows { (more : List ℕ) × (said.new ≡ said.old ++ more) }
        ensures within { IsWithin gateway.new (S.told site.new) }
        ensures beside { S.beside site.old site.new }
        ensures later { S.faults site.old ≤ S.faults site.new }
        ensures cause { IfErr result (λ fault. fault ≡ ServeFault.Site → Rose (S.faults site.old) (S.faults site.new)) }
        ensures kept { OnOk result (S.faults site.new ≡ S.faults site.old) }
        ensures still { IfErr result (λ fault. fault ≢ ServeFault.Site → S.faults site.new ≡ S.faults site.old) }
    {
        self.serve_over(alloc, gateway, site, piece, said)
    }
}
