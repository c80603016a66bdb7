// What holds of the definitions alone.
ghost use Rattle.satp_loop.specs.Counting.{CountsSteps};
ghost use Rattle.satp_loop.specs.Peers.{PeerReplies};
ghost use Rattle.satp_serve.specs.GatewayReplies.{RepliesAt, site_view};

use satp_base::Site;

/// Over whatever calls a wire goes on, no count falls, and a count of faults that rose has a cause: no memory was found, or a second connection was refused.
pub fn law_counts<S: Site>()
    ensures { CountsSteps (PeerReplies (RepliesAt (site_view S.told S.book S.faults) S.beside)) }
{}
