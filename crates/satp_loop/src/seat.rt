// A gateway at its site.

use satp_gateway::Gateway;

/// A gateway and the site that it works at.
#[derive(Drop)]
pub struct Seat<S> {
    pub gateway: Gateway,
    pub site: S,
}
