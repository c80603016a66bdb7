// What came of the connections that were served.
ghost use Rattle.std.specs.Prelude.{◌≡◌, ◌<◌, ◌+◌, ◌-◌, ◌^◌};
ghost use Rattle.satp_peer_commands.specs.Serving.{fault_of};

use satp_serve::{Connection, ConnectionEnd};

/// How many requests were handed to the gateway, and how many connections a fault of the wire ended.
#[derive(Clone, Copy, Debug, PartialEq, Eq)]
pub(crate) struct Tally {
    pub requests: u64,
    pub faults: u32,
}

impl Tally {
    /// Counts a connection.
    pub(crate) fn add(&mut self, connection: Connection)
        requires requests { self.old.requests < 2 ^ 63 }
        requires faults { self.old.faults < 2 ^ 32 - 1 }
        ensures requests { self.new.requests ≡ self.old.requests + connection.requests }
        ensures faults { self.new.faults ≡ self.old.faults + fault_of connection }
    {
        self.requests += connection.requests as u64;
        if connection.end == ConnectionEnd::Wire {
            self.faults += 1;
        }
    }
}
