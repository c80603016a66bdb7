ghost use Rattle.std.specs.Prelude.{◌≡◌, ◌↔◌, IsTrue};

use satp_base::{Address, Amount, Entry, Kind, Link, Name, Role, SessionId, Terms};

// Whether a derived `==` tells that two values are one, both ways, as crates above rely on.

pub fn same_names(a: Name, b: Name) -> bool
    ensures { IsTrue result ↔ (a ≡ b) }
{
    a == b
}

pub fn same_addresses(a: Address, b: Address) -> bool
    ensures { IsTrue result ↔ (a ≡ b) }
{
    a == b
}

fn same_amounts(a: Amount, b: Amount) -> bool
    ensures { IsTrue result ↔ (a ≡ b) }
{
    a == b
}

fn same_sessions(a: SessionId, b: SessionId) -> bool
    ensures { IsTrue result ↔ (a ≡ b) }
{
    a == b
}

fn same_terms(a: Terms, b: Terms) -> bool
    ensures { IsTrue result ↔ (a ≡ b) }
{
    a == b
}

fn same_links(a: Link, b: Link) -> bool
    ensures { IsTrue result ↔ (a ≡ b) }
{
    a == b
}

fn same_kinds(a: Kind, b: Kind) -> bool
    ensures { IsTrue result ↔ (a ≡ b) }
{
    a == b
}

fn same_roles(a: Role, b: Role) -> bool
    ensures { IsTrue result ↔ (a ≡ b) }
{
    a == b
}

fn same_entries(a: Entry, b: Entry) -> bool
    ensures { IsTrue result ↔ (a ≡ b) }
{
    a == b
}
