// Worlds of two gateways.
ghost use Rattle.satp_examples.specs.SafeWorlds.{WorldsThatAreSafe};

/// Worlds that keep what every world that is reached keeps, and worlds that break one part of it.
pub fn law_safe_worlds()
    ensures { WorldsThatAreSafe }
{}
