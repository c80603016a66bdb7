// The kinds of a chain's messages in their order.
ghost use Rattle.satp_examples.specs.Tales.{ThreeForms, EndsOfTales};

/// The three forms of a tale, and how a session has ended.
pub fn law_tales()
    ensures forms { ThreeForms }
    ensures ends { EndsOfTales }
{}
