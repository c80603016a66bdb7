// Laws of how commands end.
ghost use Rattle.satp_app.specs.OneEnd.{OneAnswer, OneCheck, OneInit, OneReplay, OneSignedCheck};

/// Where the input is told, for `init` the site too, no count of faults stands at its end and memory sufficed, a command that reads its input ends in one way. The law makes no call.
pub fn law_one_end()
    ensures answer { OneAnswer }
    ensures check { OneCheck }
    ensures signed { OneSignedCheck }
    ensures init { OneInit }
    ensures replay { OneReplay }
{}
