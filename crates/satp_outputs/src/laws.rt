// Laws over definitions alone.
ghost use Rattle.satp_outputs.specs.Laws.{NumbersStandOnce, NumbersStayGiven};

/// No number is used twice: not by two outputs at once, and not again once its output was taken.
pub fn law_numbers()
    ensures once { NumbersStandOnce }
    ensures given { NumbersStayGiven }
{}
