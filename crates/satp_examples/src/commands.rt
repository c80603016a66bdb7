// Commands that read a text and print lines.
ghost use Rattle.satp_examples.specs.Commands.{BytesOfACommand, EndsOfACommand, LinesAndStatuses};

/// What a command reads and prints, how it ends, and its line and status.
pub fn law_commands()
    ensures bytes { BytesOfACommand }
    ensures ends { EndsOfACommand }
    ensures lines { LinesAndStatuses }
{}
