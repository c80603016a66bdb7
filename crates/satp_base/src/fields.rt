ghost use Rattle.std.specs.Prelude.{◌≡◌, ◌==◌, ◌<◌, ◌∷◌, ◌++◌, true, length, position, IfSome, MatchOption};
ghost use Rattle.satp_base.specs.Lines.{lacks};

/// The first space.
fn space(line: &[u8]) -> Option<usize>
    ensures first { result ≡ position (λ byte. byte == 32) line.now }
    ensures within { IfSome result (λ at. at < length line.now) }
{
    line.iter().position(|byte| *byte == b' ')
}

/// The first field of a line whose fields are parted by one space, and the line behind that space, if there is one.
pub fn cut_field(line: &[u8]) -> (&[u8], Option<&[u8]>)
    ensures field { lacks 32 result.0.now ≡ true }
    ensures whole { MatchOption result.1
        (line.now ≡ result.0.now)
        (λ rest. line.now ≡ result.0.now ++ 32 ∷ rest.now) }
{
    match space(line) {
        Some(at) => (&line[..at], Some(&line[at + 1..])),
        None => (line, None),
    }
}
