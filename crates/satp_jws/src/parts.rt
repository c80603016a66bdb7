ghost use Rattle.std.specs.Prelude.{◌≡◌, ◌<◌, ◌≤◌, count_by, position, length, IfSome};
ghost use Rattle.std.specs.List.{before_first, after_first};
ghost use Rattle.satp_jws.specs.Faults.{is_stop, parts_of};

/// How many parts the full stops of a text make.
pub fn part_count(text: &[u8]) -> usize
    ensures { result ≡ length (parts_of text.now) }
{
    stop_count(text) + 1
}

/// What stands before the first full stop; all, where there is none.
pub fn before_stop(text: &[u8]) -> &[u8]
    ensures { result.now ≡ before_first is_stop text.now }
{
    match first_stop(text) {
        Some(stop) => &text[..stop],
        None => text,
    }
}

/// What stands behind the first full stop; nothing, where there is none.
pub fn behind_stop(text: &[u8]) -> &[u8]
    ensures { result.now ≡ after_first is_stop text.now }
{
    match first_stop(text) {
        Some(stop) => &text[stop + 1..],
        None => &[],
    }
}

fn first_stop(text: &[u8]) -> Option<usize>
    ensures stop { result ≡ position is_stop text.now }
    ensures within { IfSome result (λ stop. stop < length text.now) }
{
    text.iter().position(|byte| *byte == b'.')
}

fn stop_count(text: &[u8]) -> usize
    ensures count { result ≡ count_by is_stop text.now }
    ensures within { result ≤ length text.now }
{
    text.iter().filter(|byte| **byte == b'.').count()
}
