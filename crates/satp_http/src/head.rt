// What both sides look for at the front of the bytes.
ghost use Rattle.std.specs.Prelude.{◌≡◌};
ghost use Rattle.satp_http.specs.Found.{behind_empty_lines, line_feeds, has_many_lines};
ghost use Rattle.satp_http.specs.HttpText.{window};

use crate::HttpFault;

/// The most bytes of a head, and of a body.
pub(crate) const LONGEST: usize = 8192;

/// The most header lines of a head.
pub(crate) const MOST_LINES: usize = 64;

/// No head yet, a fault, or a head, with the place where it ends.
#[derive(Clone, Copy)]
pub(crate) enum Found<F> {
    More,
    Fault(HttpFault),
    Head(usize, F),
}

/// The bytes in which a head has to end.
pub(crate) fn window(held: &[u8]) -> &[u8]
    ensures { result.now ≡ window held.now }
{
    if held.len() > LONGEST {
        return &held[..LONGEST];
    }
    held
}

/// The bytes behind the empty lines that may stand before a head.
fn behind_empty_lines(mut bytes: &[u8]) -> &[u8]
    ensures { result.now ≡ behind_empty_lines bytes.now }
{
    while let [b'\n', rest @ ..] | [b'\r', b'\n', rest @ ..] = bytes {
        bytes = rest;
    }
    bytes
}

fn line_feeds(bytes: &[u8]) -> usize
    ensures { result ≡ line_feeds bytes.now }
{
    bytes.iter().filter(|byte| **byte == b'\n').count()
}

/// Whether more header lines than a head may have are whole in bytes that begin one. The parser may
/// wait for the end of such a head, and then the fault would come in some cuttings and not in others.
pub(crate) fn has_many_lines(part: &[u8]) -> bool
    ensures { result ≡ has_many_lines part.now }
{
    line_feeds(behind_empty_lines(part)) > MOST_LINES + 1
}
