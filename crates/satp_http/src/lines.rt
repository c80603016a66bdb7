// What the header lines of one name say.
ghost use Rattle.std.specs.Prelude.{◌≡◌, ◌&&◌, not, count_by, ◌≤◌, ◌<◌, ◌^◌, length, Some, None, if◌then◌else◌, codes};
ghost use Rattle.std.specs.List.{list_any};
ghost use Rattle.std.specs.Str.Parse.{digits_value};
ghost use Rattle.satp_http.specs.Lines.{same_word, values_of, has_other, is_length, agreed, lists};
ghost use Rattle.satp_http.specs.Agreeing.{agreed_with};
ghost use Rattle.satp_http.specs.LineLists.{lines_of};

use crate::elements;
use httparse::Header;

/// Whether two texts are the same, without regard to ASCII case.
pub(crate) fn same_word(a: &[u8], b: &[u8]) -> bool
    ensures { result ≡ same_word a.now b.now }
{
    a.eq_ignore_ascii_case(b)
}

/// How many lines have the name.
pub(crate) fn count(headers: &[Header<'_>], name: &[u8]) -> usize
    ensures { result ≡ length (values_of name.now (lines_of headers.now)) }
{
    count_named(headers, name)
}

fn count_named(headers: &[Header<'_>], name: &[u8]) -> usize
    ensures { result ≡ count_by (λ h. same_word h.name.now name.now) headers.now }
{
    headers
        .iter()
        .filter(|header| same_word(header.name.as_bytes(), name))
        .count()
}

/// Whether a line of the name says something else than the word.
pub(crate) fn has_other(headers: &[Header<'_>], name: &[u8], word: &[u8]) -> bool
    ensures { result ≡ has_other word.now (values_of name.now (lines_of headers.now)) }
{
    any_other(headers, name, word)
}

fn any_other(headers: &[Header<'_>], name: &[u8], word: &[u8]) -> bool
    ensures { result ≡ list_any (λ h. same_word h.name.now name.now && not (same_word h.value.now word.now)) headers.now }
{
    headers.iter().any(|header| same_word(header.name.as_bytes(), name)
        && !same_word(header.value, word))
}

/// Whether a line of the name lists the word.
pub(crate) fn lists(headers: &[Header<'_>], name: &[u8], word: &[u8]) -> bool
    ensures { result ≡ list_any (lists word.now) (values_of name.now (lines_of headers.now)) }
{
    any_lists(headers, name, word)
}

fn any_lists(headers: &[Header<'_>], name: &[u8], word: &[u8]) -> bool
    ensures { result ≡ list_any (λ h. same_word h.name.now name.now && lists word.now h.value.now) headers.now }
{
    headers.iter().any(|header| same_word(header.name.as_bytes(), name)
        && elements::lists(header.value, word))
}

/// The number that 1 to 19 digits write.
fn length_of(value: &[u8]) -> Option<u64>
    ensures { result ≡ (if is_length value.now then Some (digits_value 10 value.now) else None) }
{
    if value.is_empty() || value.len() > 19 {
        return None;
    }
    let mut number = 0;
    for digit in value {
        if !digit.is_ascii_digit() {
            return None;
        }
        number = number * 10 + u64::from(*digit - b'0');
    }
    Some(number)
}

/// The number that a further value writes, if it is the one that was found before.
fn agree(found: Option<u64>, value: &[u8]) -> Option<u64>
    ensures { result ≡ agreed_with found value.now }
{
    let length = length_of(value)?;
    match found {
        Some(earlier) if earlier != length => None,
        _ => Some(length),
    }
}

/// The number that all lines of Content-Length write, where they write one.
pub(crate) fn agreed(headers: &[Header<'_>]) -> Option<u64>
    ensures { result ≡ agreed (values_of (codes "content-length") (lines_of headers.now)) }
{
    let mut found = None;
    for header in headers {
        if same_word(header.name.as_bytes(), b"content-length") {
            found = Some(agree(found, header.value)?);
        }
    }
    found
}
