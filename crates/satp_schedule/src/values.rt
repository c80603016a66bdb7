ghost use Rattle.std.specs.Prelude.{◌≡◌, ℕ, true, nat_le, decimal, IfSome, Some};
ghost use Rattle.satp_base.specs.Numbers.{greatest_number};
ghost use Rattle.satp_schedule.specs.Lines.{is_count, side_text};
ghost use Rattle.satp_schedule.specs.Verbs.{verb_text};
ghost use Rattle.satp_schedule.specs.declared.line.Side.{Side};
ghost use Rattle.satp_schedule.specs.declared.verb.Verb.{Verb};

use crate::line::Side;
use crate::verb::Verb;
use satp_base::read_number;

pub(crate) fn verb_of(field: &[u8]) -> Option<Verb>
    ensures sound { IfSome result (λ verb. field.now ≡ verb_text verb) }
    ensures complete { (verb : Verb) → field.now ≡ verb_text verb → result ≡ Some verb }
{
    match field {
        b"start" => Some(Verb::Start),
        b"resume" => Some(Verb::Resume),
        b"recover" => Some(Verb::Recover),
        b"abort" => Some(Verb::Abort),
        b"deliver" => Some(Verb::Deliver),
        b"stop" => Some(Verb::Stop),
        b"fail" => Some(Verb::Fail),
        b"lose" => Some(Verb::Lose),
        b"twice" => Some(Verb::Twice),
        _ => None,
    }
}

pub(crate) fn side_of(field: &[u8]) -> Option<Side>
    ensures sound { IfSome result (λ side. field.now ≡ side_text side) }
    ensures complete { (side : Side) → field.now ≡ side_text side → result ≡ Some side }
{
    match field {
        b"A" => Some(Side::A),
        b"B" => Some(Side::B),
        _ => None,
    }
}

/// A number from 1 on.
pub(crate) fn count_of(field: &[u8]) -> Option<u32>
    ensures sound { IfSome result (λ n. (is_count n ≡ true) × (field.now ≡ decimal n)) }
    ensures complete { (n : ℕ) → is_count n ≡ true → field.now ≡ decimal n → result ≡ Some n }
{
    read_number(field)
}

/// A number from 0 on.
pub(crate) fn pick_of(field: &[u8]) -> Option<u32>
    ensures sound { IfSome result (λ n. (nat_le n greatest_number ≡ true) × (field.now ≡ decimal n)) }
    ensures complete { (n : ℕ) → nat_le n greatest_number ≡ true → field.now ≡ decimal n → result ≡ Some n }
{
    if field == b"0".as_slice() {
        Some(0)
    } else {
        count_of(field)
    }
}
