use crate::line::Side;
use crate::values::{count_of, pick_of, side_of, verb_of};
use crate::verb::Verb;
use satp_base::{Amount, Name, SessionId, cut_field};
use std::marker::Model;

/// The fields of a line that aren't read yet.
#[derive(Drop)]
pub(crate) struct Fields<'a> {
    rest: Option<&'a [u8]>,
}

impl<'a> Model for Fields<'a> {
    ghost use Rattle.std.specs.Prelude.{List, ℕ};
    ghost use Rattle.satp_schedule.specs.Fields.{fields_in};

    ghost Value = { List (List ℕ) };

    ghost view = { λ f. fields_in f.rest };
}

impl<'a> Fields<'a> {
    ghost use Rattle.std.specs.Prelude.{◌≡◌, ◌≢◌, ◌∷◌, [], MatchBool, true, ℕ, List, nat_le, decimal, MatchOption};
    ghost use Rattle.satp_base.specs.Numbers.{greatest_number};
    ghost use Rattle.satp_base.specs.Values.{name_text, amount_text, session_text};
    ghost use Rattle.satp_base.specs.declared.amount.Amount.{Amount};
    ghost use Rattle.satp_base.specs.declared.name.Name.{Name};
    ghost use Rattle.satp_base.specs.declared.session.SessionId.{SessionId};
    ghost use Rattle.satp_schedule.specs.Fields.{cut_fields};
    ghost use Rattle.satp_schedule.specs.Lines.{is_count, side_text};
    ghost use Rattle.satp_schedule.specs.Verbs.{verb_text};
    ghost use Rattle.satp_schedule.specs.declared.line.Side.{Side};
    ghost use Rattle.satp_schedule.specs.declared.verb.Verb.{Verb};

    pub(crate) fn new(line: &'a [u8]) -> Fields<'a>
        ensures { result ≡ cut_fields line.now }
    {
        Fields { rest: Some(line) }
    }

    /// Whether all are read.
    pub(crate) fn is_empty(&self) -> bool
        ensures { MatchBool result (self.now ≡ []) (self.now ≢ []) }
    {
        self.rest.is_none()
    }

    fn next(&mut self) -> Option<&'a [u8]>
        ensures { MatchOption result (self.old ≡ []) (λ field. self.old ≡ field.now ∷ self.new) }
    {
        let (field, rest) = cut_field(self.rest?);
        self.rest = rest;
        Some(field)
    }

    pub(crate) fn verb(&mut self) -> Option<Verb>
        ensures { MatchOption result
            ((verb : Verb) (rest : List (List ℕ)) → self.old ≢ verb_text verb ∷ rest)
            (λ verb. self.old ≡ verb_text verb ∷ self.new) }
    {
        verb_of(self.next()?)
    }

    pub(crate) fn side(&mut self) -> Option<Side>
        ensures { MatchOption result
            ((side : Side) (rest : List (List ℕ)) → self.old ≢ side_text side ∷ rest)
            (λ side. self.old ≡ side_text side ∷ self.new) }
    {
        side_of(self.next()?)
    }

    /// A number from 1 on.
    pub(crate) fn count(&mut self) -> Option<u32>
        ensures { MatchOption result
            ((n : ℕ) (rest : List (List ℕ)) → is_count n ≡ true → self.old ≢ decimal n ∷ rest)
            (λ n. (is_count n ≡ true) × (self.old ≡ decimal n ∷ self.new)) }
    {
        count_of(self.next()?)
    }

    /// A number from 0 on.
    pub(crate) fn pick(&mut self) -> Option<u32>
        ensures { MatchOption result
            ((n : ℕ) (rest : List (List ℕ)) → nat_le n greatest_number ≡ true → self.old ≢ decimal n ∷ rest)
            (λ n. (nat_le n greatest_number ≡ true) × (self.old ≡ decimal n ∷ self.new)) }
    {
        pick_of(self.next()?)
    }

    pub(crate) fn name(&mut self) -> Option<Name>
        ensures { MatchOption result
            ((name : Name) (rest : List (List ℕ)) → self.old ≢ name_text name ∷ rest)
            (λ name. self.old ≡ name_text name ∷ self.new) }
    {
        Name::read(self.next()?).ok()
    }

    pub(crate) fn amount(&mut self) -> Option<Amount>
        ensures { MatchOption result
            ((amount : Amount) (rest : List (List ℕ)) → self.old ≢ amount_text amount ∷ rest)
            (λ amount. self.old ≡ amount_text amount ∷ self.new) }
    {
        Amount::read(self.next()?).ok()
    }

    pub(crate) fn session(&mut self) -> Option<SessionId>
        ensures { MatchOption result
            ((session : SessionId) (rest : List (List ℕ)) → self.old ≢ session_text session ∷ rest)
            (λ session. self.old ≡ session_text session ∷ self.new) }
    {
        SessionId::read(self.next()?).ok()
    }
}
