ghost use Rattle.std.specs.Prelude.{◌≡◌, ◌↔◌, IsTrue};
ghost use Rattle.satp_plan.specs.Outlines.{IsIndexOf};
ghost use Rattle.satp_plan.specs.declared.planning.Making.{Making as MakingOf};
ghost use Rattle.satp_plan.specs.declared.planning.Note.{Note as NoteOf};

use crate::planning::{Making, Note};
use satp_base::{Part, Rec, Role, Terms};

/// The index of a note of this record; none where no note is of it.
pub(crate) fn note_index(notes: &[Note], rec: &Rec) -> Option<usize>
    ensures { IsIndexOf (λ (note : NoteOf). note.rec) notes.now rec.now result }
{
    for index in 0..notes.len() {
        if is_same_rec(&notes[index].rec, rec) {
            return Some(index);
        }
    }
    None
}

// By cases, so that each comparison is one of plain values.
fn is_same_rec(a: &Rec, b: &Rec) -> bool
    ensures { IsTrue result ↔ (a.now ≡ b.now) }
{
    match *a {
        Rec::Began(role, terms) => begins(b, role, terms),
        Rec::Took(kind) => matches!(*b, Rec::Took(other) if other == kind),
        Rec::Made(kind) => matches!(*b, Rec::Made(other) if other == kind),
        Rec::Did(op) => matches!(*b, Rec::Did(other) if other == op),
        Rec::Chose(way) => matches!(*b, Rec::Chose(other) if other == way),
        Rec::Rescue => matches!(*b, Rec::Rescue),
    }
}

fn begins(rec: &Rec, role: Role, terms: Terms) -> bool
    ensures { IsTrue result ↔ (Rec.Began role terms ≡ rec.now) }
{
    match *rec {
        Rec::Began(other, others) => role == other && is_same_terms(terms, others),
        _ => false,
    }
}

fn is_same_terms(a: Terms, b: Terms) -> bool
    ensures { IsTrue result ↔ (a ≡ b) }
{
    a == b
}

/// The index of a message with this part; none where none has it.
pub(crate) fn making_index(makings: &[Making], part: &Part) -> Option<usize>
    ensures { IsIndexOf (λ (making : MakingOf). making.part) makings.now part.now result }
{
    for index in 0..makings.len() {
        if is_same_part(&makings[index].part, part) {
            return Some(index);
        }
    }
    None
}

fn is_same_part(a: &Part, b: &Part) -> bool
    ensures { IsTrue result ↔ (a.now ≡ b.now) }
{
    match *a {
        Part::Proposal(terms) => proposes(b, terms),
        Part::Plain(kind) => matches!(*b, Part::Plain(other) if other == kind),
        Part::Reject(reason) => matches!(*b, Part::Reject(other) if other == reason),
    }
}

fn proposes(part: &Part, terms: Terms) -> bool
    ensures { IsTrue result ↔ (Part.Proposal terms ≡ part.now) }
{
    match *part {
        Part::Proposal(others) => is_same_terms(terms, others),
        _ => false,
    }
}
