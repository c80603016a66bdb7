// The lines of a session.
ghost use Rattle.std.specs.Prelude.{◌≡◌, ◌++◌, IfOk, OnOk, codes};
ghost use Rattle.satp_gateway_commands.specs.ShowLines.{decision_text, entry_text, first_lines, line, place_line, owners_text, place_lines, show_lines, state_text, terms_text, units_text};
ghost use Rattle.satp_base.specs.Values.{session_text};

use satp_base::{Entry, Kind, Memory, SessionId, Tale, Terms, Text, View, Way};
use satp_phrases::{append_number, append_session, role_text};
use std::alloc::Global;

/// What is printed of a session.
pub(crate) fn show_lines(
    alloc: Global,
    session: SessionId,
    view: &View,
    entry: Entry,
) -> Result<Text, Memory>
    ensures { IfOk result (λ lines. lines ≡ show_lines session view.now entry) }
{
    let mut lines = Text::copy(alloc, b"")?;
    add_first(&mut lines, session, view, entry)?;
    add_places(&mut lines, &view.tale)?;
    add_line(&mut lines, b"state ", state_text(&view.tale))?;
    Ok(lines)
}

/// Adds the lines in front of the chain.
fn add_first(lines: &mut Text, session: SessionId, view: &View, entry: Entry) -> Result<(), Memory>
    ensures { OnOk result (lines.new ≡ lines.old ++ first_lines session view.now entry) }
{
    add_session(lines, session)?;
    add_line(lines, b"role ", role_text(view.role))?;
    add_terms(lines, &view.terms)?;
    add_line(lines, b"entry ", entry_text(entry))?;
    add_line(lines, b"decision ", decision_text(view.way))
}

fn add_line(lines: &mut Text, word: &[u8], text: &[u8]) -> Result<(), Memory>
    ensures { OnOk result (lines.new ≡ lines.old ++ line word.now text.now) }
{
    lines.append(word)?;
    lines.append(text)?;
    lines.append(b"\n")
}

fn add_session(lines: &mut Text, session: SessionId) -> Result<(), Memory>
    ensures { OnOk result (lines.new ≡ lines.old ++ line (codes "session ") (session_text session)) }
{
    lines.append(b"session ")?;
    append_session(lines, session)?;
    lines.append(b"\n")
}

fn add_terms(lines: &mut Text, terms: &Terms) -> Result<(), Memory>
    ensures { OnOk result (lines.new ≡ lines.old ++ line (codes "terms ") (terms_text terms.now)) }
{
    lines.append(b"terms ")?;
    add_units(lines, terms)?;
    lines.append(b" from ")?;
    add_owners(lines, terms)?;
    lines.append(b"\n")
}

fn add_units(lines: &mut Text, terms: &Terms) -> Result<(), Memory>
    ensures { OnOk result (lines.new ≡ lines.old ++ units_text terms.now) }
{
    append_number(lines, terms.amount.get())?;
    lines.append(b" ")?;
    lines.append(terms.asset.bytes())
}

fn add_owners(lines: &mut Text, terms: &Terms) -> Result<(), Memory>
    ensures { OnOk result (lines.new ≡ lines.old ++ owners_text terms.now) }
{
    lines.append(terms.originator.bytes())?;
    lines.append(b" to ")?;
    lines.append(terms.beneficiary.bytes())
}

/// Adds the chain's messages, one a line.
fn add_places(lines: &mut Text, tale: &Tale) -> Result<(), Memory>
    ensures { OnOk result (lines.new ≡ lines.old ++ place_lines 1 tale.now) }
{
    let mut done = 0;
    while done < tale.length() {
        let Some(kind) = tale.kind(done + 1) else {
            unreachable!();
        };
        add_place(lines, done + 1, kind)?;
        done += 1;
    }
    Ok(())
}

fn add_place(lines: &mut Text, place: u8, kind: Kind) -> Result<(), Memory>
    ensures { OnOk result (lines.new ≡ lines.old ++ place_line place kind) }
{
    append_number(lines, place as u64)?;
    lines.append(b" ")?;
    lines.append(kind.text().as_bytes())?;
    lines.append(b"\n")
}

fn entry_text(entry: Entry) -> &'static [u8]
    ensures { result.now ≡ entry_text entry }
{
    match entry {
        Entry::Absent => b"absent",
        Entry::Locked => b"locked",
        Entry::Burnt => b"burnt",
        Entry::Minted => b"minted",
        Entry::Assigned => b"assigned",
        Entry::Released => b"released",
    }
}

fn decision_text(way: Option<Way>) -> &'static [u8]
    ensures { result.now ≡ decision_text way }
{
    match way {
        None => b"none",
        Some(Way::Commit) => b"commit",
        Some(Way::Back(_)) => b"back",
    }
}

fn state_text(tale: &Tale) -> &'static [u8]
    ensures { result.now ≡ state_text tale.now }
{
    match tale.last() {
        Some(Kind::TransferComplete) => b"committed",
        Some(Kind::RollbackAck) => b"rolled back",
        _ => b"open",
    }
}
