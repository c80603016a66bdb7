ghost use Rattle.std.specs.Prelude.{◌≡◌, ◌≢◌, ℕ, length, IfOk};
ghost use Rattle.satp_base.specs.declared.area.Area.{Area};
ghost use Rattle.satp_memory.specs.Areas.{bytes_in};
ghost use Rattle.satp_memory.specs.Picks.{Fills, Picks};

use crate::areas::Areas;
use std::alloc::{AllocError, Global};

/// What a stop leaves of three areas by a pick.
pub fn pick_areas(
    alloc: Global,
    base: &Areas,
    now: &Areas,
    marks: &Areas,
    pick: u32,
) -> Result<Areas, AllocError>
    requires { (a : Area) → length (bytes_in marks.now a) ≡ length (bytes_in now.now a) }
    ensures { IfOk result (λ areas. (a : Area) → Picks (bytes_in base.now a) (bytes_in now.now a) (bytes_in marks.now a) pick (bytes_in areas a)) }
{
    Ok(Areas {
        journal_a: picked(
            alloc,
            &base.journal_a,
            &now.journal_a,
            &marks.journal_a,
            pick,
        )?,
        journal_b: picked(
            alloc,
            &base.journal_b,
            &now.journal_b,
            &marks.journal_b,
            pick,
        )?,
        ledger: picked(alloc, &base.ledger, &now.ledger, &marks.ledger, pick)?,
    })
}

/// The bytes of the last sync by pick 0, those of now by pick 1, and else those of now with the marked ones filled.
fn picked(
    alloc: Global,
    base: &[u8],
    now: &[u8],
    marks: &[u8],
    pick: u32,
) -> Result<Vec<u8>, AllocError>
    requires { length marks.now ≡ length now.now }
    ensures { IfOk result (λ image. Picks base.now now.now marks.now pick image.items) }
{
    if pick == 0 {
        return Vec::from_slice(alloc, base);
    }
    if pick == 1 {
        return Vec::from_slice(alloc, now);
    }
    filled(alloc, now, marks, (pick % 256) as u8)
}

fn filled(alloc: Global, now: &[u8], marks: &[u8], byte: u8) -> Result<Vec<u8>, AllocError>
    requires { length marks.now ≡ length now.now }
    ensures { IfOk result (λ image. Fills now.now marks.now byte image.items) }
{
    let mut image = Vec::from_slice(alloc, now)?;
    for index in 0..now.len() {
        image[index] = choice(marks[index], now[index], byte);
    }
    Ok(image)
}

fn choice(mark: u8, old: u8, new: u8) -> u8
    ensures clear { mark ≡ 0 → result ≡ old }
    ensures set { mark ≢ 0 → result ≡ new }
{
    if mark == 0 { old } else { new }
}
