use crate::journals::journal;
use satp_base::{Memory, Role, Text, Texts};
use std::alloc::Global;

/// A change at one index of a journal.
#[derive(Clone, Copy, Debug, PartialEq, Eq)]
pub enum Change {
    /// None.
    Nothing,
    /// The payload is missing.
    Missing,
    /// It stands twice.
    Doubled,
    /// It stands after the next one.
    Exchanged,
    /// The set-up stands before it once more.
    SetUpAgain,
    /// It is that of the same journal under another key.
    OtherKey,
    /// It is that of the journal of the other role.
    OtherRole,
}

/// A journal, the same under another key, and that of the other role.
#[derive(Drop)]
pub struct Journals {
    pub own: Texts,
    pub other_key: Texts,
    pub other_role: Texts,
}

const KEY: &[u8; 32] = &[7; 32];

const OTHER_KEY: &[u8; 32] = &[8; 32];

fn other(role: Role) -> Role {
    match role {
        Role::Origin => Role::Recipient,
        Role::Recipient => Role::Origin,
    }
}

impl Journals {
    pub fn of(alloc: Global, role: Role) -> Option<Journals> {
        Some(Journals {
            own: journal(alloc, KEY, role)?,
            other_key: journal(alloc, OTHER_KEY, role)?,
            other_role: journal(alloc, KEY, other(role))?,
        })
    }

    /// The payload that a change puts into the place of the own one.
    pub fn replaced(&self, change: Change, index: usize) -> Option<&Text> {
        match change {
            Change::OtherKey => self.other_key.get(index),
            Change::OtherRole => self.other_role.get(index),
            _ => self.own.get(index),
        }
    }

    /// The payload at an index of the changed journal.
    fn payload(&self, change: Change, at: usize, index: usize) -> Option<&Text> {
        if index == at {
            match change {
                Change::Missing | Change::Exchanged => self.own.get(index.saturating_add(1)),
                Change::SetUpAgain => self.own.get(0),
                _ => self.replaced(change, index),
            }
        } else if index > at {
            match change {
                Change::Missing => self.own.get(index.saturating_add(1)),
                Change::Doubled | Change::SetUpAgain => self.own.get(index.saturating_sub(1)),
                Change::Exchanged if index == at.saturating_add(1) => self.own.get(at),
                _ => self.own.get(index),
            }
        } else {
            self.own.get(index)
        }
    }

    /// The changed journal.
    pub fn changed(&self, alloc: Global, change: Change, at: usize) -> Option<Texts> {
        let mut payloads = Texts::new(alloc);
        match self.add_changed(alloc, change, at, &mut payloads) {
            Ok(()) => Some(payloads),
            Err(Memory) => None,
        }
    }

    fn add_changed(
        &self,
        alloc: Global,
        change: Change,
        at: usize,
        payloads: &mut Texts,
    ) -> Result<(), Memory> {
        for index in 0..=self.own.length() {
            match self.payload(change, at, index) {
                Some(payload) => push_copy(alloc, payloads, payload)?,
                None => return Ok(()),
            }
        }
        Ok(())
    }
}

fn push_copy(alloc: Global, payloads: &mut Texts, payload: &Text) -> Result<(), Memory> {
    let copy = Text::copy(alloc, payload.bytes())?;
    match payloads.push(copy) {
        Ok(()) => Ok(()),
        Err(_) => Err(Memory),
    }
}
