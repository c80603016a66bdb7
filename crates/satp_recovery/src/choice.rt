ghost use Rattle.std.specs.Prelude.{◌≡◌, ◌≤◌, None, Some};
ghost use Rattle.satp_recovery.specs.Rounds.{agree_of, answer_of, length_fault, link_fault, take_of, unless};

use satp_base::{Head, Link};

/// Why what a peer says of its chain is refused.
#[derive(Clone, Copy, Debug, PartialEq, Eq)]
pub enum RecoveryFault {
    /// The peer's chain is longer by so many messages, which is more than can be.
    Longer { by: u8 },
    /// The peer's chain is shorter by so many messages, which is more than can be.
    Shorter { by: u8 },
    /// The links at the last place that both have differ.
    OtherHash { kept: Link, given: Link },
    /// The messages that came along aren't as many as are wanted: the first place that is wrong.
    EntryRefused { place: u8 },
}

/// What the starter does with the peer's answer.
#[derive(Clone, Copy, Debug, PartialEq, Eq)]
pub enum Step {
    /// It says its own last message, the one at this place, once more.
    Resend { place: u8 },
    /// It takes the message that came along as the one at this place.
    Adopt { place: u8 },
    /// Both chains are as long.
    Equal,
}

/// How many of this side's last messages the peer lacks, from what `recover` says of the peer's chain.
///
/// `length` is the number of the peer's messages and `last` the link of its last one. The lengths may
/// differ by one; `last` is compared where the peer has no more. `Longer` and `Shorter` come exactly where
/// they differ by more, `OtherHash` exactly where the link isn't that of the last message that both have.
pub fn answer(head: &Head, length: u8, last: Link) -> Result<u8, RecoveryFault>
    requires { head.now.length ≤ 11 }
    ensures { result ≡ answer_of head.now length last }
{
    no_farther_apart(head.length, length, 1)?;
    if length > head.length {
        return Ok(0);
    }
    if length == head.length {
        same_link(head.last, last)?;
        return Ok(0);
    }
    same_link(head.before, last)?;
    Ok(1)
}

/// What to do with a peer's answer: the peer has `length` messages, and `entries` of them came along.
///
/// The lengths may differ by one, and as many messages have to come along as the peer has more. `Longer` and
/// `Shorter` come exactly where the lengths differ by more, else `EntryRefused` exactly where it isn't that many.
pub fn take(head: &Head, length: u8, entries: usize) -> Result<Step, RecoveryFault>
    requires { head.now.length ≤ 11 }
    ensures { result ≡ take_of head.now length entries }
{
    no_farther_apart(head.length, length, 1)?;
    let needed = usize::from(length > head.length);
    if entries != needed {
        let right = needed.min(entries) as u8;
        return Err(RecoveryFault::EntryRefused {
            place: head.length + right + 1,
        });
    }
    if length > head.length {
        Ok(Step::Adopt { place: length })
    } else if length == head.length {
        Ok(Step::Equal)
    } else {
        Ok(Step::Resend { place: head.length })
    }
}

/// Whether both chains are equal, as `recover-success` says: as long, and with the same last link. `Longer`
/// and `Shorter` come exactly where they aren't as long, else `OtherHash` exactly where the links differ.
pub fn agree(head: &Head, length: u8, last: Link) -> Result<(), RecoveryFault>
    requires { head.now.length ≤ 11 }
    ensures { result ≡ agree_of head.now length last }
{
    no_farther_apart(head.length, length, 0)?;
    same_link(head.last, last)
}

/// Whether the peer's length differs from the kept one by `most` at most.
fn no_farther_apart(kept: u8, given: u8, most: u8) -> Result<(), RecoveryFault>
    requires kept { kept ≤ 11 }
    requires most { most ≤ 1 }
    ensures { result ≡ unless (length_fault most kept given) tt }
{
    if given > kept + most {
        return Err(RecoveryFault::Longer { by: given - kept });
    }
    if kept > given + most {
        return Err(RecoveryFault::Shorter { by: kept - given });
    }
    Ok(())
}

/// Whether the peer's link is the one that is kept.
fn same_link(kept: Link, given: Link) -> Result<(), RecoveryFault>
    ensures { result ≡ unless (link_fault kept given) tt }
{
    if given == kept {
        Ok(())
    } else {
        Err(RecoveryFault::OtherHash { kept, given })
    }
}
