// What is to go wrong in the next command.

use satp_loop::Troubles;
use satp_schedule::Side;

/// What is to go wrong at the site of a side in the next command.
#[derive(Clone, Copy)]
pub(crate) enum SiteTrouble {
    /// It stops after so many events, and leaves that pick of its disk.
    Stop { event: u32, pick: u32 },
    /// The call of that number fails.
    Fail { call: u32 },
}

/// What is to go wrong in the next command.
#[derive(Clone, Copy)]
pub(crate) struct Pending {
    side: Side,
    site: Option<SiteTrouble>,
    messages: Troubles,
}

impl Pending {
    /// Nothing.
    pub(crate) fn none() -> Pending {
        Pending {
            side: Side::A,
            site: None,
            messages: Troubles {
                lost: None,
                twice: None,
            },
        }
    }

    /// The same, and this at the site of a side, in place of what was to go wrong at a site.
    pub(crate) fn at_site(self, side: Side, trouble: SiteTrouble) -> Pending {
        Pending {
            side,
            site: Some(trouble),
            messages: self.messages,
        }
    }

    /// The same, and the message of this number is lost.
    pub(crate) fn losing(self, number: u32) -> Pending {
        Pending {
            side: self.side,
            site: self.site,
            messages: Troubles {
                lost: Some(number),
                twice: self.messages.twice,
            },
        }
    }

    /// The same, and the message of this number comes twice.
    pub(crate) fn repeating(self, number: u32) -> Pending {
        Pending {
            side: self.side,
            site: self.site,
            messages: Troubles {
                lost: self.messages.lost,
                twice: Some(number),
            },
        }
    }

    /// What is to go wrong at the site of this side.
    pub(crate) fn of_site(self, side: Side) -> Option<SiteTrouble> {
        if side == self.side { self.site } else { None }
    }

    /// Which messages are to go wrong.
    pub(crate) fn of_messages(self) -> Troubles {
        self.messages
    }
}
