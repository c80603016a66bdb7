// Laws over definitions alone.
ghost use Rattle.satp_keeper.specs.Books.{OneBook, NoneRefused, GoesOn};

/// A ledger's journal leaves one book, none of its payloads is refused, and an operation that is Done goes on from its book.
pub fn law_kept()
    ensures one { OneBook }
    ensures none { NoneRefused }
    ensures on { GoesOn }
{}
