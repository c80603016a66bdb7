// The bytes of a journal, and the events of an append and of an opening.
ghost use Rattle.satp_examples.specs.Journals.{StandsForLists, DamagedImages, RecordsSplitOff, MendableImages};

/// What images stand for, where they are damaged, and which may be mended.
pub fn law_journals()
    ensures lists { StandsForLists }
    ensures damage { DamagedImages }
    ensures records { RecordsSplitOff }
    ensures mendable { MendableImages }
{}
