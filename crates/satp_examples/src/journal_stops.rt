// What a stop may leave of a journal.
ghost use Rattle.satp_examples.specs.JournalStops.{ImagesAtEachEvent, StopsOfAnAppend, GatesAtEachEvent, ListsAtTheGate, ImagesOfAMend, StopsOfAnOpening, StopsOfAReopening};

/// What holds at each event, and what a stop leaves at each event of an append, of an opening, and of one that follows a stop.
pub fn law_journal_stops()
    ensures each { ImagesAtEachEvent }
    ensures append { StopsOfAnAppend }
    ensures gates { GatesAtEachEvent }
    ensures lists { ListsAtTheGate }
    ensures mend { ImagesOfAMend }
    ensures opening { StopsOfAnOpening }
    ensures reopening { StopsOfAReopening }
{}
