// The events of an append and of an opening.
ghost use Rattle.satp_examples.specs.Segments.{EventsOfAnAppend, EventsOfAnOpening};

/// The four events of an append, those of an opening, and what a stop or a failure leaves of the former.
pub fn law_segments()
    ensures append { EventsOfAnAppend }
    ensures opening { EventsOfAnOpening }
{}
