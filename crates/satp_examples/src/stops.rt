// The steps of a site, and where it may stop.
ghost use Rattle.satp_examples.specs.Stops.{StepsOfASite, PointsOfAStop, ImagesOfTheNextAppend};

/// The events and calls of a site's steps, and what stands where it stops.
pub fn law_site_steps()
    ensures steps { StepsOfASite }
    ensures points { PointsOfAStop }
    ensures next { ImagesOfTheNextAppend }
{}
