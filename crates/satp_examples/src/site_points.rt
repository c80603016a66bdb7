// The points at which a site may stand within its steps.
ghost use Rattle.satp_examples.specs.SitePoints.{PointsOfSteps, PointsAtRest, SomePointOfSteps, SomePointAtRest, FailuresOfSteps};

/// What stands behind the events of some steps, and what is told where one of them failed.
pub fn law_site_points()
    ensures points { PointsOfSteps }
    ensures rests { PointsAtRest }
    ensures some { SomePointOfSteps }
    ensures some_at_rest { SomePointAtRest }
    ensures failures { FailuresOfSteps }
{}
