// A journal on a disk.
ghost use Rattle.satp_examples.specs.Appending.{AnswersToAppends, AnswersToOpenings, ListsOfBytes, AreasAtRest, ImagesOfAnAppend, GatesOfAnAppend};

/// What a journal answers where it is opened and appended to, areas at rest, and images within an append.
pub fn law_kept_journals()
    ensures appends { AnswersToAppends }
    ensures openings { AnswersToOpenings }
    ensures lists { ListsOfBytes }
    ensures rests { AreasAtRest }
    ensures within { ImagesOfAnAppend }
    ensures gates { GatesOfAnAppend }
{}
