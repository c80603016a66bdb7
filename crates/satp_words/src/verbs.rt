ghost use Rattle.std.specs.Prelude.{◌≡◌, ◌≢◌, None, IfSome};
ghost use Rattle.satp_words.specs.Commands.{verb_text};
ghost use Rattle.satp_words.specs.declared.verbs.Verb.{Verb};

/// The first word of a command that takes options.
#[derive(Clone, Copy, Debug, PartialEq, Eq)]
pub(crate) enum Verb {
    Check,
    Init,
    Serve,
    Start,
    Resume,
    Recover,
    Abort,
    Show,
    Replay,
    Drill,
}

/// The command that a first word names.
pub(crate) fn find_verb(word: &[u8]) -> Option<Verb>
    ensures some { IfSome result (λ verb. word.now ≡ verb_text verb) }
    ensures none { result ≡ None → (verb : Verb) → word.now ≢ verb_text verb }
{
    if word == b"check".as_slice() {
        Some(Verb::Check)
    } else if word == b"init".as_slice() {
        Some(Verb::Init)
    } else if word == b"serve".as_slice() {
        Some(Verb::Serve)
    } else if word == b"start".as_slice() {
        Some(Verb::Start)
    } else if word == b"resume".as_slice() {
        Some(Verb::Resume)
    } else if word == b"recover".as_slice() {
        Some(Verb::Recover)
    } else if word == b"abort".as_slice() {
        Some(Verb::Abort)
    } else if word == b"show".as_slice() {
        Some(Verb::Show)
    } else if word == b"replay".as_slice() {
        Some(Verb::Replay)
    } else if word == b"drill".as_slice() {
        Some(Verb::Drill)
    } else {
        None
    }
}
