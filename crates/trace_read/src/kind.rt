ghost use Rattle.std.specs.Prelude.{◌≡◌};
ghost use Rattle.trace_read.specs.Reading.{kind_of};

/// What happens, by the second word of a line.
#[derive(Clone, Copy)]
pub(crate) enum Kind {
    Release,
    Arrive,
    Enter,
    Leave,
    Request,
    Print,
    End,
    Stop,
    Horizon,
}

/// What a word says that happens.
#[tactic(auto, unfolding(crate::specs::Reading::kind_of))]
pub(crate) fn kind_of(word: &[u8]) -> Option<Kind>
    ensures { result ≡ kind_of word.now }
{
    if word == b"release".as_slice() {
        Some(Kind::Release)
    } else if word == b"arrive".as_slice() {
        Some(Kind::Arrive)
    } else if word == b"enter".as_slice() {
        Some(Kind::Enter)
    } else if word == b"leave".as_slice() {
        Some(Kind::Leave)
    } else if word == b"request".as_slice() {
        Some(Kind::Request)
    } else if word == b"put".as_slice() {
        Some(Kind::Print)
    } else if word == b"end".as_slice() {
        Some(Kind::End)
    } else if word == b"stop".as_slice() {
        Some(Kind::Stop)
    } else if word == b"horizon".as_slice() {
        Some(Kind::Horizon)
    } else {
        None
    }
}
