ghost use Rattle.std.specs.Prelude.{◌≡◌, false, ◌≤◌, [], ◌∷◌, MatchOption, length};
ghost use Rattle.seq_tree.specs.Lexis.{goes_on, is_name, longest};
ghost use Rattle.seq_tree.specs.Parts.{is_part};

/// The bytes that a run is made of.
#[derive(Clone, Copy, Debug, PartialEq, Eq)]
pub enum Part {
    /// An ASCII letter or digit, as in a name.
    LetterOrDigit,
    /// An ASCII digit, as in a number.
    Digit,
}

impl Part {
    fn takes(self, byte: u8) -> bool
        ensures { result ≡ is_part self byte }
    {
        match self {
            Part::LetterOrDigit => byte.is_ascii_alphanumeric(),
            Part::Digit => byte.is_ascii_digit(),
        }
    }
}

/// The first byte and the rest, where there is one.
fn first_and_rest(bytes: &[u8]) -> Option<(u8, &[u8])>
    ensures { MatchOption result (bytes.now ≡ []) (λ p. bytes.now ≡ p.0 ∷ p.1.now) }
{
    match bytes.split_first() {
        None => None,
        Some((first, rest)) => Some((*first, rest)),
    }
}

/// The length of the longest front of such parts with single underscores between them, in bytes; 0 where the first byte is
/// no such part.
#[tactic(auto, using(crate::proofs::Shared::Longest::run_steps))]
pub fn run_len(part: Part, bytes: &[u8]) -> usize
    ensures within { result ≤ length bytes.now }
    ensures longest { result ≡ longest (goes_on (is_part part) false) bytes.now }
{
    let mut rest = bytes;
    let mut len = 0;
    let mut under = false;
    'run: while let Some((first, tail)) = first_and_rest(rest) {
        if part.takes(first) {
            len += if under { 2 } else { 1 };
            under = false;
        } else if first == b'_' && !under {
            under = true;
        } else {
            break;
        }
        rest = tail;
    }
    len
}

/// Whether bytes are one name: a letter, then letters and digits, with single underscores between them.
#[tactic(auto, using(crate::proofs::Shared::Longest::whole_runs))]
pub(crate) fn is_name(bytes: &[u8]) -> bool
    ensures { result ≡ is_name bytes.now }
{
    match first_and_rest(bytes) {
        None => false,
        Some((first, rest)) => {
            first.is_ascii_alphabetic() && run_len(Part::LetterOrDigit, rest) == rest.len()
        }
    }
}
