ghost use Rattle.std.specs.Prelude.{◌≡◌, ◌∷◌, []};
ghost use Rattle.seq_tree.specs.Marks.{mark_of};

use seq_tree::Mark;

/// The mark of one byte.
#[tactic(auto, using(crate::proofs::Shared::MarkLaws::one_byte), unfolding(crate::proofs::Shared::MarkLaws::single))]
pub(crate) fn single(byte: u8) -> Option<Mark>
    ensures { result ≡ mark_of (byte ∷ []) }
{
    match byte {
        b'(' => Some(Mark::LeftParen),
        b')' => Some(Mark::RightParen),
        b',' => Some(Mark::Comma),
        b';' => Some(Mark::Semicolon),
        b':' => Some(Mark::Colon),
        b'.' => Some(Mark::Dot),
        b'=' => Some(Mark::Equal),
        b'<' => Some(Mark::Less),
        b'>' => Some(Mark::Greater),
        b'+' => Some(Mark::Plus),
        b'-' => Some(Mark::Minus),
        b'*' => Some(Mark::Star),
        b'/' => Some(Mark::Slash),
        _ => None,
    }
}

/// The mark of two bytes.
#[tactic(auto, using(crate::proofs::Shared::MarkLaws::two_bytes), unfolding(crate::proofs::Shared::MarkLaws::double))]
pub(crate) fn double(first: u8, second: u8) -> Option<Mark>
    ensures { result ≡ mark_of (first ∷ second ∷ []) }
{
    match (first, second) {
        (b'.', b'.') => Some(Mark::DotDot),
        (b':', b'=') => Some(Mark::Becomes),
        (b'/', b'=') => Some(Mark::NotEqual),
        (b'<', b'=') => Some(Mark::LessEqual),
        (b'>', b'=') => Some(Mark::GreaterEqual),
        (b'*', b'*') => Some(Mark::StarStar),
        _ => None,
    }
}
