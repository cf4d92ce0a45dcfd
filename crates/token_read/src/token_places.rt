ghost use Rattle.std.specs.Prelude.{◌≡◌, ◌≤◌, List, Ok, length, slice_get};
ghost use Rattle.seq_tree.specs.Lexis.{tokens};
ghost use Rattle.seq_tree.specs.declared.token.Spanned.{Spanned};
ghost use Rattle.token_read.specs.Places.{passed, place_or};
ghost use Rattle.seq_tree.specs.Limits.{ada_limit};

use crate::fronts::{Front, front_of};
use crate::places::place_past;
use seq_tree::Place;

/// How many tokens stand before the one that is sought behind what stands here; none where it is this token.
fn passed(others: usize, is_token: bool) -> Option<usize>
    ensures { result ≡ passed others is_token }
{
    if is_token {
        others.checked_sub(1)
    } else {
        Some(others)
    }
}

/// The place of the token that stands behind so many others in a text, or of the end of the text where there is none.
///
/// The text has at most 16,777,216 bytes and no fault; lines and columns count from 1, columns in bytes.
#[tactic(auto, using(crate::proofs::PlaceWalk::walk_steps))]
pub fn place_behind(bytes: &[u8], before: usize) -> Place
    requires { length bytes.now ≤ ada_limit }
    ensures { (found : List Spanned) → tokens bytes.now ≡ Ok found → result ≡ place_or bytes.now (slice_get found before) }
{
    let mut others = before;
    let mut left = bytes;
    let mut place = Place { line: 1, column: 1 };
    'tokens: while let Some((first, rest)) = left.split_first() {
        let Ok(Front { token, len }) = front_of(place, left, *first, rest) else {
            return place;
        };
        let Some(before_rest) = passed(others, token.is_some()) else {
            return place;
        };
        others = before_rest;
        let (front, after) = left.split_at(len);
        place = place_past(place, front);
        left = after;
    }
    place
}
