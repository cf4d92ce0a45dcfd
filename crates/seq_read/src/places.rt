ghost use Rattle.std.specs.Prelude.{◌≡◌, ◌≤◌, List, Ok, length};
ghost use Rattle.seq_tree.specs.Lexis.{tokens};
ghost use Rattle.seq_tree.specs.declared.token.Spanned.{Spanned};
ghost use Rattle.token_read.specs.Ahead.{ahead};
ghost use Rattle.seq_read.specs.Places.{place_at};
ghost use Rattle.seq_tree.specs.Limits.{ada_limit};

use seq_tree::Place;
use token_read::{Tokens, place_behind};

/// The place of the first of the last `left` tokens of a text that has so many as `read`, or the end of the text where there is none.
/// The text is gone through again up to there.
///
/// The text has at most 16,777,216 bytes; lines and columns count from 1, columns in bytes.
pub fn place_of(bytes: &[u8], read: Tokens, left: usize) -> Place
    requires { length bytes.now ≤ ada_limit }
    ensures { (found : List Spanned) → tokens bytes.now ≡ Ok found → length found ≡ length (ahead read.entry)
        → result ≡ place_at bytes.now found left }
{
    place_behind(bytes, read.len().saturating_sub(left))
}
