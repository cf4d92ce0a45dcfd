ghost use Rattle.std.specs.Prelude.{◌≡◌, ◌+◌, ◌≤◌, length};
ghost use Rattle.seq_tree.specs.Lexis.{place_after, place_past};
ghost use Rattle.token_read.specs.Places.{Fits};

use seq_tree::Place;

/// The place after a byte at this place: a line feed ends a line.
fn place_after(place: Place, byte: u8) -> Place
    requires { Fits place 1 }
    ensures { result ≡ place_after place byte }
{
    if byte == b'\n' {
        Place {
            line: place.line + 1,
            column: 1,
        }
    } else {
        Place {
            line: place.line,
            column: place.column + 1,
        }
    }
}

/// The place after these bytes, the first of which is at this place.
#[tactic(auto, using(crate::proofs::PlaceSteps::place_steps))]
pub(crate) fn place_past(place: Place, bytes: &[u8]) -> Place
    requires { Fits place (length bytes.now) }
    ensures past { result ≡ place_past place bytes.now }
    ensures line { result.line ≤ place.line + length bytes.now }
    ensures column { result.column ≤ place.column + length bytes.now }
{
    let mut past = place;
    'bytes: for byte in bytes {
        past = place_after(past, *byte);
    }
    past
}
