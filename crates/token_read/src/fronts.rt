ghost use Rattle.std.specs.Prelude.{◌≡◌, ◌+◌, ◌<◌, ◌≤◌, ◌∷◌, [], false, IfErr, IfOk, length};
ghost use Rattle.std.specs.List.{prefix_len};
ghost use Rattle.std.specs.Char.{is_ascii_alphanumeric};
ghost use Rattle.seq_tree.specs.Lexis.{Other, front_by, goes_on, is_not_line_feed, is_space, longest, mark_front, name_front, number_front, start_of};
ghost use Rattle.seq_tree.specs.Marks.{mark_of};
ghost use Rattle.token_read.specs.Fronts.{begins_under, front_view, start_view};
ghost use Rattle.token_read.specs.Outcomes.{Gives};
ghost use Rattle.token_read.specs.Places.{Fits};

use crate::fault::LexFault;
use crate::lexemes::{Lexeme, Raw, Word};
use crate::marks::{double, single};
use crate::numbers::number_value;
use crate::places::place_past;
use seq_tree::{Part, Place, run_len};

/// What stands at the front of a text: a token, or white space or a comment, and its length in bytes.
#[derive(Clone, Copy, Debug)]
pub(crate) struct Front<'a> {
    pub token: Option<Lexeme<'a>>,
    pub len: usize,
}

/// The name with these bytes at a place.
#[inline(always)]
#[tactic(auto, unfolding(seq_tree::specs::Lexis::name_front))]
fn name_front<'a>(place: Place, name: &'a [u8]) -> Result<Front<'a>, LexFault>
    requires { 0 < length name.now }
    ensures name { Gives front_view result (name_front place name.entry.now) }
    ensures len { IfOk result (λ f. f.len ≡ length name.entry.now) }
    ensures ample { IfErr result (λ e. e ≡ LexFault.NoMemory → ⊥) }
{
    if name.len() > 64 {
        return Err(LexFault::Long(place));
    }
    Ok(Front {
        token: Some(Lexeme::Word(Word::Raw(Raw::of(name)))),
        len: name.len(),
    })
}

/// The number with these digits at a place, before this rest.
#[inline(always)]
#[tactic(auto, unfolding(seq_tree::specs::Lexis::number_front))]
fn number_front(place: Place, digits: &[u8], rest: &[u8]) -> Result<Front<'static>, LexFault>
    requires { Fits place (length digits.now) }
    ensures number { Gives front_view result (number_front place digits.now rest.now) }
    ensures len { IfOk result (λ f. f.len ≡ length digits.now) }
    ensures ample { IfErr result (λ e. e ≡ LexFault.NoMemory → ⊥) }
{
    let Some(value) = number_value(digits) else {
        return Err(LexFault::Number(place));
    };
    if let Some(next) = rest.first() {
        if next.is_ascii_alphabetic() || *next == b'_' {
            return Err(LexFault::Byte(place_past(place, digits)));
        }
    }
    Ok(Front {
        token: Some(Lexeme::Number(value)),
        len: digits.len(),
    })
}

/// The mark of one byte at a place.
#[inline(always)]
fn single_front(place: Place, byte: u8) -> Result<Front<'static>, LexFault>
    ensures mark { Gives front_view result (mark_front (mark_of (byte ∷ [])) place 1) }
    ensures len { IfOk result (λ f. f.len ≡ 1) }
    ensures ample { IfErr result (λ e. e ≡ LexFault.NoMemory → ⊥) }
{
    match single(byte) {
        Some(mark) => Ok(Front {
            token: Some(Lexeme::Sign(mark)),
            len: 1,
        }),
        None => Err(LexFault::Byte(place)),
    }
}

/// The mark at the front of a text, by its first byte and the others.
#[inline(always)]
#[tactic(auto, using(crate::proofs::Shared::MarkLaws::mark_fronts))]
fn mark_front(place: Place, first: u8, rest: &[u8]) -> Result<Front<'static>, LexFault>
    ensures mark { Gives front_view result (front_by Other place (first ∷ rest.now)) }
    ensures len { IfOk result (λ f. (0 < f.len) × (f.len ≤ length rest.now + 1)) }
    ensures ample { IfErr result (λ e. e ≡ LexFault.NoMemory → ⊥) }
{
    match rest.split_first() {
        None => single_front(place, first),
        Some((second, _)) => match double(first, *second) {
            None => single_front(place, first),
            Some(mark) => Ok(Front {
                token: Some(Lexeme::Sign(mark)),
                len: 2,
            }),
        },
    }
}

/// What a first byte begins.
#[derive(Clone, Copy)]
pub(crate) enum Start {
    Space,
    Comment,
    Name,
    Numeral,
    Other,
}

/// Whether a byte is white space: a space, or tab to carriage return.
#[inline(always)]
fn is_space(byte: u8) -> bool
    ensures { result ≡ is_space byte }
{
    byte == b' ' || (b'\t' <= byte && byte <= b'\r')
}

/// What the first byte begins, before this rest.
#[inline(always)]
#[tactic(auto, unfolding(seq_tree::specs::Lexis::start_of))]
fn start_of(first: u8, rest: &[u8]) -> Start
    ensures { start_view result ≡ start_of first rest.now }
{
    if is_space(first) {
        return Start::Space;
    }
    if first.is_ascii_alphabetic() {
        return Start::Name;
    }
    if first.is_ascii_digit() {
        return Start::Numeral;
    }
    match rest.first() {
        Some(second) if first == b'-' && *second == b'-' => Start::Comment,
        _ => Start::Other,
    }
}

/// How far a comment goes: up to the next line feed or the end.
fn comment_len(bytes: &[u8]) -> usize
    ensures len { result ≡ prefix_len is_not_line_feed bytes.now }
    ensures within { result ≤ length bytes.now }
{
    bytes.iter().take_while(|b| **b != b'\n').count()
}

/// How far letters and digits go.
#[inline(always)]
fn plain_len(bytes: &[u8]) -> usize
    ensures len { result ≡ prefix_len is_ascii_alphanumeric bytes.now }
    ensures within { result ≤ length bytes.now }
{
    bytes
        .iter()
        .take_while(|b| b.is_ascii_alphabetic() || b.is_ascii_digit())
        .count()
}

/// Whether bytes begin with an underscore.
#[inline(always)]
fn begins_under(bytes: &[u8]) -> bool
    ensures { result ≡ begins_under bytes.now }
{
    match bytes.first() {
        Some(first) => *first == b'_',
        None => false,
    }
}

/// How far a name goes behind its first letter. Most names have no underscore, so only where one follows is it looked for parts behind it.
#[inline(always)]
#[tactic(auto, using(crate::proofs::RunSteps::run_steps))]
fn name_len(bytes: &[u8]) -> usize
    ensures longest { result ≡ longest (goes_on is_ascii_alphanumeric false) bytes.now }
    ensures within { result ≤ length bytes.now }
{
    let plain = plain_len(bytes);
    let (_, behind) = bytes.split_at(plain);
    if begins_under(behind) {
        run_len(Part::LetterOrDigit, bytes)
    } else {
        plain
    }
}

/// What stands at the front of a text that is not empty, at its place.
#[inline(always)]
#[tactic(auto, using(crate::proofs::Shared::FrontLaws::fronts))]
pub(crate) fn front_of<'a>(
    place: Place,
    bytes: &'a [u8],
    first: u8,
    rest: &'a [u8],
) -> Result<Front<'a>, LexFault>
    requires fits { Fits place (length bytes.now) }
    requires parts { bytes.now ≡ first ∷ rest.now }
    ensures front { Gives front_view result (front_by (start_of first rest.entry.now) place bytes.entry.now) }
    ensures len { IfOk result (λ f. (0 < f.len) × (f.len ≤ length bytes.entry.now)) }
    ensures ample { IfErr result (λ e. e ≡ LexFault.NoMemory → ⊥) }
{
    match start_of(first, rest) {
        Start::Space => Ok(Front {
            token: None,
            len: 1,
        }),
        Start::Comment => Ok(Front {
            token: None,
            len: comment_len(bytes),
        }),
        Start::Name => {
            let (name, _) = bytes.split_at(1 + name_len(rest));
            name_front(place, name)
        }
        Start::Numeral => {
            let (digits, after) = bytes.split_at(1 + run_len(Part::Digit, rest));
            number_front(place, digits, after)
        }
        Start::Other => mark_front(place, first, rest),
    }
}
