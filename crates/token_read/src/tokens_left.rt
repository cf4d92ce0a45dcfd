ghost use Rattle.std.specs.Prelude.{◌≡◌, ◌+◌, ◌++◌, ◌<◌, ◌≤◌, ◌==◌, ◌∷◌, [], Some, true, false, IfErr, IfNone, IfOk, IfSome, length};
ghost use Rattle.std.specs.Prelude.{option_map};
ghost use Rattle.std.specs.List.{prefix_len};
ghost use Rattle.seq_tree.specs.Lexis.{plain, tokens};
ghost use Rattle.token_read.specs.Behind.{Finds, behind, counted, is_whole, lexeme_of, seen};
ghost use Rattle.token_read.specs.Fronts.{is_blank};
ghost use Rattle.token_read.specs.Outcomes.{Gives};
ghost use Rattle.token_read.specs.Words.{bare};
ghost use Rattle.seq_tree.specs.Limits.{ada_limit};

use crate::fault::LexFault;
use crate::fronts::{Front, front_of};
use crate::lexemes::{Lexeme, Raw, Word};
use crate::places::place_past;
use seq_tree::{Mark, Name, Place, Spanned};

/// The first token, where there is one. It is one enum, and no `Option` of a lexeme with a word in it, since it is handed on with each token,
/// and each enum in another costs as much again.
#[derive(Clone, Copy, Debug)]
pub(crate) enum Next<'a> {
    None,
    Raw(Raw<'a>),
    Kept(&'a Name),
    Number(u32),
    Sign(Mark),
}

impl<'a> Next<'a> {
    // This token.
    #[inline(always)]
    fn of(lexeme: Lexeme<'a>) -> Next<'a>
        ensures { lexeme_of result ≡ Some lexeme.entry }
    {
        match lexeme {
            Lexeme::Word(Word::Raw(raw)) => Next::Raw(raw),
            Lexeme::Word(Word::Kept(name)) => Next::Kept(name),
            Lexeme::Number(value) => Next::Number(value),
            Lexeme::Sign(mark) => Next::Sign(mark),
        }
    }

    // The token, where there is one.
    #[inline(always)]
    fn lexeme(self) -> Option<Lexeme<'a>>
        ensures { result ≡ lexeme_of self.entry }
    {
        match self {
            Next::None => None,
            Next::Raw(raw) => Some(Lexeme::Word(Word::Raw(raw))),
            Next::Kept(name) => Some(Lexeme::Word(Word::Kept(name))),
            Next::Number(value) => Some(Lexeme::Number(value)),
            Next::Sign(mark) => Some(Lexeme::Sign(mark)),
        }
    }
}

/// The tokens that are left, of a list or of a text. Those of a text are taken from its bytes one by one, without memory.
#[derive(Clone, Copy, Debug)]
pub struct Tokens<'a> {
    // The first token, read already; then those of the list, and then those of the text; and how many they are.
    next: Next<'a>,
    listed: &'a [Spanned],
    text: &'a [u8],
    count: usize,
    ghost few: { length text.now ≤ ada_limit },
    ghost whole: { is_whole text.now ≡ true },
    ghost counts: { count ≡ length (counted (lexeme_of next) (bare listed.now ++ behind text.now)) },
}

/// How far spaces go.
#[inline(always)]
fn space_len(bytes: &[u8]) -> usize
    ensures len { result ≡ prefix_len is_blank bytes.now }
    ensures within { result ≤ length bytes.now }
{
    bytes.iter().take_while(|b| **b == b' ').count()
}

/// What is behind the spaces at the front of a text. Other white space is passed over one byte at a time.
#[inline(always)]
#[tactic(auto, using(crate::proofs::RunSteps::space_steps))]
fn behind_space<'a>(bytes: &'a [u8]) -> &'a [u8]
    ensures behind { is_whole bytes.entry.now ≡ true → behind bytes.entry.now ≡ behind result.now }
    ensures whole { is_whole bytes.entry.now ≡ is_whole result.now }
    ensures less { length result.now ≤ length bytes.entry.now }
{
    let (_, left) = bytes.split_at(space_len(bytes));
    left
}

/// What stands at the front of a text, a token, or white space or a comment, and the bytes behind it; none where there is a fault.
#[inline(always)]
#[tactic(auto, using(crate::proofs::Shared::BehindSteps::front_steps))]
fn step_of<'a>(bytes: &'a [u8], first: u8, rest: &'a [u8]) -> Option<(Option<Lexeme<'a>>, &'a [u8])>
    requires few { length bytes.now ≤ ada_limit }
    requires parts { bytes.now ≡ first ∷ rest.now }
    ensures behind { IfSome result (λ r. is_whole bytes.entry.now ≡ true → behind bytes.entry.now ≡ seen r.0 (behind r.1.now)) }
    ensures whole { IfSome result (λ r. is_whole bytes.entry.now ≡ is_whole r.1.now) }
    ensures less { IfSome result (λ r. length r.1.now < length bytes.entry.now) }
    ensures fault { IfNone result (is_whole bytes.entry.now ≡ false) }
{
    let start = Place { line: 1, column: 1 };
    match front_of(start, bytes, first, rest) {
        Ok(Front { token, len }) => {
            let (_, after) = bytes.split_at(len);
            Some((token, after))
        }
        Err(_) => None,
    }
}

/// What stands at the front of a text without faults: a token, or white space or a comment; and the bytes behind it.
#[inline(always)]
fn front_and_rest<'a>(bytes: &'a [u8], first: u8, rest: &'a [u8]) -> (Option<Lexeme<'a>>, &'a [u8])
    requires few { length bytes.now ≤ ada_limit }
    requires whole { is_whole bytes.now ≡ true }
    requires parts { bytes.now ≡ first ∷ rest.now }
    ensures behind { behind bytes.entry.now ≡ seen result.0 (behind result.1.now) }
    ensures whole { is_whole result.1.now ≡ true }
    ensures less { length result.1.now < length bytes.entry.now }
{
    let Some(found) = step_of(bytes, first, rest) else {
        unreachable!();
    };
    found
}

/// The first token of a text without faults and the bytes behind it, where there is one.
#[inline(always)]
fn next_of<'a>(bytes: &'a [u8]) -> Option<(Lexeme<'a>, &'a [u8])>
    requires few { length bytes.now ≤ ada_limit }
    requires whole { is_whole bytes.now ≡ true }
    ensures { Finds result (behind bytes.entry.now) }
{
    let mut left = behind_space(bytes);
    'fronts: while let Some((first, rest)) = left.split_first() {
        let (token, after) = front_and_rest(left, *first, rest);
        match token {
            Some(lexeme) => return Some((lexeme, after)),
            None => left = behind_space(after),
        }
    }
    None
}

/// How many tokens there are, with one more where one was found.
fn more(count: usize, token: Option<Lexeme>) -> usize
    requires { count < ada_limit }
    ensures { result ≡ count + length (seen token.entry []) }
{
    match token {
        Some(_) => count + 1,
        None => count,
    }
}

/// How many tokens a text has, where it has no fault.
fn count_of_whole(bytes: &[u8]) -> Option<usize>
    requires { length bytes.now ≤ ada_limit }
    ensures counts { IfSome result (λ n. n ≡ length (behind bytes.now)) }
    ensures whole { IfSome result (λ _. is_whole bytes.now ≡ true) }
    ensures few { IfSome result (λ n. n ≤ length bytes.now) }
{
    let mut count = 0;
    let mut left = behind_space(bytes);
    'fronts: while let Some((first, rest)) = left.split_first() {
        let (token, after) = step_of(left, *first, rest)?;
        count = more(count, token);
        left = behind_space(after);
    }
    Some(count)
}

/// How many tokens a text has, or its first fault, by a walk that keeps the place.
fn count_with_places(bytes: &[u8]) -> Result<usize, LexFault>
    requires { length bytes.now ≤ ada_limit }
    ensures gives { Gives (λ _. behind bytes.now) result (plain (tokens bytes.now)) }
    ensures counts { IfOk result (λ n. n ≡ length (behind bytes.now)) }
    ensures whole { IfOk result (λ _. is_whole bytes.now ≡ true) }
    ensures few { IfOk result (λ n. n ≤ length bytes.now) }
    ensures ample { IfErr result (λ e. e ≡ LexFault.NoMemory → ⊥) }
{
    let mut count = 0;
    let mut left = bytes;
    let mut place = Place { line: 1, column: 1 };
    'tokens: while let Some((first, rest)) = left.split_first() {
        let Front { token, len } = front_of(place, left, *first, rest)?;
        count = more(count, token);
        let (front, after) = left.split_at(len);
        place = place_past(place, front);
        left = after;
    }
    Ok(count)
}

/// How many tokens a text has, or its first fault. Most texts have none, so the place is kept only where there is one.
fn count_of(bytes: &[u8]) -> Result<usize, LexFault>
    requires { length bytes.now ≤ ada_limit }
    ensures gives { Gives (λ _. behind bytes.now) result (plain (tokens bytes.now)) }
    ensures counts { IfOk result (λ n. n ≡ length (behind bytes.now)) }
    ensures whole { IfOk result (λ _. is_whole bytes.now ≡ true) }
    ensures few { IfOk result (λ n. n ≤ length bytes.now) }
    ensures ample { IfErr result (λ e. e ≡ LexFault.NoMemory → ⊥) }
{
    match count_of_whole(bytes) {
        Some(count) => Ok(count),
        None => count_with_places(bytes),
    }
}

impl<'a> Tokens<'a> {
    ghost use Rattle.token_read.specs.Ahead.{Splits, ahead};
    ghost use Rattle.grammar.specs.Reading.{first};
    ghost use Rattle.token_read.specs.Lexemes.{token_of};

    // The tokens of a list and then those of a text, so many. It is long, so it stands by itself, and what looks at the first token is
    // inlined around it.
    #[inline(never)]
    #[tactic(auto, unfolding(crate::specs::Ahead::ahead))]
    fn from(listed: &'a [Spanned], text: &'a [u8], count: usize) -> Tokens<'a>
        requires few { length text.now ≤ ada_limit }
        requires whole { is_whole text.now ≡ true }
        requires counts { count ≡ length (bare listed.now ++ behind text.now) }
        ensures { ahead result ≡ bare listed.entry.now ++ behind text.entry.now }
    {
        if let Some((spanned, others)) = listed.split_first() {
            return Tokens {
                next: Next::of(Lexeme::of(&spanned.token)),
                listed: others,
                text,
                count,
            };
        }
        match next_of(text) {
            Some((lexeme, after)) => Tokens {
                next: Next::of(lexeme),
                listed,
                text: after,
                count,
            },
            None => Tokens {
                next: Next::None,
                listed,
                text,
                count,
            },
        }
    }

    /// The tokens of a text of at most 16,777,216 bytes, which is gone through once, for its first fault and their number. No
    /// memory is taken: `Byte`, `Number` and `Long` tell the first fault of the text and its place, and `NoMemory` never comes.
    pub fn of(bytes: &'a [u8]) -> Result<Tokens<'a>, LexFault>
        requires { length bytes.now ≤ ada_limit }
        ensures gives { Gives ahead result (plain (tokens bytes.entry.now)) }
        ensures few { IfOk result (λ t. length (ahead t) ≤ length bytes.entry.now) }
        ensures ample { IfErr result (λ e. e ≡ LexFault.NoMemory → ⊥) }
    {
        let count = count_of(bytes)?;
        Ok(Tokens::from(&[], bytes, count))
    }

    /// The tokens of a list.
    #[tactic(auto, using(crate::proofs::Shared::BehindSteps::list_steps))]
    pub fn listed(list: &'a [Spanned]) -> Tokens<'a>
        ensures { ahead result ≡ bare list.entry.now }
    {
        Tokens::from(list, &[], list.len())
    }

    /// How many tokens are left.
    #[tactic(auto, unfolding(crate::specs::Ahead::ahead))]
    pub fn len(self) -> usize
        ensures { result ≡ length (ahead self.entry) }
    {
        self.count
    }

    /// Whether no token is left.
    #[tactic(auto, unfolding(crate::specs::Ahead::ahead))]
    pub fn is_empty(self) -> bool
        ensures { result ≡ (length (ahead self.entry) == 0) }
    {
        self.count == 0
    }

    /// The first token, where there is one.
    #[inline(always)]
    #[tactic(auto, unfolding(crate::specs::Ahead::ahead))]
    pub fn first(self) -> Option<Lexeme<'a>>
        ensures { option_map token_of result ≡ first (ahead self.entry) }
    {
        self.next.lexeme()
    }

    /// The first token and those after it, where there is one.
    #[inline(always)]
    #[tactic(auto, unfolding(crate::specs::Ahead::ahead))]
    pub fn split_first(self) -> Option<(Lexeme<'a>, Tokens<'a>)>
        ensures { Splits result (ahead self.entry) }
    {
        match self.next.lexeme() {
            Some(lexeme) => Some((lexeme, Tokens::from(self.listed, self.text, self.count - 1))),
            None => None,
        }
    }
}
