ghost use Rattle.std.specs.Prelude.{◌≡◌, ◌<◌, ◌≤◌, IfOk, length};
ghost use Rattle.std.specs.Str.{bytes_eq, str_to_ascii_lowercase};

use seq_tree::{Mark, Name, NoMemory, Token};
use std::alloc::Global;
use std::marker::Model;

/// The bytes of a word as they stand in a text, 1 to 64 of them.
#[derive(Clone, Copy, Debug)]
pub struct Raw<'a> {
    bytes: &'a [u8],
    ghost some: { 0 < length bytes.now },
    ghost short: { length bytes.now ≤ 64 },
}

/// A word of a text, or of a list of tokens. Its bytes are folded to lower case wherever it is compared or kept.
#[derive(Clone, Copy, Debug)]
pub enum Word<'a> {
    /// A word as it stands in a text.
    Raw(Raw<'a>),
    /// A name of a list, which is folded already.
    Kept(&'a Name),
}

/// A token that takes no memory.
#[derive(Clone, Copy, Debug)]
pub enum Lexeme<'a> {
    /// A word.
    Word(Word<'a>),
    /// A number.
    Number(u32),
    /// A mark.
    Sign(Mark),
}

/// The bytes of a word, folded to lower case, at most 64 of them.
#[derive(Drop)]
pub struct Folded {
    bytes: [u8; 64],
    len: usize,
}

impl Model for Folded {
    ghost use Rattle.std.specs.Prelude.{List, ℕ, ◌≤◌, take};

    ghost Value = { List ℕ };

    ghost view = { λ f. take f.len f.bytes };

    ghost invariant = { λ f. f.len ≤ 64 };
}

impl Folded {
    // These bytes as they are.
    fn copied(bytes: &[u8]) -> Folded
        requires { length bytes.now ≤ 64 }
        ensures { result ≡ bytes.now }
    {
        let mut room = [0; 64];
        room[..bytes.len()].copy_from_slice(bytes);
        Folded {
            bytes: room,
            len: bytes.len(),
        }
    }

    // These bytes in lower case.
    #[inline(always)]
    fn lowered(bytes: &[u8]) -> Folded
        requires { length bytes.now ≤ 64 }
        ensures { result ≡ str_to_ascii_lowercase bytes.now }
    {
        let mut room = [0; 64];
        room[..bytes.len()].copy_from_slice(bytes);
        room[..bytes.len()].make_ascii_lowercase();
        Folded {
            bytes: room,
            len: bytes.len(),
        }
    }

    /// The bytes.
    pub fn bytes(&self) -> &[u8]
        ensures { result.now ≡ self.now }
    {
        &self.bytes[..self.len]
    }
}

/// Whether bytes, folded to lower case, are these. Most words that are asked for differ in length, so that is looked at first.
#[inline(always)]
#[tactic(auto, using(crate::proofs::WordSteps::word_steps))]
fn folds_to(bytes: &[u8], text: &[u8]) -> bool
    ensures { result ≡ bytes_eq (str_to_ascii_lowercase bytes.now) text.now }
{
    if bytes.len() != text.len() {
        return false;
    }
    let mut left = text;
    'bytes: for byte in bytes {
        match left.split_first() {
            Some((first, rest)) if byte.to_ascii_lowercase() == *first => left = rest,
            _ => return false,
        }
    }
    left.is_empty()
}

impl<'a> Raw<'a> {
    // The word with these bytes, 1 to 64 of them.
    pub(crate) fn of(bytes: &'a [u8]) -> Raw<'a>
        requires some { 0 < length bytes.now }
        requires short { length bytes.now ≤ 64 }
        ensures { result.bytes.now ≡ bytes.entry.now }
    {
        Raw { bytes }
    }
}

impl<'a> Word<'a> {
    ghost use Rattle.token_read.specs.Lexemes.{word_bytes};

    /// Whether the word, folded to lower case, has these bytes.
    #[inline(always)]
    pub fn is(self, text: &[u8]) -> bool
        ensures { result ≡ bytes_eq (word_bytes self.entry) text.now }
    {
        match self {
            Word::Raw(raw) => folds_to(raw.bytes, text),
            Word::Kept(name) => name.bytes() == text,
        }
    }

    /// The bytes of the word, folded to lower case, without memory.
    #[inline(always)]
    pub fn folded(self) -> Folded
        ensures { result ≡ word_bytes self.entry }
    {
        match self {
            Word::Raw(raw) => Folded::lowered(raw.bytes),
            Word::Kept(name) => Folded::copied(name.bytes()),
        }
    }

    /// The name that the word is. The one error is want of memory.
    pub fn name(self, alloc: Global) -> Result<Name, NoMemory>
        ensures { IfOk result (λ n. n ≡ word_bytes self.entry) }
    {
        match self {
            Word::Raw(raw) => Name::folded(alloc, raw.bytes),
            Word::Kept(name) => name.copy(alloc),
        }
    }
}

impl<'a> Lexeme<'a> {
    ghost use Rattle.token_read.specs.Lexemes.{token_of};

    /// The token as it stands in a list. The one error is want of memory.
    pub fn token(self, alloc: Global) -> Result<Token, NoMemory>
        ensures { IfOk result (λ t. t ≡ token_of self.entry) }
    {
        match self {
            Lexeme::Word(word) => Ok(Token::Word(word.name(alloc)?)),
            Lexeme::Number(value) => Ok(Token::Number(value)),
            Lexeme::Sign(mark) => Ok(Token::Sign(mark)),
        }
    }

    // The token of a list, without memory.
    pub(crate) fn of(token: &'a Token) -> Lexeme<'a>
        ensures { token_of result ≡ token.entry.now }
    {
        match token {
            Token::Word(name) => Lexeme::Word(Word::Kept(name)),
            Token::Number(value) => Lexeme::Number(*value),
            Token::Sign(mark) => Lexeme::Sign(*mark),
        }
    }
}
