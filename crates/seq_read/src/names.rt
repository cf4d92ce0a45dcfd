ghost use Rattle.std.specs.Prelude.{◌≡◌};
ghost use Rattle.grammar.specs.Reading.{first};
ghost use Rattle.seq_tree.specs.Proper.{is_block_name};
ghost use Rattle.token_read.specs.Ahead.{ahead};
ghost use Rattle.token_read.specs.Lexemes.{word_bytes};
ghost use Rattle.seq_read.specs.Names.{may_name};
ghost use Rattle.seq_read.specs.Statements.{next_is_name};

use token_read::{Lexeme, Tokens, Word};
use words::{is_ada_name, is_among, is_design_name};

/// The words of blocks and expressions.
const WORDS: [&str; 20] = [
    "null", "if", "then", "elsif", "else", "end", "for", "in", "word", "range", "loop", "exit",
    "when", "work", "put", "and", "or", "xor", "mod", "not",
];

/// In which kind of text a word is asked to be a name.
#[derive(Clone, Copy, Debug, PartialEq, Eq)]
pub enum Text {
    /// A block or an expression by itself: any word but those of the grammar.
    Plain,
    /// An Ada text: any word but a reserved or kept one.
    Ada,
    /// A design: any word but those of its grammar.
    Design,
}

/// Whether a word may be a name in a block by itself.
fn is_block_name(name: &[u8]) -> bool
    ensures { result ≡ is_block_name name.now }
{
    !(name.is_empty() || is_among(&WORDS, name))
}

/// Whether a word may be a name in this kind of text.
#[tactic(auto, unfolding(crate::specs::Names::may_name))]
pub fn may_name(word: Word, text: Text) -> bool
    ensures { result ≡ may_name text (word_bytes word.entry) }
{
    let folded = word.folded();
    match text {
        Text::Plain => is_block_name(folded.bytes()),
        Text::Ada => is_ada_name(folded.bytes()),
        Text::Design => is_design_name(folded.bytes()),
    }
}

/// Whether a word is next that may be a name in this kind of text.
#[tactic(auto, unfolding(crate::specs::Statements::next_is_name))]
pub fn next_is_name(tokens: Tokens, text: Text) -> bool
    ensures { result ≡ next_is_name (may_name text) (first (ahead tokens.entry)) }
{
    let Some(lexeme) = tokens.first() else {
        return false;
    };
    match lexeme {
        Lexeme::Word(word) => may_name(word, text),
        _ => false,
    }
}
