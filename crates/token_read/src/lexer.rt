ghost use Rattle.std.specs.Prelude.{◌≡◌, ◌≤◌, ◌++◌, [], IfErr, OnOk, length, option_map};
ghost use Rattle.seq_tree.specs.Lexis.{tokens, with_token};
ghost use Rattle.token_read.specs.Lexemes.{token_of};
ghost use Rattle.token_read.specs.Outcomes.{Gives};
ghost use Rattle.seq_tree.specs.Limits.{ada_limit};

use crate::fault::LexFault;
use crate::fronts::{Front, front_of};
use crate::lexemes::Lexeme;
use crate::places::place_past;
use seq_tree::{Place, Spanned};
use std::alloc::Global;

/// Adds the token at a place, where there is one.
fn add(
    alloc: Global,
    found: &mut Vec<Spanned>,
    place: Place,
    token: Option<Lexeme>,
) -> Result<(), LexFault>
    ensures ok { OnOk result (found.new.items ≡ found.old.items ++ with_token (option_map token_of token.entry) place []) }
    ensures err { IfErr result (λ e. e ≡ LexFault.NoMemory) }
{
    if let Some(lexeme) = token {
        let token = lexeme.token(alloc)?;
        found.push(Spanned { token, place })?;
    }
    Ok(())
}

/// The tokens of a text of at most 16,777,216 bytes, each with its line and column, both from 1 and columns in bytes. Names
/// are folded to lower case; white space and comments are dropped. `Byte`, `Number` and `Long` tell the first fault of the
/// text and its place; `NoMemory` may come in place of any answer.
#[tactic(auto, using(crate::proofs::Shared::TokenSteps::token_steps))]
pub fn tokens(alloc: Global, bytes: &[u8]) -> Result<Vec<Spanned>, LexFault>
    requires { length bytes.now ≤ ada_limit }
    ensures { Gives (λ v. v.items) result (tokens bytes.now) }
{
    let mut found = Vec::new(alloc);
    let mut left = bytes;
    let mut place = Place { line: 1, column: 1 };
    'tokens: while let Some((first, rest)) = left.split_first() {
        let Front { token, len } = front_of(place, left, *first, rest)?;
        add(alloc, &mut found, place, token)?;
        let (front, after) = left.split_at(len);
        place = place_past(place, front);
        left = after;
    }
    Ok(found)
}
