ghost use Rattle.std.specs.Prelude.{map};
ghost use Rattle.ods_tree.specs.Trees.{tree_of, trees_of};
ghost use Rattle.token_read.specs.Ahead.{ahead};
ghost use Rattle.seq_read.specs.Halts.{Gives};
ghost use Rattle.ods_read.specs.ObjectReaders.{over_at, tree_at, tree_list_at, children_at};
ghost use Rattle.ods_read.specs.Nesting.{inside_at};

use crate::attributes::attributes;
use crate::bodies::{bodies, thread};
use crate::names::name;
use crate::operations::{provides, required};
use crate::sections::{data, implements};
use crate::values::kind;
use ods_tree::Node;
use seq_read::{Halt, end_of, word};
use std::alloc::Global;
use token_read::{Tokens, next_is_word};

/// The fault where no object may nest any more.
#[tactic(auto, unfolding(crate::specs::ObjectReaders::over_at))]
fn over(tokens: Tokens) -> Result<(Vec<Node>, Tokens), Halt>
    ensures { Gives (λ r. (trees_of (map tree_of r.0.items), ahead r.1)) result (over_at (ahead tokens.entry)) }
{
    if next_is_word(tokens, b"object") {
        Err(Halt::TooDeep(tokens.len()))
    } else {
        Err(Halt::Syntax(tokens.len()))
    }
}

/// Objects, one at least, inside which constructs and objects nest at most `deeper` deep, and the tokens after them.
#[cycle(objects)]
#[tactic(auto, using(crate::proofs::ObjectSteps::list_steps))]
fn object_list(
    alloc: Global,
    tokens: Tokens,
    units: bool,
    deeper: u32,
) -> Result<(Vec<Node>, Tokens), Halt>
    ensures { Gives (λ r. (trees_of (map tree_of r.0.items), ahead r.1)) result (tree_list_at (tree_at units 32 deeper) (ahead tokens.entry)) }
{
    let (head, mut rest) = object(alloc, tokens, units, deeper)?;
    let mut nodes = Vec::new(alloc);
    nodes.push(head)?;
    'nodes: while next_is_word(rest, b"object") {
        let (next, after) = object(alloc, rest, units, deeper)?;
        nodes.push(next)?;
        rest = after;
    }
    Ok((nodes, rest))
}

/// Objects, one at least, that stand where constructs and objects nest at most `deeper` deep, and the tokens after them.
#[cycle(objects)]
fn inside(
    alloc: Global,
    tokens: Tokens,
    units: bool,
    deeper: u32,
) -> Result<(Vec<Node>, Tokens), Halt>
    ensures { Gives (λ r. (trees_of (map tree_of r.0.items), ahead r.1)) result (inside_at units deeper (ahead tokens.entry)) }
{
    match deeper.checked_sub(1) {
        None => over(tokens),
        Some(inner) => object_list(alloc, tokens, units, inner),
    }
}

/// The objects inside an object, none where it has no section of them, and the tokens after them.
#[cycle(objects)]
#[tactic(auto, unfolding(crate::specs::ObjectReaders::children_at))]
fn children(
    alloc: Global,
    tokens: Tokens,
    units: bool,
    deeper: u32,
) -> Result<(Vec<Node>, Tokens), Halt>
    ensures { Gives (λ r. (trees_of (map tree_of r.0.items), ahead r.1)) result (children_at (inside_at units deeper) (ahead tokens.entry)) }
{
    if next_is_word(tokens, b"objects") {
        let tokens = word(tokens, b"objects")?;
        inside(alloc, tokens, units, deeper)
    } else {
        Ok((Vec::new(alloc), tokens))
    }
}

/// An object and those inside it, in which constructs and objects nest at most `deeper` deep, and the tokens after it.
///
/// Units of time are read where `units` is so. `Syntax` comes at the token with which no object goes on, `TooDeep` at the one with
/// which none within the limits of nesting and chains does.
#[cycle(objects)]
#[tactic(auto, unfolding(crate::specs::ObjectReaders::object_at), using(crate::proofs::ObjectSteps::object_steps))]
pub(crate) fn object(
    alloc: Global,
    tokens: Tokens,
    units: bool,
    deeper: u32,
) -> Result<(Node, Tokens), Halt>
    ensures { Gives (λ r. (tree_of r.0, ahead r.1)) result (tree_at units 32 deeper (ahead tokens.entry)) }
{
    let tokens = word(tokens, b"object")?;
    let (name, tokens) = name(alloc, tokens)?;
    let tokens = word(tokens, b"is")?;
    let (kind, tokens) = kind(tokens)?;
    let (attrs, tokens) = attributes(alloc, tokens, units)?;
    let (provides, tokens) = provides(alloc, tokens)?;
    let (needs, tokens) = required(alloc, tokens)?;
    let (vars, tokens) = data(alloc, tokens)?;
    let (bodies, tokens) = bodies(alloc, tokens, deeper)?;
    let (thread, tokens) = thread(alloc, tokens, deeper)?;
    let (children, tokens) = children(alloc, tokens, units, deeper)?;
    let (links, tokens) = implements(alloc, tokens)?;
    let tokens = end_of(tokens, name.bytes())?;
    let node = Node {
        name,
        kind,
        attrs,
        provides,
        needs,
        vars,
        bodies,
        thread,
        children,
        links,
    };
    Ok((node, tokens))
}
