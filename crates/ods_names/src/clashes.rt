ghost use Rattle.std.specs.Prelude.{◌≡◌, ◌||◌, ℕ, List, [], ◌∷◌, Some, OnOk, map};
ghost use Rattle.seq_tree.specs.Names.{Name as NameTree, is_named};
ghost use Rattle.ods_tree.specs.Trees.{design_of};
ghost use Rattle.ods_tree.specs.Walk.{only_if};
ghost use Rattle.design_rules.specs.Broken.{V01};
ghost use Rattle.design_rules.specs.Clashes.{Mention as Named, clashes, clashes_after, is_taken};
ghost use Rattle.ods_index.specs.Indexing.{IsIndex};
ghost use Rattle.ods_index.specs.Judging.{Tells, head_of};
ghost use Rattle.ods_names.specs.Mentions.{gathered, mention_of};
ghost use Rattle.ods_names.specs.NameLists.{names_of};
ghost use Rattle.ods_names.specs.Taken.{Holds, taken_in};

use crate::mentions::{Mention, all_mentions};
use crate::taken::Taken;
use ods_index::{Broken, Index};
use seq_tree::Name;
use std::alloc::Global;

/// Whether a name is among these.
fn is_among(names: &[&Name], name: &Name) -> bool
    ensures { result ≡ is_named (names_of names.now) name.now }
{
    'names: for other in names {
        if other.bytes() == name.bytes() {
            return true;
        }
    }
    false
}

/// Whether one of the sets of its role has a name, or a loop that is open.
fn is_clash<'a>(taken: &Taken<'a>, mention: &Mention<'a>) -> bool
    ensures { result ≡ (taken_in taken.entry.now mention.entry.now.role mention.entry.now.name.now
        || is_named (names_of mention.entry.now.open.items) mention.entry.now.name.now) }
{
    taken.has(mention.role, mention.name) || is_among(mention.open.as_slice(), mention.name)
}

/// Tells a name.
fn tell(alloc: Global, name: &Name) -> Result<(), Broken>
    ensures { Tells result (Some (V01 name.now)) }
{
    Err(Broken::V01 {
        name: name.copy(alloc)?,
    })
}

/// Tells a name where an earlier thing has it, and else adds it.
fn judge_one<'a>(alloc: Global, taken: &mut Taken<'a>, mention: &Mention<'a>) -> Result<(), Broken>
    ensures told { (requests : ℕ → List NameTree) (earlier : List Named) → Holds requests taken.old earlier
        → Tells result (only_if (is_taken earlier (mention_of requests mention.entry.now)) (V01 mention.entry.now.name.now)) }
    ensures added { OnOk result ((requests : ℕ → List NameTree) (earlier : List Named) → Holds requests taken.old earlier
        → Holds requests taken.new (mention_of requests mention.entry.now ∷ earlier)) }
{
    match is_clash(taken, mention) {
        true => tell(alloc, mention.name),
        false => {
            taken.add(mention.role, mention.name)?;
            Ok(())
        }
    }
}

/// Tells the first of names that an earlier thing has, and adds those before it.
fn judge_each<'a>(
    alloc: Global,
    taken: &mut Taken<'a>,
    mentions: &[Mention<'a>],
) -> Result<(), Broken>
    ensures { (requests : ℕ → List NameTree) → Holds requests taken.old []
        → Tells result (head_of (clashes_after [] (map (mention_of requests) mentions.entry.now))) }
{
    'mentions: for mention in mentions {
        judge_one(alloc, taken, mention)?;
    }
    Ok(())
}

/// Tells the first of names that an earlier thing has.
fn judge_all<'a>(alloc: Global, index: &Index<'a>, mentions: &[Mention<'a>]) -> Result<(), Broken>
    ensures { Tells result (head_of (clashes_after [] (gathered index.entry.now mentions.entry.now))) }
{
    let mut taken = Taken::new(alloc, index)?;
    judge_each(alloc, &mut taken, mentions)
}

/// V01: tells the first name that an earlier thing has, where the two may not share it.
pub fn first_clash(alloc: Global, index: &Index<'_>) -> Result<(), Broken>
    requires { IsIndex index.now }
    ensures { Tells result (head_of (clashes (design_of index.entry.now.design.now))) }
{
    let mentions = all_mentions(alloc, index)?;
    judge_all(alloc, index, mentions.as_slice())
}
