ghost use Rattle.std.specs.Prelude.{◌≡◌, map, not};
ghost use Rattle.std.specs.List.{list_any};
ghost use Rattle.ods_tree.specs.Trees.{design_of};
ghost use Rattle.design_rules.specs.Includes.{bad_includes, breaks_includes, child_count, has_own_kind, may_include};
ghost use Rattle.ods_index.specs.Indexing.{IsIndex};
ghost use Rattle.ods_index.specs.Judging.{Tells, head_of};
ghost use Rattle.ods_index.specs.Walking.{object_of, standing_of};

use crate::objects::{ObjectRule, first_offender};
use ods_index::{Broken, Index, Standing, is_terminal, kind_place};
use ods_tree::{Kind, Node};
use std::alloc::Global;

/// Whether an object of a kind may include one of another.
fn may_include(kind: Kind, child: Kind) -> bool
    ensures { result ≡ may_include kind child }
{
    match (kind, child) {
        (Kind::Active, _) => true,
        (Kind::Passive, Kind::Passive) => true,
        (Kind::Protected, Kind::Passive | Kind::Protected) => true,
        (Kind::Sporadic, Kind::Passive | Kind::Protected | Kind::Sporadic) => true,
        (Kind::Cyclic, Kind::Passive | Kind::Protected | Kind::Sporadic | Kind::Cyclic) => true,
        _ => false,
    }
}

/// Whether some child is of a kind that an object of this kind may not include.
fn any_foreign(kind: Kind, children: &[Node]) -> bool
    ensures { result ≡ list_any (λ c. not (may_include kind c.kind)) (map object_of children.now) }
{
    'children: for child in children {
        if !may_include(kind, child.kind) {
            return true;
        }
    }
    false
}

/// The number of children of a kind.
fn child_count(kind: Kind, children: &[Node]) -> usize
    ensures { result ≡ child_count kind (map object_of children.now) }
{
    let mut count = 0;
    'children: for child in children {
        if kind_place(child.kind) == kind_place(kind) {
            count += 1;
        }
    }
    count
}

/// Whether an object includes as many of its own kind as it must.
fn has_own_kind(kind: Kind, children: &[Node]) -> bool
    ensures { result ≡ has_own_kind kind (map object_of children.now) }
{
    match kind {
        Kind::Passive | Kind::Active => true,
        Kind::Protected => child_count(Kind::Protected, children) == 1,
        Kind::Sporadic => 0 < child_count(Kind::Sporadic, children),
        Kind::Cyclic => 0 < child_count(Kind::Cyclic, children),
    }
}

/// Whether an object with children includes what its kind may not, or not what it must.
#[tactic(auto, using(ods_index::proofs::Shared::WalkSteps::node_steps))]
pub(crate) fn breaks_includes(standing: &Standing<'_>) -> bool
    ensures { result ≡ breaks_includes (standing_of standing.entry.now) }
{
    let node = standing.node;
    let children = node.children.as_slice();
    let foreign = any_foreign(node.kind, children);
    let own = has_own_kind(node.kind, children);
    !is_terminal(node) && (foreign || !own)
}

/// V03: tells the first object that includes what its kind may not, or not what it must.
pub fn first_bad_include(alloc: Global, index: &Index<'_>) -> Result<(), Broken>
    requires { IsIndex index.now }
    ensures { Tells result (head_of (bad_includes (design_of index.entry.now.design.now))) }
{
    first_offender(alloc, index.objects.as_slice(), ObjectRule::Include)
}
