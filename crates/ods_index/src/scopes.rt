ghost use Rattle.std.specs.Prelude.{◌≡◌, option_map, unwrap_or};
ghost use Rattle.seq_tree.specs.Names.{Name as NameTree};
ghost use Rattle.name_sets.specs.Tables.{at};
ghost use Rattle.ods_tree.specs.Links.{terminal_op};
ghost use Rattle.ods_tree.specs.Trees.{tree_of};
ghost use Rattle.ods_index.specs.Linked.{by_links, meaning_in};
ghost use Rattle.seq_cost.specs.Different.{call_of};

use name_sets::{NameTable, OpTable};
use ods_tree::Node;
use seq_cost::Call;
use seq_tree::Name;

/// An object, and what its operations mean by its links: of each that has a link the terminal operation, where there is one.
#[derive(Drop)]
pub struct Scope<'a> {
    pub node: &'a Node,
    pub meanings: NameTable<'a, Option<Call<'a>>>,
    ghost right: { (op : NameTree) → meaning_in meanings op ≡ by_links (tree_of node.now) op },
}

impl<'a> Scope<'a> {
    /// The terminal operation that one of the object stands for, where its links lead to one.
    pub fn get(&self, op: &'a Name) -> Option<Call<'a>>
        ensures { option_map call_of result ≡ terminal_op (tree_of self.now.node.now) op.entry.now }
    {
        match self.node.children.as_slice().split_first() {
            None => Some(Call {
                object: &self.node.name,
                op,
            }),
            Some(_) => self.meanings.get(op)?,
        }
    }
    /// The place of the terminal operation that one of the object stands for, or of this name where its links lead to none.
    pub fn place(&self, places: &OpTable<'_, usize>, object: &Name, op: &Name) -> Option<usize>
        ensures { result ≡ at places.now (unwrap_or (terminal_op (tree_of self.now.node.now) op.now) (record { object = object.now; op = op.now })) }
    {
        match self.node.children.as_slice().split_first() {
            None => places.get(&self.node.name, op),
            Some(_) => match self.meanings.get(op) {
                Some(Some(to)) => places.get(to.object, to.op),
                Some(None) => places.get(object, op),
                None => places.get(object, op),
            },
        }
    }
}
