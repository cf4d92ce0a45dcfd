ghost use Rattle.std.specs.Prelude.{◌≡◌, IfOk};
ghost use Rattle.ods_index.specs.Walking.{object_of};

use ods_index::Required;
use ods_tree::Node;
use seq_tree::NoMemory;
use std::alloc::Global;

/// A thread that reaches an object, with what it requires.
#[derive(Drop)]
pub(crate) struct Reacher<'a> {
    pub(crate) thread: &'a Node,
    pub(crate) needs: Required<'a>,
    ghost right: { needs.ops.now ≡ (object_of thread.now).needs },
}

impl<'a> Reacher<'a> {
    ghost use Rattle.ods_calls.specs.Reaching.{reacher_of};

    /// A thread with what it requires.
    #[tactic(auto, using(ods_index::proofs::Shared::WalkSteps::node_steps))]
    pub(crate) fn new(alloc: Global, thread: &'a Node) -> Result<Reacher<'a>, NoMemory>
        ensures { IfOk result (λ r. reacher_of r ≡ object_of thread.entry.now) }
    {
        let needs = Required::new(alloc, thread.needs.as_slice())?;
        Ok(Reacher { thread, needs })
    }
}
