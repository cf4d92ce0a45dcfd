ghost use Rattle.std.specs.Prelude.{◌≡◌, IfOk};
ghost use Rattle.ods_tree.specs.Trees.{flat_of};
ghost use Rattle.rt_order.specs.Shared.{AreControlUsers, AreUsers};

use crate::users::{Users, shared_users, thread_users, users_by_name};
use ods_tree::Flat;
use seq_tree::NoMemory;
use std::alloc::Global;

/// Who uses what the threads of a flat design share: its protected objects and control structures. Priorities have no part in it.
#[derive(Drop)]
pub struct Sharing<'a> {
    /// The flat design.
    pub flat: &'a Flat,
    pub(crate) objects: Vec<Users>,
    pub(crate) controls: Vec<Option<Users>>,
    ghost objects_are: { AreUsers (flat_of flat.now) objects.items },
    ghost controls_are: { AreControlUsers (flat_of flat.now) controls.items },
}

/// Who uses what the threads of a flat design share; each block is walked once. `NoMemory` comes for want of memory alone.
pub fn sharing_of<'a>(alloc: Global, flat: &'a Flat) -> Result<Sharing<'a>, NoMemory>
    ensures { IfOk result (λ s. s.flat.now ≡ flat.entry.now) }
{
    let named = users_by_name(alloc, flat)?;
    let objects = shared_users(alloc, &named)?;
    let controls = thread_users(alloc, &named)?;
    Ok(Sharing {
        flat,
        objects,
        controls,
    })
}
