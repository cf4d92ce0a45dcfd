ghost use Rattle.std.specs.Prelude.{◌≡◌, IfOk, map, option_map};
ghost use Rattle.seq_tree.specs.Names.{Name as NameTree};
ghost use Rattle.ods_tree.specs.Trees.{flat_of, guarded_of, thread_of};
ghost use Rattle.analysis.specs.Ceilings.{calls_from_inside, uses_object};
ghost use Rattle.rt_order.specs.ByNames.{places_at};
ghost use Rattle.rt_order.specs.Kept.{users_of};
ghost use Rattle.rt_order.specs.Numbers.{places_from};
ghost use Rattle.rt_order.specs.Shared.{AreControlUsers, AreNamed, AreUsers};
ghost use Rattle.rt_order.specs.Users.{control_users, users};

use crate::by_name::PlacesByName;
use crate::called::{names_called, names_used};
use ods_tree::{Flat, FlatShared, FlatThread, Timing};
use seq_tree::{Name, NoMemory};
use std::alloc::Global;

/// The places of the threads that use an object or control structure, and of the protected objects that call it.
#[derive(Drop)]
pub(crate) struct Users {
    pub(crate) threads: Vec<usize>,
    pub(crate) callers: Vec<usize>,
}

/// The places of a flat design's threads by the names that they use, and those of its protected objects by the names that they call.
#[derive(Drop)]
pub(crate) struct UsersByName<'a> {
    pub(crate) flat: &'a Flat,
    threads: PlacesByName<'a>,
    callers: PlacesByName<'a>,
}

/// The places of threads by the names that they use.
fn threads_by_name<'a>(
    alloc: Global,
    threads: &'a [FlatThread],
) -> Result<PlacesByName<'a>, NoMemory>
    ensures { IfOk result (λ t. (n : NameTree) → places_at t n ≡ places_from (uses_object n) 0 (map thread_of threads.entry.now)) }
{
    let mut places = PlacesByName::new(alloc);
    'threads: for (i, thread) in threads.iter().enumerate() {
        let names = names_used(alloc, thread)?;
        places.add_each(alloc, names.as_slice(), i)?;
    }
    Ok(places)
}

/// The places of protected objects by the names that they call.
fn callers_by_name<'a>(
    alloc: Global,
    shared: &'a [FlatShared],
) -> Result<PlacesByName<'a>, NoMemory>
    ensures { IfOk result (λ t. (n : NameTree) → places_at t n ≡ places_from (calls_from_inside n) 0 (map guarded_of shared.entry.now)) }
{
    let mut places = PlacesByName::new(alloc);
    'shared: for (i, object) in shared.iter().enumerate() {
        let names = names_called(alloc, object)?;
        places.add_each(alloc, names.as_slice(), i)?;
    }
    Ok(places)
}

/// Who uses what, by names: each block is walked once.
pub(crate) fn users_by_name<'a>(alloc: Global, flat: &'a Flat) -> Result<UsersByName<'a>, NoMemory>
    ensures named { IfOk result AreNamed }
    ensures flat { IfOk result (λ u. u.flat.now ≡ flat.entry.now) }
{
    let threads = threads_by_name(alloc, flat.threads.as_slice())?;
    let callers = callers_by_name(alloc, flat.shared.as_slice())?;
    Ok(UsersByName {
        flat,
        threads,
        callers,
    })
}

/// Who uses an object or control structure.
fn find_users(alloc: Global, named: &UsersByName<'_>, name: &Name) -> Result<Users, NoMemory>
    requires { AreNamed named.now }
    ensures { IfOk result (λ u. users_of u ≡ users (flat_of named.now.flat.now) name.now) }
{
    let threads = named.threads.get(alloc, name)?;
    let callers = named.callers.get(alloc, name)?;
    Ok(Users { threads, callers })
}

/// Who uses a thread's control structure, where it has one.
fn find_control_users(
    alloc: Global,
    named: &UsersByName<'_>,
    thread: &FlatThread,
) -> Result<Option<Users>, NoMemory>
    requires { AreNamed named.now }
    ensures { IfOk result (λ o. option_map users_of o
        ≡ control_users (flat_of named.now.flat.now) (thread_of thread.now).name (thread_of thread.now).timing) }
{
    match &thread.timing {
        Timing::Cyclic { .. } => Ok(None),
        Timing::Sporadic { .. } => Ok(Some(find_users(alloc, named, &thread.name)?)),
    }
}

/// Who uses the protected objects, by place.
pub(crate) fn shared_users(alloc: Global, named: &UsersByName<'_>) -> Result<Vec<Users>, NoMemory>
    requires { AreNamed named.now }
    ensures { IfOk result (λ v. AreUsers (flat_of named.now.flat.now) v.items) }
{
    let mut found = Vec::new(alloc);
    'shared: for object in &named.flat.shared {
        found.push(find_users(alloc, named, &object.name)?)?;
    }
    Ok(found)
}

/// Who uses the control structures, by the place of their thread.
pub(crate) fn thread_users(
    alloc: Global,
    named: &UsersByName<'_>,
) -> Result<Vec<Option<Users>>, NoMemory>
    requires { AreNamed named.now }
    ensures { IfOk result (λ v. AreControlUsers (flat_of named.now.flat.now) v.items) }
{
    let mut found = Vec::new(alloc);
    'threads: for thread in &named.flat.threads {
        found.push(find_control_users(alloc, named, thread)?)?;
    }
    Ok(found)
}
