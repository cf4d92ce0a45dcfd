ghost use Rattle.std.specs.Prelude.{◌≡◌, ◌&&◌, map, option_map};
ghost use Rattle.seq_tree.specs.Faults as faults;
ghost use Rattle.seq_tree.specs.Names.{same_name, is_named};
ghost use Rattle.seq_tree.specs.Trees.{offer_of};
ghost use Rattle.seq_check.specs.Places.{place_of};
ghost use Rattle.seq_check.specs.Scopes.{found_in, offer_view};

use crate::known::Known;
use crate::offers::Offer;
use crate::scope::Scope;
use seq_tree::{Callable, Name};
use std::alloc::Global;

/// A place in a body, by what is known there.
#[derive(Drop)]
pub(crate) enum Place<'p, 'a> {
    /// Outside all loops.
    Body(&'p Scope),
    /// The same, with sets and tables.
    Known(&'p Known<'p, 'a>),
    /// Inside a loop with this name.
    Loop {
        name: &'p Name,
        outer: &'p Place<'p, 'a>,
    },
}

/// Whether two names are one.
pub(crate) fn same_name(a: &Name, b: &Name) -> bool
    ensures { result ≡ same_name a.now b.now }
{
    a.bytes() == b.bytes()
}

/// Whether a name is among these.
fn is_named(names: &[Name], name: &Name) -> bool
    ensures { result ≡ is_named names.now name.now }
{
    names.iter().any(|n| same_name(n, name))
}

/// Whether what can be called is this operation of this object.
fn is_offer(callable: &Callable, object: &Name, op: &Name) -> bool
    ensures { result ≡ (same_name callable.now.object object.now && same_name callable.now.sig.name op.now) }
{
    same_name(&callable.object, object) && same_name(&callable.sig.name, op)
}

/// The first of these that is this operation of this object.
fn find_call<'a>(calls: &'a [Callable], object: &Name, op: &Name) -> Option<&'a Callable>
    ensures { option_map (λ c. offer_of c.now) result ≡ found_in (record { object = object.now; op = op.now }) (map offer_of calls.entry.now) }
{
    calls.iter().find(|c| is_offer(c, object, op))
}

/// What can be called, by reference.
fn offered<'a>(call: Option<&'a Callable>) -> Option<Offer<'a>>
    ensures { option_map offer_view result ≡ option_map (λ c. offer_of c.now) call.entry }
{
    match call {
        None => None,
        Some(call) => Some(Offer {
            object: &call.object,
            sig: &call.sig,
        }),
    }
}

impl<'p, 'a> Place<'p, 'a> {
    /// Whether a name can be read here.
    pub(crate) fn reads(&self, name: &Name) -> bool
        ensures { result ≡ is_named (place_of self.now).reads name.now }
    {
        match self {
            Place::Body(scope) => is_named(&scope.reads, name),
            Place::Known(known) => known.reads(name),
            Place::Loop { name: own, outer } => same_name(own, name) || outer.reads(name),
        }
    }

    /// Whether a name can be assigned here.
    pub(crate) fn writes(&self, name: &Name) -> bool
        ensures { result ≡ is_named (place_of self.now).writes name.now }
    {
        match self {
            Place::Body(scope) => is_named(&scope.writes, name),
            Place::Known(known) => known.writes(name),
            Place::Loop { name: own, outer } => !same_name(own, name) && outer.writes(name),
        }
    }

    /// Whether a loop is open here.
    pub(crate) fn in_loop(&self) -> bool
        ensures { result ≡ (place_of self.now).in_loop }
    {
        match self {
            Place::Body(_) => false,
            Place::Known(_) => false,
            Place::Loop { .. } => true,
        }
    }

    /// Where memory may be had here.
    pub(crate) fn memory(&self) -> Option<Global> {
        match self {
            Place::Body(_) => None,
            Place::Known(known) => Some(known.alloc),
            Place::Loop { outer, .. } => outer.memory(),
        }
    }

    /// The operation of an object that can be called here.
    pub(crate) fn offer(&self, object: &Name, op: &Name) -> Option<Offer<'_>>
        ensures { option_map offer_view result ≡ faults.offer_of (place_of self.now) object.now op.now }
    {
        match self {
            Place::Body(scope) => offered(find_call(&scope.calls, object, op)),
            Place::Known(known) => known.offer(object, op),
            Place::Loop { outer, .. } => outer.offer(object, op),
        }
    }
}
