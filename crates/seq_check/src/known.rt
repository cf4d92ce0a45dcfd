ghost use Rattle.std.specs.Prelude.{◌≡◌, ◌++◌, IfOk, map, option_map};
ghost use Rattle.seq_tree.specs.Names.{Name as NameTree, is_named};
ghost use Rattle.seq_tree.specs.Operations.{out_names};
ghost use Rattle.name_sets.specs.Sets.{has};
ghost use Rattle.seq_check.specs.Scopes.{scope_with};

use crate::names::{add_outs, add_params, add_vars};
use crate::offers::{Calls, Offer};
use name_sets::Names;
use seq_tree::{Datum, Name, NoMemory, Param};
use std::alloc::Global;

/// Data that all bodies of a unit or an object can read and assign, with a set of their names. It is made once for all of them.
#[derive(Drop)]
pub struct Data<'a> {
    pub vars: &'a [Datum],
    names: Names<'a>,
    ghost held: { (n : NameTree) → has names n ≡ is_named (map (λ d. d.name) vars.now) n },
}

impl<'a> Data<'a> {
    /// These data with a set of their names.
    pub fn new(alloc: Global, vars: &'a [Datum]) -> Result<Data<'a>, NoMemory>
        ensures { IfOk result (λ d. d.vars.now ≡ vars.entry.now) }
    {
        let mut names = Names::new(alloc);
        add_vars(&mut names, vars)?;
        Ok(Data { vars, names })
    }

    /// Whether a name is that of one of these data.
    fn has(&self, name: &Name) -> bool
        ensures { result ≡ is_named (map (λ d. d.name) self.now.vars.now) name.now }
    {
        self.names.has(name)
    }
}

/// What is known at the beginning of a body, as a `Scope` is, with sets of the names and a table of the operations: each name is
/// looked up in the time of the logarithm of their number.
#[derive(Drop)]
pub struct Known<'k, 'a> {
    pub(crate) alloc: Global,
    pub shared: &'k Data<'a>,
    pub calls: &'k Calls<'a>,
    pub params: &'a [Param],
    pub locals: &'a [Datum],
    reads: Names<'a>,
    writes: Names<'a>,
    ghost readable: { (n : NameTree) → has reads n ≡ is_named (map (λ q. q.name) params.now ++ map (λ d. d.name) locals.now) n },
    ghost writable: { (n : NameTree) → has writes n ≡ is_named (out_names params.now ++ map (λ d. d.name) locals.now) n },
}

impl<'k, 'a> Known<'k, 'a> {
    ghost use Rattle.seq_tree.specs.Faults.{offer_of};
    ghost use Rattle.seq_check.specs.Scopes.{offer_view};
    ghost use Rattle.seq_check.specs.Views.{known_scope, offers_of};

    /// What is known in a body with these parameters and locals, beside data and operations that other bodies know too.
    pub fn new(
        alloc: Global,
        shared: &'k Data<'a>,
        calls: &'k Calls<'a>,
        params: &'a [Param],
        locals: &'a [Datum],
    ) -> Result<Known<'k, 'a>, NoMemory>
        ensures { IfOk result (λ k. known_scope k ≡ scope_with shared.entry.now.vars.now (offers_of calls.entry.now) params.entry.now
            locals.entry.now) }
    {
        let mut reads = Names::new(alloc);
        add_params(&mut reads, params)?;
        add_vars(&mut reads, locals)?;
        let mut writes = Names::new(alloc);
        add_outs(&mut writes, params)?;
        add_vars(&mut writes, locals)?;
        Ok(Known {
            alloc,
            shared,
            calls,
            params,
            locals,
            reads,
            writes,
        })
    }

    /// Whether a name can be read.
    pub(crate) fn reads(&self, name: &Name) -> bool
        ensures { result ≡ is_named (known_scope self.now).reads name.now }
    {
        self.shared.has(name) || self.reads.has(name)
    }

    /// Whether a name can be assigned.
    pub(crate) fn writes(&self, name: &Name) -> bool
        ensures { result ≡ is_named (known_scope self.now).writes name.now }
    {
        self.shared.has(name) || self.writes.has(name)
    }

    /// The operation of an object that can be called.
    pub(crate) fn offer(&self, object: &Name, op: &Name) -> Option<Offer<'a>>
        ensures { option_map offer_view result ≡ offer_of (known_scope self.now) object.now op.now }
    {
        self.calls.get(object, op)
    }
}
