ghost use Rattle.std.specs.Prelude.{◌≡◌, ◌&&◌, ◌||◌, ◌==◌, ℕ, List, [], ◌∷◌, IfOk, OnOk, filter, map};
ghost use Rattle.seq_tree.specs.Names.{Name as NameTree, is_named};
ghost use Rattle.ods_tree.specs.Trees.{provided_of};
ghost use Rattle.design_rules.specs.Clashes as clashes;
ghost use Rattle.design_rules.specs.Clashes.{Mention, is_request, request_names};
ghost use Rattle.ods_names.specs.Keys.{has_key};
ghost use Rattle.ods_names.specs.Mentions.{mention_by, requests_in};
ghost use Rattle.ods_names.specs.Taken.{Holds, has_outer, has_request, taken_in};
ghost use Rattle.ods_index.specs.Walking.{object_of};

use crate::keys::Keys;
use crate::mentions::{Role, is_request};
use name_sets::Names;
use ods_index::{Index, Standing};
use ods_tree::{Node, Provided};
use seq_tree::{Name, NoMemory};
use std::alloc::Global;

/// Adds the names of the requests among operations of the object at a place.
fn add_requests<'a>(
    table: &mut Keys<'a>,
    place: usize,
    node: &'a Node,
    provides: &'a [Provided],
) -> Result<(), NoMemory>
    ensures { OnOk result ((p : ℕ) (n : NameTree) → has_key table.new p 0 [] n
        ≡ (has_key table.old p 0 [] n || (place == p
        && is_named (map (λ q. q.sig.name) (filter (is_request (object_of node.entry.now)) (map provided_of provides.entry.now))) n))) }
{
    'provides: for provided in provides {
        let wanted = is_request(node, provided);
        table.add_where(wanted, place, 0, &[], provided.sig.name.bytes())?;
    }
    Ok(())
}

/// Adds the names of the requests of the object at a place.
#[tactic(auto, using(ods_index::proofs::Shared::WalkSteps::node_steps))]
fn add_standing<'a>(
    table: &mut Keys<'a>,
    place: usize,
    standing: &Standing<'a>,
) -> Result<(), NoMemory>
    ensures { OnOk result ((p : ℕ) (n : NameTree) → has_key table.new p 0 [] n
        ≡ (has_key table.old p 0 [] n || (place == p && is_named (request_names (object_of standing.entry.now.node.now)) n))) }
{
    let node = standing.node;
    add_requests(table, place, node, node.provides.as_slice())
}

/// The names of the requests of objects.
fn request_table<'a>(alloc: Global, objects: &[Standing<'a>]) -> Result<Keys<'a>, NoMemory>
    ensures { IfOk result (λ t. (p : ℕ) (n : NameTree) → has_key t p 0 [] n ≡ has_request 0 objects.entry.now p n) }
{
    let mut table = Keys::new(alloc);
    'objects: for (place, standing) in objects.iter().enumerate() {
        add_standing(&mut table, place, standing)?;
    }
    Ok(table)
}

/// The names that are taken so far, in sets by what has them.
#[derive(Drop)]
pub(crate) struct Taken<'a> {
    requests: Keys<'a>,
    all: Names<'a>,
    objects: Names<'a>,
    members: Keys<'a>,
    bodied: Keys<'a>,
    parameters: Keys<'a>,
    bodied_parameters: Keys<'a>,
    asked: Keys<'a>,
    locals: Keys<'a>,
}

impl<'a> Taken<'a> {
    /// No names, and the requests of the objects of a design.
    pub(crate) fn new(alloc: Global, index: &Index<'a>) -> Result<Taken<'a>, NoMemory>
        ensures { IfOk result (λ t. Holds (requests_in index.entry.now) t []) }
    {
        let requests = request_table(alloc, index.objects.as_slice())?;
        Ok(Taken {
            requests,
            all: Names::new(alloc),
            objects: Names::new(alloc),
            members: Keys::new(alloc),
            bodied: Keys::new(alloc),
            parameters: Keys::new(alloc),
            bodied_parameters: Keys::new(alloc),
            asked: Keys::new(alloc),
            locals: Keys::new(alloc),
        })
    }

    /// Whether an object has a name, or an operation or datum of the object at a place.
    fn has_outer(&self, place: usize, name: &'a Name) -> bool
        ensures { result ≡ has_outer self.now place name.entry.now }
    {
        self.objects.has(name) || self.members.has(place, 0, &[], name.bytes())
    }

    /// Whether one of the sets of a role has a name.
    pub(crate) fn has(&self, role: Role<'a>, name: &'a Name) -> bool
        ensures { result ≡ taken_in self.now role.entry name.entry.now }
    {
        match role {
            Role::Whole => false,
            Role::Single => self.all.has(name),
            Role::Member { place } => {
                self.has_outer(place, name) || self.bodied.has(place, 0, &[], name.bytes())
            }
            Role::Parameter { place, op, bodied } => {
                self.objects.has(name)
                    || (bodied && self.members.has(place, 0, &[], name.bytes()))
                    || self
                        .bodied_parameters
                        .has(place, 0, op.bytes(), name.bytes())
            }
            Role::Local { place, body, op } | Role::Loop { place, body, op } => {
                self.has_outer(place, name)
                    || self.parameters.has(place, 0, op.bytes(), name.bytes())
                    || self.locals.has(place, body, &[], name.bytes())
            }
            Role::ThreadLoop { place, body } => {
                self.has_outer(place, name)
                    || self.asked.has(place, 0, &[], name.bytes())
                    || self.locals.has(place, body, &[], name.bytes())
            }
        }
    }

    /// Adds the name of the design.
    fn add_whole(&mut self, name: &'a Name) -> Result<(), NoMemory>
        ensures { OnOk result ((requests : ℕ → List NameTree) (earlier : List Mention) (open' : List NameTree) → Holds requests self.old earlier
            → Holds requests self.new (record { name = name.entry.now; role = clashes.Whole; open' = open' } ∷ earlier)) }
    {
        self.all.add(name)?;
        Ok(())
    }

    /// Adds the name of a loop, which only an object that comes later may not have.
    fn add_loop(&mut self, name: &'a Name) -> Result<(), NoMemory>
        ensures { OnOk result ((requests : ℕ → List NameTree) (earlier : List Mention) (open' : List NameTree) (place body : ℕ) (ops : List NameTree)
            → Holds requests self.old earlier
            → Holds requests self.new (record { name = name.entry.now; role = clashes.Loop place body ops; open' = open' } ∷ earlier)) }
    {
        self.all.add(name)?;
        Ok(())
    }

    /// Adds the name of an object.
    fn add_single(&mut self, name: &'a Name) -> Result<(), NoMemory>
        ensures { OnOk result ((requests : ℕ → List NameTree) (earlier : List Mention) (open' : List NameTree) → Holds requests self.old earlier
            → Holds requests self.new (record { name = name.entry.now; role = clashes.Single; open' = open' } ∷ earlier)) }
    {
        self.all.add(name)?;
        self.objects.add(name)?;
        Ok(())
    }

    /// Adds the name of an operation or datum of the object at a place.
    fn add_member(&mut self, place: usize, name: &'a Name) -> Result<(), NoMemory>
        ensures { OnOk result ((requests : ℕ → List NameTree) (earlier : List Mention) (open' : List NameTree) → Holds requests self.old earlier
            → Holds requests self.new (record { name = name.entry.now; role = clashes.Member place; open' = open' } ∷ earlier)) }
    {
        self.all.add(name)?;
        self.members.add(place, 0, &[], name.bytes())?;
        Ok(())
    }

    /// Adds the name of a local of a body of the object at a place.
    fn add_local(
        &mut self,
        place: usize,
        body: usize,
        op: &'a Name,
        name: &'a Name,
    ) -> Result<(), NoMemory>
        ensures { OnOk result ((requests : ℕ → List NameTree) (earlier : List Mention) (open' : List NameTree) → Holds requests self.old earlier
            → Holds requests self.new (record { name = name.entry.now; role = clashes.Local place body op.entry.now; open' = open' } ∷ earlier)) }
    {
        self.all.add(name)?;
        self.locals.add(place, body, &[], name.bytes())?;
        Ok(())
    }

    /// Adds the name of a parameter of an operation, with a body or without one.
    fn add_parameter(
        &mut self,
        place: usize,
        op: &'a Name,
        bodied: bool,
        name: &'a Name,
    ) -> Result<(), NoMemory>
        ensures { OnOk result ((requests : ℕ → List NameTree) (earlier : List Mention) (open' : List NameTree) → Holds requests self.old earlier
            → Holds requests self.new (record { name = name.entry.now; role = clashes.Parameter place op.entry.now bodied; open' = open' }
            ∷ earlier)) }
    {
        let op = op.bytes();
        let bytes = name.bytes();
        let asked = self.requests.has(place, 0, &[], op);
        self.all.add(name)?;
        self.parameters.add(place, 0, op, bytes)?;
        self.bodied.add_where(bodied, place, 0, &[], bytes)?;
        self.bodied_parameters
            .add_where(bodied, place, 0, op, bytes)?;
        self.asked.add_where(asked, place, 0, &[], bytes)?;
        Ok(())
    }

    /// Adds a name to the sets of its role.
    pub(crate) fn add(&mut self, role: Role<'a>, name: &'a Name) -> Result<(), NoMemory>
        ensures { OnOk result ((requests : ℕ → List NameTree) (earlier : List Mention) (open' : List NameTree) → Holds requests self.old earlier
            → Holds requests self.new (mention_by requests role.entry name.entry.now open' ∷ earlier)) }
    {
        match role {
            Role::Whole => self.add_whole(name),
            Role::Single => self.add_single(name),
            Role::Member { place } => self.add_member(place, name),
            Role::Parameter { place, op, bodied } => self.add_parameter(place, op, bodied, name),
            Role::Local { place, body, op } => self.add_local(place, body, op, name),
            Role::Loop { .. } | Role::ThreadLoop { .. } => self.add_loop(name),
        }
    }
}
