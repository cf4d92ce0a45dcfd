ghost use Rattle.std.specs.Prelude.{◌≡◌, ◌<◌, ℕ, Some, IfOk, OnOk, map};
ghost use Rattle.seq_tree.specs.Names.{Name as NameTree};
ghost use Rattle.seq_tree.specs.Trees.{operation_of};
ghost use Rattle.ada_tree.specs.Trees.{form_of, program_of, unit_of};
ghost use Rattle.trace_read.specs.Names.{head_names, op_among, op_of_name, unit_of_name};
ghost use Rattle.trace_read.specs.Tables.{IsTable, op_by};

use ada_tree::{AdaProgram, Form, Unit};
use name_sets::Places;
use seq_tree::{NoMemory, OpText};
use std::alloc::Global;

/// The places of units by their names. From the last to the first, so that of two with one name the first stays.
fn places_of_units<'a>(alloc: Global, units: &'a [Unit]) -> Result<Places<'a>, NoMemory>
    ensures { IfOk result (λ t. IsTable (map (λ u. u.name) (map unit_of units.entry.now)) t) }
{
    if units.len() > 4294967295 {
        return Err(NoMemory);
    }
    let mut places = Places::new(alloc);
    let mut place = units.len();
    'units: while place > 0 {
        place -= 1;
        places.put(&units[place].name, place)?;
    }
    Ok(places)
}

/// The places of operations by their names.
fn places_of_texts<'a>(alloc: Global, ops: &'a [OpText]) -> Result<Places<'a>, NoMemory>
    ensures { IfOk result (λ t. IsTable (map (λ h. h.name) (map (λ o. o.sig) (map operation_of ops.entry.now))) t) }
{
    if ops.len() > 4294967295 {
        return Err(NoMemory);
    }
    let mut places = Places::new(alloc);
    let mut place = ops.len();
    'ops: while place > 0 {
        place -= 1;
        places.put(&ops[place].sig.name, place)?;
    }
    Ok(places)
}

/// The places of the operations of a unit by their names.
fn places_of_heads<'a>(alloc: Global, form: &'a Form) -> Result<Places<'a>, NoMemory>
    ensures { IfOk result (λ t. IsTable (head_names (form_of form.entry.now)) t) }
{
    match form {
        Form::Passive { ops } => places_of_texts(alloc, ops),
        Form::Shared { ops, .. } => places_of_texts(alloc, ops),
        Form::Cyclic { .. } => Ok(Places::new(alloc)),
        Form::Sporadic { op, .. } => {
            let mut places = Places::new(alloc);
            places.put(&op.name, 0)?;
            Ok(places)
        }
    }
}

/// The places of the operations of each unit.
fn places_of_ops<'a>(alloc: Global, units: &'a [Unit]) -> Result<Vec<Places<'a>>, NoMemory>
    ensures places { IfOk result (λ v. (k : ℕ) (n : NameTree) → op_by v.items k n ≡ op_among (map unit_of units.entry.now) k n) }
    ensures few { OnOk result ((k : ℕ) (n : NameTree) (o : ℕ) → op_among (map unit_of units.entry.now) k n ≡ Some o → o < 4294967296) }
{
    let mut ops = Vec::new(alloc);
    'units: for unit in units {
        ops.push(places_of_heads(alloc, &unit.form)?)?;
    }
    Ok(ops)
}

/// The place of the operation of a name in the unit at a place, by tables of units.
fn op_place(tables: &[Places<'_>], unit: usize, name: &[u8]) -> Option<usize>
    ensures { result ≡ op_by tables.now unit name.now }
{
    tables.get(unit)?.get_bytes(name)
}

/// A program with tables of the names of its units and of their operations, by which lines are read.
#[derive(Drop)]
pub struct Table<'a> {
    pub(crate) program: &'a AdaProgram,
    units: Places<'a>,
    ops: Vec<Places<'a>>,
    ghost of_units: { IsTable (map (λ u. u.name) (program_of program.now).units) units },
    ghost of_ops: { (k : ℕ) (n : NameTree) → op_by ops.items k n ≡ op_of_name (program_of program.now) k n },
    ghost few: { (k : ℕ) (n : NameTree) (o : ℕ) → op_of_name (program_of program.now) k n ≡ Some o → o < 4294967296 },
}

impl<'a> Table<'a> {
    /// The tables of a program. `NoMemory` is answered where memory lacks, and for a program of more than 4,294,967,295 units, or operations of
    /// one unit.
    #[tactic(auto, unfolding(crate::specs::Names::op_of_name))]
    pub fn new(alloc: Global, program: &'a AdaProgram) -> Result<Table<'a>, NoMemory>
        ensures { IfOk result (λ t. t.program.now ≡ program.entry.now) }
    {
        let units = places_of_units(alloc, program.units.as_slice())?;
        let ops = places_of_ops(alloc, program.units.as_slice())?;
        Ok(Table {
            program,
            units,
            ops,
        })
    }

    /// The place of the unit of a name.
    #[tactic(auto, unfolding(crate::specs::Names::unit_of_name))]
    pub(crate) fn unit(&self, name: &[u8]) -> Option<u32>
        ensures { result ≡ unit_of_name (program_of self.now.program.now) name.now }
    {
        match self.units.get_bytes(name) {
            None => None,
            Some(place) => Some(place as u32),
        }
    }

    /// The place of the operation of a name in the unit at a place.
    #[tactic(auto, unfolding(crate::specs::Names::op_of_name))]
    pub(crate) fn op(&self, unit: u32, name: &[u8]) -> Option<u32>
        ensures { result ≡ op_of_name (program_of self.now.program.now) unit name.now }
    {
        match op_place(self.ops.as_slice(), unit as usize, name) {
            None => None,
            Some(place) => Some(place as u32),
        }
    }
}
