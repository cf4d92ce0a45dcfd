ghost use Rattle.std.specs.Prelude.{◌≡◌, ◌<◌, IfOk, length, option_map, slice_get};
ghost use Rattle.seq_tree.specs.Names.{Name as NameTree};
ghost use Rattle.ada_tree.specs.Trees.{program_of, unit_of};
ghost use Rattle.arrivals_tree.specs.ArrivalTexts.{unit_place};
ghost use Rattle.token_read.specs.Lexemes.{word_bytes};
ghost use Rattle.name_sets.specs.Places.{place_in};
ghost use Rattle.arrivals_read.specs.Tables.{first_place};

use ada_tree::{AdaProgram, Unit};
use name_sets::Places;
use seq_tree::NoMemory;
use std::alloc::Global;
use token_read::Word;

/// A program with a table of the names of its units.
#[derive(Drop)]
pub(crate) struct Units<'a> {
    pub(crate) program: &'a AdaProgram,
    places: Places<'a>,
    ghost few: { length (program_of program.now).units < 4294967296 },
    ghost held: { (n : NameTree) → place_in places n ≡ first_place 0 n (program_of program.now).units },
}

impl<'a> Units<'a> {
    /// A table of a program's units. From the last to the first, so that of two with one name the first stays.
    pub(crate) fn new(alloc: Global, program: &'a AdaProgram) -> Result<Units<'a>, NoMemory>
        requires { length (program_of program.now).units < 4294967296 }
        ensures { IfOk result (λ t. t.program.now ≡ program.entry.now) }
    {
        let mut places = Places::new(alloc);
        let mut place = program.units.len();
        'units: while place > 0 {
            place -= 1;
            places.put(&program.units[place].name, place)?;
        }
        Ok(Units { program, places })
    }

    /// The place of the first unit of a name, and the number of units where there is none.
    pub(crate) fn place(&self, name: Word) -> u32
        ensures { result ≡ unit_place (program_of self.now.program.now) (word_bytes name.entry) }
    {
        let folded = name.folded();
        match self.places.get_bytes(folded.bytes()) {
            None => self.program.units.len() as u32,
            Some(place) => place as u32,
        }
    }

    /// The unit at a place, where there is one.
    pub(crate) fn unit(&self, place: u32) -> Option<&Unit>
        ensures { option_map (λ u. unit_of u.now) result ≡ slice_get (program_of self.now.program.now).units place }
    {
        self.program.units.get(place as usize)
    }
}
