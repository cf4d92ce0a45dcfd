ghost use Rattle.linker.specs.Slots.{StoresWrite};

/// A value that is put in the slot of a name is what the innermost variable of that name has.
pub fn stores_are_writes()
    ensures { StoresWrite }
{}
