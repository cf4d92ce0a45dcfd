ghost use Rattle.std.specs.Prelude.{◌≡◌, List};
ghost use Rattle.ada_tree.specs.Programs.{Program};
ghost use Rattle.arrivals_tree.specs.Arriving.{Arrivals};
ghost use Rattle.trace_tree.specs.declared.event.Event.{Event};
ghost use Rattle.machine.specs.Meanings.{Meaning};

/// A program has one meaning under arrivals: two lists of events that it may tell are one.
pub fn one_meaning()
    ensures { (p : Program) (a : Arrivals) (x y : List Event) → Meaning p a x → Meaning p a y → x ≡ y }
{}
