ghost use Rattle.std.specs.Prelude.{◌≡◌};
ghost use Rattle.seq_tree.specs.Variables.{Variables};
ghost use Rattle.seq_eval.specs.Lookups.{found};

use seq_tree::Name;

/// The variables that an expression may name. Contracts see it as a list of pairs of names and words.
pub trait Lookup {
    /// The variables, as pairs of a name and its value, the innermost first.
    ghost meaning: { Self → Variables };

    /// The value of the first variable of that name, and `None` exactly where there is none. It takes no memory.
    fn value(&self, name: &Name) -> Option<u32>
        ensures { result ≡ found name.now (meaning self.now) };
}
