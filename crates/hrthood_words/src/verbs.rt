ghost use Rattle.std.specs.Prelude.{◌≡◌, map};
ghost use Rattle.hrthood_words.specs.Words.{operands_text, shape_named, verbs};
ghost use Rattle.hrthood_words.specs.Views.{listed};

/// A verb that asks for a design alone.
#[derive(Clone, Copy)]
pub enum DesignVerb {
    /// Check the rules of the design.
    Check,
    /// Compute its bounds and its ceilings.
    Analyse,
    /// Print it again.
    Format,
    /// Make its Ada text.
    Generate,
    /// Look for a priority order under which it passes.
    Search,
    /// Find how far its `work` may grow.
    Scale,
    /// Make the Ada text of a design with background objects.
    Background,
    /// Tell what its bounds are made up of, or why it has none.
    Explain,
    /// Make the Ada text by a priority order under which it passes.
    Arrange,
}

/// The operands that a verb asks for, and which of the verbs that ask for these it is, where there are several.
#[derive(Clone, Copy)]
pub enum Shape {
    /// A design.
    Design(DesignVerb),
    /// An Ada text and arrivals.
    AdaArrivals,
    /// A design and arrivals.
    DesignArrivals,
    /// A design, arrivals and a trace.
    DesignArrivalsTrace,
    /// A count of threads.
    Count,
}

/// The verbs in the order of the usage line, each as it is written, with what it asks for.
pub const VERBS: [(&str, Shape); 13] = [
    ("check", Shape::Design(DesignVerb::Check)),
    ("analyse", Shape::Design(DesignVerb::Analyse)),
    ("format", Shape::Design(DesignVerb::Format)),
    ("generate", Shape::Design(DesignVerb::Generate)),
    ("replay", Shape::AdaArrivals),
    ("verify", Shape::DesignArrivals),
    ("sample", Shape::Count),
    ("background", Shape::Design(DesignVerb::Background)),
    ("accepts", Shape::DesignArrivalsTrace),
    ("search", Shape::Design(DesignVerb::Search)),
    ("scale", Shape::Design(DesignVerb::Scale)),
    ("explain", Shape::Design(DesignVerb::Explain)),
    ("arrange", Shape::Design(DesignVerb::Arrange)),
];

/// The operands of a shape in the usage line, a letter each, with a space before it.
pub fn operands_text(shape: Shape) -> &'static [u8]
    ensures { result.now ≡ operands_text shape }
{
    match shape {
        Shape::Design(_) => b" D",
        Shape::AdaArrivals => b" A R",
        Shape::DesignArrivals => b" D R",
        Shape::DesignArrivalsTrace => b" D R T",
        Shape::Count => b" N",
    }
}

/// What the first of these verbs asks for that is written so, where there is one.
fn shape_among(words: &[(&str, Shape)], verb: &str) -> Option<Shape>
    ensures { result ≡ shape_named (map listed words.now) verb.now }
{
    'words: for word in words {
        let (name, shape) = *word;
        if name == verb {
            return Some(shape);
        }
    }
    None
}

/// What a verb asks for, where the word is one.
pub(crate) fn shape_named(verb: &str) -> Option<Shape>
    ensures { result ≡ shape_named verbs verb.now }
{
    shape_among(&VERBS, verb)
}
