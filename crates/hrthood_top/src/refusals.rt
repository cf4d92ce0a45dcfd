ghost use Rattle.hood_io.specs.Shelves.{Told};
ghost use Rattle.hrthood_words.specs.Words.{Command};
ghost use Rattle.hrthood_top.specs.Commands.{verb_of};
ghost use Rattle.hrthood_top.specs.Exact.{HasOneCause, WritesOrRefuses, WritesOneText};

/// A command has one cause of refusal at most over the same files of a shelf, and none where what it makes can be written whole. What it writes
/// is one text: two runs that are done have written the same bytes.
pub fn refused_exactly_where()
    // Two causes are one.
    ensures one { (t : Told) (c : Command) → HasOneCause t (verb_of c) }
    // None stands where what the verb makes can be written whole.
    ensures none { (t : Told) (c : Command) → WritesOrRefuses t (verb_of c) }
    // Two texts are one.
    ensures same { (t : Told) (c : Command) → WritesOneText t (verb_of c) }
{}
