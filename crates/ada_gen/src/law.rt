ghost use Rattle.std.specs.Prelude.{◌≡◌, ◌++◌, ℕ, List, Ok, IsTrue};
ghost use Rattle.seq_tree.specs.Layout.{layout};
ghost use Rattle.seq_tree.specs.Lexis.{tokens, plain};
ghost use Rattle.ods_tree.specs.Flats.{Flat};
ghost use Rattle.analysis.specs.Ceilings.{Ranks};
ghost use Rattle.rt_response.specs.declared.rows.Bound.{Bound};
ghost use Rattle.ada_tree.specs.Spelling.{program_lines, program_tokens};
ghost use Rattle.ada_print.specs.Writable.{is_writable};
ghost use Rattle.guarantee.specs.Programs.{head, program_for};
ghost use Rattle.ada_gen.specs.Heads.{is_head_writable};

/// The text of a flat design's program, behind its head of comments, reads back as the tokens of that program, where its names and
/// numbers can be read.
pub fn text_reads_back()
    ensures { (f : Flat) (r : Ranks) (places : List ℕ) (bounds : List Bound)
        → IsTrue (is_writable (program_for f r))
        → IsTrue (is_head_writable f r bounds)
        → plain (tokens (head f r places bounds ++ layout (program_lines (program_for f r))))
        ≡ Ok (program_tokens (program_for f r)) }
{}
