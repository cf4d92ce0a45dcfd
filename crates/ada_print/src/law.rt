ghost use Rattle.std.specs.Prelude.{◌≡◌, ◌≤◌, ◌++◌, ℕ, List, Ok, IsTrue, length};
ghost use Rattle.std.specs.List.{list_all};
ghost use Rattle.seq_tree.specs.Layout.{layout};
ghost use Rattle.seq_tree.specs.Lexis.{tokens, plain};
ghost use Rattle.seq_tree.specs.Proper.{within_limits};
ghost use Rattle.seq_print.specs.Readable.{comments_text, is_comment};
ghost use Rattle.ada_tree.specs.Programs.{Program};
ghost use Rattle.ada_tree.specs.Proper.{IsProperProgram};
ghost use Rattle.ada_tree.specs.Reading.{Reads};
ghost use Rattle.ada_tree.specs.Spelling.{program_lines, program_tokens};
ghost use Rattle.ada_tree.specs.Words.{is_ada_name};
ghost use Rattle.ada_print.specs.Writable.{is_writable};
ghost use Rattle.seq_tree.specs.Limits.{ada_limit};

/// The text of a proper program whose names and numbers can be read reads as the same program, within the limit of bytes; comments
/// before it change nothing.
pub fn reads_back()
    ensures reads { (p : Program)
        → IsProperProgram (within_limits is_ada_name) p
        → IsTrue (is_writable p)
        → length (layout (program_lines p)) ≤ ada_limit
        → Reads (layout (program_lines p)) p }
    ensures tokens { (p : Program) (comments : List (List ℕ))
        → IsTrue (is_writable p)
        → IsTrue (list_all is_comment comments)
        → plain (tokens (comments_text comments ++ layout (program_lines p))) ≡ Ok (program_tokens p) }
    // Each program that was read has such names and numbers.
    ensures writable { (text : List ℕ) (p : Program) → Reads text p → IsTrue (is_writable p) }
{}
