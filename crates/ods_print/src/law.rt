ghost use Rattle.std.specs.Prelude.{◌≤◌, ℕ, List, IsTrue, length};
ghost use Rattle.seq_tree.specs.Proper.{within_limits};
ghost use Rattle.ods_tree.specs.Designs.{Design};
ghost use Rattle.ods_tree.specs.Layout.{design_text};
ghost use Rattle.ods_tree.specs.Proper.{IsProperDesign};
ghost use Rattle.ods_tree.specs.Reading.{Reads};
ghost use Rattle.ods_tree.specs.Words.{is_design_name};
ghost use Rattle.ods_print.specs.Writable.{is_writable};
ghost use Rattle.seq_tree.specs.Limits.{text_limit};

/// The text of a proper design whose names and numbers can be read reads as the same design, within the limit of bytes.
pub fn reads_back()
    ensures reads { (x : Design)
        → IsProperDesign (within_limits is_design_name) x
        → IsTrue (is_writable x)
        → length (design_text x) ≤ text_limit
        → Reads (design_text x) x }
    // Each design that was read has such names and numbers.
    ensures writable { (text : List ℕ) (x : Design) → Reads text x → IsTrue (is_writable x) }
{}
