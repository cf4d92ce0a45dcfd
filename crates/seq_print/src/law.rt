ghost use Rattle.std.specs.Prelude.{◌≡◌, ◌++◌, ℕ, List, Ok, IsTrue};
ghost use Rattle.std.specs.List.{list_all};
ghost use Rattle.seq_tree.specs.Layout.{layout};
ghost use Rattle.seq_tree.specs.Lexis.{tokens, plain};
ghost use Rattle.seq_tree.specs.Spelling.{Line, joined};
ghost use Rattle.seq_tree.specs.declared.token.Token.{Token};
ghost use Rattle.seq_print.specs.Readable.{are_readable, comments_text, is_comment, is_readable};

/// Lines whose tokens can be read, and don't join, read back from their text as their tokens; comments before them change
/// nothing.
pub fn reads_back()
    ensures { (lines : List Line) (comments : List (List ℕ))
        → IsTrue (are_readable lines)
        → IsTrue (list_all is_comment comments)
        → plain (tokens (comments_text comments ++ layout lines)) ≡ Ok (joined lines) }
{}

/// Each token of a text is readable: a word is a name of at most 64 bytes in lower case, and a number is below 2 ^ 32.
pub fn tokens_are_readable()
    ensures { (text : List ℕ) (found : List Token) → plain (tokens text) ≡ Ok found → IsTrue (list_all is_readable found) }
{}
