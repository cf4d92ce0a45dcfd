ghost use Rattle.std.specs.Prelude.{◌≡◌, List, ℕ, map, IfSome};
ghost use Rattle.seq_tree.specs.Proper.{is_among};
ghost use Rattle.ada_tree.specs.Words.{is_ada_name, kept_words, reserved_words};
ghost use Rattle.words.specs.Begun.{AreWith};
ghost use Rattle.ods_tree.specs.Words.{design_words, is_design_name};

/// The reserved words of Ada 2012.
const RESERVED: [&str; 73] = [
    "abort",
    "abs",
    "abstract",
    "accept",
    "access",
    "aliased",
    "all",
    "and",
    "array",
    "at",
    "begin",
    "body",
    "case",
    "constant",
    "declare",
    "delay",
    "delta",
    "digits",
    "do",
    "else",
    "elsif",
    "end",
    "entry",
    "exception",
    "exit",
    "for",
    "function",
    "generic",
    "goto",
    "if",
    "in",
    "interface",
    "is",
    "limited",
    "loop",
    "mod",
    "new",
    "not",
    "null",
    "of",
    "or",
    "others",
    "out",
    "overriding",
    "package",
    "pragma",
    "private",
    "procedure",
    "protected",
    "raise",
    "range",
    "record",
    "rem",
    "renames",
    "requeue",
    "return",
    "reverse",
    "select",
    "separate",
    "some",
    "subtype",
    "synchronized",
    "tagged",
    "task",
    "terminate",
    "then",
    "type",
    "until",
    "use",
    "when",
    "while",
    "with",
    "xor",
];

/// The words that the text uses itself.
const KEPT: [&str; 11] = [
    "hrt",
    "word",
    "work",
    "put",
    "activation_end",
    "boolean",
    "true",
    "false",
    "ada",
    "standard",
    "system",
];

/// The words that are no name in a design.
const DESIGN_WORDS: [&str; 30] = [
    "end",
    "provides",
    "requires",
    "data",
    "operation",
    "thread",
    "objects",
    "implements",
    "begin",
    "is",
    "null",
    "if",
    "then",
    "elsif",
    "else",
    "for",
    "in",
    "out",
    "loop",
    "exit",
    "when",
    "range",
    "mod",
    "and",
    "or",
    "xor",
    "not",
    "word",
    "work",
    "put",
];

/// Whether a name, in lower case, is one of these words.
pub fn is_among(words: &[&str], name: &[u8]) -> bool
    ensures { result ≡ is_among (map (λ w. w.now) words.now) name.now }
{
    'words: for word in words {
        if word.as_bytes() == name {
            return true;
        }
    }
    false
}

/// The reserved words that begin with this byte; None where it is no letter.
fn reserved_with(first: u8) -> Option<&'static [&'static str]>
    ensures { IfSome result (λ ws. (rest : List ℕ) → AreWith reserved_words (map (λ w. w.now) ws.now) first rest) }
{
    match first {
        b'a' => Some(&[
            "abort", "abs", "abstract", "accept", "access", "aliased", "all", "and", "array", "at",
        ]),
        b'b' => Some(&["begin", "body"]),
        b'c' => Some(&["case", "constant"]),
        b'd' => Some(&["declare", "delay", "delta", "digits", "do"]),
        b'e' => Some(&["else", "elsif", "end", "entry", "exception", "exit"]),
        b'f' => Some(&["for", "function"]),
        b'g' => Some(&["generic", "goto"]),
        b'i' => Some(&["if", "in", "interface", "is"]),
        b'l' => Some(&["limited", "loop"]),
        b'm' => Some(&["mod"]),
        b'n' => Some(&["new", "not", "null"]),
        b'o' => Some(&["of", "or", "others", "out", "overriding"]),
        b'p' => Some(&["package", "pragma", "private", "procedure", "protected"]),
        b'r' => Some(&[
            "raise", "range", "record", "rem", "renames", "requeue", "return", "reverse",
        ]),
        b's' => Some(&["select", "separate", "some", "subtype", "synchronized"]),
        b't' => Some(&["tagged", "task", "terminate", "then", "type"]),
        b'u' => Some(&["until", "use"]),
        b'w' => Some(&["when", "while", "with"]),
        b'x' => Some(&["xor"]),
        b'h' | b'j' | b'k' | b'q' | b'v' | b'y' | b'z' => Some(&[]),
        _ => None,
    }
}

/// The words that the text uses itself and that begin with this byte; None where it is no letter.
fn kept_with(first: u8) -> Option<&'static [&'static str]>
    ensures { IfSome result (λ ws. (rest : List ℕ) → AreWith kept_words (map (λ w. w.now) ws.now) first rest) }
{
    match first {
        b'a' => Some(&["activation_end", "ada"]),
        b'b' => Some(&["boolean"]),
        b'f' => Some(&["false"]),
        b'h' => Some(&["hrt"]),
        b'p' => Some(&["put"]),
        b's' => Some(&["standard", "system"]),
        b't' => Some(&["true"]),
        b'w' => Some(&["word", "work"]),
        b'c'
        | b'd'
        | b'e'
        | b'g'
        | b'i'
        | b'j'
        | b'k'
        | b'l'
        | b'm'
        | b'n'
        | b'o'
        | b'q'
        | b'r'
        | b'u'
        | b'v'
        | b'x'
        | b'y'
        | b'z' => Some(&[]),
        _ => None,
    }
}

/// The words that are no name in a design and that begin with this byte; None where it is no letter.
fn design_words_with(first: u8) -> Option<&'static [&'static str]>
    ensures { IfSome result (λ ws. (rest : List ℕ) → AreWith design_words (map (λ w. w.now) ws.now) first rest) }
{
    match first {
        b'a' => Some(&["and"]),
        b'b' => Some(&["begin"]),
        b'd' => Some(&["data"]),
        b'e' => Some(&["end", "elsif", "else", "exit"]),
        b'f' => Some(&["for"]),
        b'i' => Some(&["implements", "is", "if", "in"]),
        b'l' => Some(&["loop"]),
        b'm' => Some(&["mod"]),
        b'n' => Some(&["null", "not"]),
        b'o' => Some(&["operation", "objects", "out", "or"]),
        b'p' => Some(&["provides", "put"]),
        b'r' => Some(&["requires", "range"]),
        b't' => Some(&["thread", "then"]),
        b'w' => Some(&["when", "word", "work"]),
        b'x' => Some(&["xor"]),
        b'c' | b'g' | b'h' | b'j' | b'k' | b'q' | b's' | b'u' | b'v' | b'y' | b'z' => Some(&[]),
        _ => None,
    }
}

/// Whether a name, in lower case, is a reserved word.
fn is_reserved(name: &[u8]) -> bool
    ensures { result ≡ is_among reserved_words name.now }
{
    let Some((first, _)) = name.split_first() else {
        return false;
    };
    match reserved_with(*first) {
        Some(words) => is_among(words, name),
        None => is_among(&RESERVED, name),
    }
}

/// Whether a name, in lower case, is one that the text uses itself.
fn is_kept(name: &[u8]) -> bool
    ensures { result ≡ is_among kept_words name.now }
{
    let Some((first, _)) = name.split_first() else {
        return false;
    };
    match kept_with(*first) {
        Some(words) => is_among(words, name),
        None => is_among(&KEPT, name),
    }
}

/// Whether a word, in lower case, is one of the grammar of designs.
fn is_design_word(name: &[u8]) -> bool
    ensures { result ≡ is_among design_words name.now }
{
    let Some((first, _)) = name.split_first() else {
        return false;
    };
    match design_words_with(*first) {
        Some(words) => is_among(words, name),
        None => is_among(&DESIGN_WORDS, name),
    }
}

/// Whether a name, in lower case, may stand in an Ada text: it is not empty, not reserved, not kept for what the text uses itself, and does
/// not begin with `hrt_`.
#[tactic(auto, unfolding(ada_tree::specs::Words::is_ada_name))]
pub fn is_ada_name(name: &[u8]) -> bool
    ensures { result ≡ is_ada_name name.now }
{
    !(name.is_empty() || is_reserved(name) || is_kept(name) || name.starts_with(b"hrt_"))
}

/// Whether a word, in lower case, may be a name in a design: it has a byte, and is none of the words of the grammar.
#[tactic(auto, unfolding(ods_tree::specs::Words::is_design_name))]
pub fn is_design_name(name: &[u8]) -> bool
    ensures { result ≡ is_design_name name.now }
{
    !(name.is_empty() || is_design_word(name))
}
