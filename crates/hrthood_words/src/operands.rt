ghost use Rattle.std.specs.Prelude.{◌≡◌, ◌≤◌, IfSome, option_map};
ghost use Rattle.hrthood_words.specs.Views.{operand_words};
ghost use Rattle.hrthood_words.specs.Words.{is_file_name, one_count, one_file, sample_size, thread_count, three_files, two_files};

/// The words behind a verb, where there are as many as some verb asks for.
#[derive(Clone, Copy)]
pub(crate) enum Operands<'a> {
    /// One word.
    One(&'a str),
    /// Two words.
    Two(&'a str, &'a str),
    /// Three words.
    Three(&'a str, &'a str, &'a str),
}

/// Whether a word may name a file: it isn't empty and doesn't begin with a dash.
pub(crate) fn is_file_name(word: &str) -> bool
    ensures { result ≡ is_file_name word.now }
{
    match word.as_bytes().first() {
        Some(first) => *first != b'-',
        None => false,
    }
}

/// The name that the words are, where they are the name of one file.
pub(crate) fn one_file<'a>(words: Operands<'a>) -> Option<&'a str>
    ensures { option_map (λ name. name.now) result ≡ one_file (operand_words words.entry) }
{
    match words {
        Operands::One(name) if is_file_name(name) => Some(name),
        _ => None,
    }
}

/// The names that the words are, where they are the names of two files.
pub(crate) fn two_files<'a>(words: Operands<'a>) -> Option<(&'a str, &'a str)>
    ensures { option_map (λ names. (names.0.now, names.1.now)) result ≡ two_files (operand_words words.entry) }
{
    match words {
        Operands::Two(first, second) if is_file_name(first) && is_file_name(second) => {
            Some((first, second))
        }
        _ => None,
    }
}

/// The names that the words are, where they are the names of three files.
pub(crate) fn three_files<'a>(words: Operands<'a>) -> Option<(&'a str, &'a str, &'a str)>
    ensures { option_map (λ names. (names.0.now, (names.1.now, names.2.now))) result ≡ three_files (operand_words words.entry) }
{
    match words {
        Operands::Three(first, second, third)
            if is_file_name(first) && is_file_name(second) && is_file_name(third) => {
            Some((first, second, third))
        }
        _ => None,
    }
}

/// So many threads, where a sample may have them.
fn sample_size(threads: u32) -> Option<u32>
    ensures size { result ≡ sample_size threads }
    ensures few { IfSome result (λ n. (1 ≤ n) × (n ≤ 30)) }
{
    if 1 <= threads && threads <= 30 {
        Some(threads)
    } else {
        None
    }
}

/// How many threads a word asks for: one or two decimal digits with a value from 1 to 30.
fn thread_count(word: &str) -> Option<u32>
    ensures count { result ≡ thread_count word.now }
    ensures few { IfSome result (λ n. (1 ≤ n) × (n ≤ 30)) }
{
    match word.as_bytes() {
        [ones] if ones.is_ascii_digit() => sample_size(u32::from(ones.saturating_sub(b'0'))),
        [tens, ones] if tens.is_ascii_digit() && ones.is_ascii_digit() => {
            let tens = u32::from(tens.saturating_sub(b'0'));
            sample_size(10 * tens + u32::from(ones.saturating_sub(b'0')))
        }
        _ => None,
    }
}

/// The count that the words are, where they are one word with a count of threads.
pub(crate) fn one_count(words: Operands<'_>) -> Option<u32>
    ensures count { result ≡ one_count (operand_words words.entry) }
    ensures few { IfSome result (λ n. (1 ≤ n) × (n ≤ 30)) }
{
    match words {
        Operands::One(count) => thread_count(count),
        Operands::Two(_, _) | Operands::Three(_, _, _) => None,
    }
}
