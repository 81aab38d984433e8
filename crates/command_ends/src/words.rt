// What the words of commands have in common.
ghost use Rattle.std.specs.Prelude.{◌≡◌};
ghost use Rattle.command_ends.specs.Words.{is_file_word};

/// Whether a word names a file, or the input: one that begins with `-` is `-` alone.
pub fn is_file_word(word: &str) -> bool
    ensures { result ≡ is_file_word word.now }
{
    !word.starts_with("-") || word == "-"
}
