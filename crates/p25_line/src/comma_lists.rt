//! Words that are lists: entries with commas between them, or `-` for no entry.

ghost use Rattle.std.specs.{Prelude.{◌≡◌, ◌+◌, ◌≤◌, ◌∷◌, length}, Str.{bytes_eq}};
ghost use Rattle.p25_line.specs.CommaLists.{dash, parts_from};

/// Returns whether a word is `-`, which represents no entry.
pub fn is_dash(word: &[u8]) -> bool
    ensures { result ≡ bytes_eq word.now dash }
{
    matches!(word, b"-")
}

/// Returns the part of a word that begins at `start`: up to the next comma, or to the end.
pub fn comma_part(word: &[u8], start: usize) -> &[u8]
    requires { start ≤ length word.now }
    ensures within { start + length result.now ≤ length word.now }
    ensures parts { parts_from word.now start ≡ result.now ∷ parts_from word.now (start + length result.now + 1) }
{
    for i in start..word.len() {
        if word[i] == b',' {
            return &word[start..i];
        }
    }
    &word[start..]
}
