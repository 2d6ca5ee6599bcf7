// The words of a line, and a search for the byte that ends one.
ghost use Rattle.std.specs.Prelude.{◌+◌, ◌≡◌, length, drop};
ghost use Rattle.script.specs.Words.{up_to, words_of, place_in};

// The index of the first byte from index `from` on that is b, or the end where there is none.
pub fn find(s: &[u8], from: usize, b: u8) -> usize
    ensures { result ≡ from + length (up_to b (drop from s.now)) }
{
    let rest = &s[from.min(s.len())..];
    from + rest.iter().position(|x| *x == b).unwrap_or(rest.len())
}

// The place of a word among the words of a text.
pub fn index_of_word(text: &[u8], word: &[u8]) -> Option<usize>
    ensures { result ≡ place_in word.now (words_of text.now) }
{
    text.split(|b| *b == b' ').position(|w| w == word)
}
