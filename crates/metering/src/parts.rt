// The lines of a text and the words of a line, each an iterator over bytes. Those of `str` give the same, but go by characters, and take
// several times as long on lines that are short or empty.
ghost use Rattle.std.specs.Prelude.{◌≡◌, ◌<◌, ◌≤◌, false, ◌∷◌, length, take, drop, slice_index};
ghost use Rattle.std.specs.Char.{is_ascii_whitespace};
ghost use Rattle.std.specs.Iterator.{YieldsFirstRef, at_most};
ghost use Rattle.metering.specs.Texts.{lines, words};
ghost use Rattle.metering.specs.Parts.{lines_left, words_left};

// Each line has its newline.
#[derive(Drop)]
pub struct TextLines<'a> {
    rest: &'a [u8],
}

impl<'a> TextLines<'a> {
    pub fn of(text: &'a str) -> TextLines<'a>
        ensures { lines_left result ≡ lines text.now }
    {
        TextLines {
            rest: text.as_bytes(),
        }
    }
}

impl<'a> Iterator for TextLines<'a> {
    type Item = &'a [u8];

    ghost next_gives = { YieldsFirstRef lines_left };

    ghost remaining = { λ s. at_most (length s.rest.now) };

    fn next(&mut self) -> Option<&'a [u8]> {
        let text = self.rest;
        if text.is_empty() {
            return None;
        }
        let (line, rest) = text.split_at(line_end(text));
        self.rest = rest;
        Some(line)
    }
}

// Where the first line ends: after its newline, or with the text.
fn line_end(text: &[u8]) -> usize
    requires { 0 < length text.now }
    ensures bound { (0 < result) × (result ≤ length text.now) }
    ensures first { lines text.now ≡ take result text.now ∷ lines (drop result text.now) }
{
    // An empty line, as there may be many, needs no search.
    if text[0] == b'\n' {
        return 1;
    }
    match text.iter().position(|byte| *byte == b'\n') {
        Some(newline) => newline + 1,
        None => text.len(),
    }
}

// White space belongs to no word.
#[derive(Drop)]
pub struct LineWords<'a> {
    rest: &'a [u8],
}

impl<'a> LineWords<'a> {
    pub fn of(line: &'a [u8]) -> LineWords<'a>
        ensures { words_left result ≡ words line.now }
    {
        LineWords { rest: line }
    }
}

impl<'a> Iterator for LineWords<'a> {
    type Item = &'a [u8];

    ghost next_gives = { YieldsFirstRef words_left };

    ghost remaining = { λ s. at_most (length s.rest.now) };

    fn next(&mut self) -> Option<&'a [u8]> {
        let visible = self.rest.trim_ascii_start();
        if visible.is_empty() {
            return None;
        }
        let (word, rest) = cut_word(visible);
        self.rest = rest;
        Some(word)
    }
}

// The word that a line begins with, and what follows the white space that ends it.
fn cut_word(line: &[u8]) -> (&[u8], &[u8])
    requires some { 0 < length line.now }
    requires begins { is_ascii_whitespace (slice_index line.now 0) ≡ false }
    ensures first { words line.now ≡ result.0.now ∷ words result.1.now }
    ensures shorter { length result.1.now < length line.now }
{
    match line.iter().position(|byte| byte.is_ascii_whitespace()) {
        Some(blank) => (&line[..blank], &line[blank + 1..]),
        None => (line, &[]),
    }
}
