// The words of a line, taken from its front one by one. Blanks stand between them, and a comment ends them.
ghost use Rattle.std.specs.Prelude.{◌≡◌, ℕ, ◌<◌, List, [], ◌∷◌, length, false, slice_index, MatchOption};
ghost use Rattle.std.specs.List.{prefix_len, position_or_len};
ghost use Rattle.script.specs.Words.{blank, code, left, words};

// Clauses speak of the words that are `left`. They are no view of an `impl Model`, since a type with that and a lifetime can't be `Copy`.
#[derive(Clone, Copy)]
pub struct Words<'a> {
    rest: &'a str,
}

fn is_blank(byte: u8) -> bool
    ensures { result ≡ blank byte }
{
    matches!(byte, b' ' | b'\t')
}

// How many blanks come first.
fn gap_length(bytes: &[u8]) -> usize
    ensures { result ≡ prefix_len blank bytes.now }
{
    bytes.iter().take_while(|byte| is_blank(**byte)).count()
}

// How many bytes come before the first blank. The two differ in what they test: one for both would be passed a closure, and be longer.
fn word_length(bytes: &[u8]) -> usize
    ensures { result ≡ position_or_len blank bytes.now }
{
    bytes.iter().take_while(|byte| !is_blank(**byte)).count()
}

// The text up to its first `#`.
fn before_comment(text: &str) -> &str
    ensures { result.now ≡ code text.now }
{
    match text.split_once('#') {
        Some((before, _)) => before,
        None => text,
    }
}

impl<'a> Words<'a> {
    pub fn of(text: &'a str) -> Words<'a>
        ensures { left result ≡ words (code text.now) }
    {
        Words {
            rest: before_comment(text),
        }
    }

    // The next word, which is left.
    pub fn peek(&self) -> Option<&'a str>
        ensures { MatchOption result (left self.now ≡ []) (λ w. (rest : List (List ℕ)) × (left self.now ≡ w.now ∷ rest)) }
    {
        let mut ahead = *self;
        ahead.next_word()
    }

    // Passes over the blanks at the front. All words are left.
    pub(crate) fn skip_blanks(&mut self)
        ensures same { left self.new ≡ left self.old }
        ensures solid { 0 < length self.new.rest.now → blank (slice_index self.new.rest.now 0) ≡ false }
    {
        let (_, text) = self.rest.split_at(gap_length(self.rest.as_bytes()));
        self.rest = text;
    }

    // Takes the next word, where no blank comes first.
    pub(crate) fn front_word(&mut self) -> Option<&'a str>
        requires { 0 < length self.now.rest.now → blank (slice_index self.now.rest.now 0) ≡ false }
        ensures { MatchOption result (left self.old ≡ []) (λ w. left self.old ≡ w.now ∷ left self.new) }
    {
        let (word, rest) = self.rest.split_at(word_length(self.rest.as_bytes()));
        self.rest = rest;
        if word.is_empty() {
            return None;
        }
        Some(word)
    }

    // Takes the next word.
    pub fn next_word(&mut self) -> Option<&'a str>
        ensures { MatchOption result (left self.old ≡ []) (λ w. left self.old ≡ w.now ∷ left self.new) }
    {
        self.skip_blanks();
        self.front_word()
    }
}
