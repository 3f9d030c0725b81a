// Text as pieces that end in a separator: an input's lines, a line's words.
ghost use Rattle.std.specs.Prelude.{◌≡◌, ◌<◌, [], ◌∷◌, ◌==◌, length, position, MatchOption};
ghost use Rattle.std.specs.Iterator.{YieldsFirstRef, item_count};
ghost use Rattle.text.specs.Pieces as Spec;

// The pieces of a text, one after another.
#[derive(Drop)]
pub struct Pieces<'a> {
    separator: u8,
    rest: &'a [u8],
}

impl<'a> Iterator for Pieces<'a> {
    type Item = &'a [u8];

    ghost next_gives = { YieldsFirstRef Spec.pieces_left };

    ghost remaining = { item_count Spec.pieces_left };

    fn next(&mut self) -> Option<&'a [u8]> {
        let (piece, after) = first_piece(self.separator, self.rest)?;
        self.rest = after;
        Some(piece)
    }
}

// The lines of an input.
pub fn lines(text: &[u8]) -> Pieces<'_>
    ensures { Spec.pieces_left result ≡ Spec.lines text.now }
{
    Pieces {
        separator: b'\n',
        rest: text,
    }
}

// The words of a line.
pub fn words(line: &[u8]) -> Pieces<'_>
    ensures { Spec.pieces_left result ≡ Spec.words line.now }
{
    Pieces {
        separator: b' ',
        rest: line,
    }
}

// The first piece of `text`, without its separator, and what follows; none where `text` is empty.
#[tactic(auto, unfolding(crate::specs::Pieces::pieces))]
pub fn first_piece(separator: u8, text: &[u8]) -> Option<(&[u8], &[u8])>
    ensures cut { MatchOption result (Spec.pieces separator text.now ≡ []) (λ p. Spec.pieces separator text.now ≡ p.0.now ∷ Spec.pieces separator p.1.now) }
    ensures shorter { MatchOption result (length text.now ≡ 0) (λ p. length p.1.now < length text.now) }
{
    if text.is_empty() {
        return None;
    }
    match end_of_piece(separator, text) {
        Some(end) => Some((&text[..end], &text[end + 1..])),
        None => Some((text, &[])),
    }
}

// The place of the first separator.
fn end_of_piece(separator: u8, text: &[u8]) -> Option<usize>
    ensures { result ≡ position (λ b. b == separator) text.now }
{
    text.iter().position(|b| *b == separator)
}
