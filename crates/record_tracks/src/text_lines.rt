//! A text by its lines.

ghost use Rattle.std.specs.Prelude.{◌≡◌, ◌<◌, ◌∷◌, length};
ghost use Rattle.record_tracks.specs.Lines.{lines_of};

/// What ends a line.
const LINE_FEED: u8 = b'\n';

/// The first line of a text, without the line feed behind it, and what stands behind that.
pub(crate) fn split_line(text: &[u8]) -> (&[u8], &[u8])
    requires { 0 < length text.now }
    ensures lines { lines_of text.now ≡ result.0.now ∷ lines_of result.1.now }
    ensures shorter { length result.1.now < length text.now }
{
    for end in 0..text.len() {
        if text[end] == LINE_FEED {
            return (&text[..end], &text[end + 1..]);
        }
    }
    (text, &[])
}
