//! Lines and columns.
ghost use Rattle.std.specs.Prelude.{◌≡◌, ◌≤◌, count_by, length};
ghost use Rattle.std.specs.List.{suffix_len};
ghost use Rattle.bidi_cddl.specs.Place.{column_of, is_line_feed, line_of};
ghost use Rattle.bidi_cddl.specs.Sizes.{is_in_line};

/// The line and the column of a byte of a text, both from 1 on. A column counts bytes.
#[tactic(auto, using(std::proofs::lemmas::List::take_min))]
pub fn line_and_column(text: &str, at: usize) -> (usize, usize)
    // The line is one more than the line feeds before the byte.
    ensures line { result.0 ≡ line_of text.now at }
    // The column is one more than the bytes between the last of them and the byte.
    ensures column { result.1 ≡ column_of text.now at }
{
    let bytes = text.as_bytes();
    let (before, _) = bytes.split_at(at.min(bytes.len()));
    (line_feeds(before) + 1, last_line_size(before) + 1)
}

// How many line feeds there are.
fn line_feeds(bytes: &[u8]) -> usize
    ensures size { result ≡ count_by is_line_feed bytes.now }
    ensures within { result ≤ length bytes.now }
{
    bytes.iter().filter(|byte| **byte == b'\n').count()
}

// How many bytes are behind the last line feed.
#[tactic(auto, using(crate::proofs::PlaceLemmas::suffix_feed, crate::proofs::PlaceLemmas::suffix_other))]
fn last_line_size(bytes: &[u8]) -> usize
    ensures size { result ≡ suffix_len is_in_line bytes.now }
    ensures within { result ≤ length bytes.now }
{
    let mut size = 0;
    for byte in bytes {
        if *byte == b'\n' {
            size = 0;
        } else {
            size += 1;
        }
    }
    size
}
