//! Sorts of bytes, and how many of a sort stand at the front of a text.
ghost use Rattle.std.specs.Prelude.{◌≡◌};
ghost use Rattle.std.specs.Char.{is_ascii_digit};
ghost use Rattle.sq_token.specs.Bytes.{is_blank, starts_word, in_word, next_passes};
ghost use Rattle.sq_token.specs.Run.{IsRun};

pub(crate) fn is_blank(byte: u8) -> bool
    ensures { result ≡ is_blank byte }
{
    matches!(byte, b' ' | b'\t' | b'\n' | b'\r' | 0x0c)
}

pub(crate) fn starts_word(byte: u8) -> bool
    ensures { result ≡ starts_word byte }
{
    byte.is_ascii_alphabetic() || byte == b'_'
}

pub(crate) fn in_word(byte: u8) -> bool
    ensures { result ≡ in_word byte }
{
    starts_word(byte) || byte.is_ascii_digit()
}

/// How many bytes at the front of `text` may stand in a word.
pub(crate) fn word_len(text: &[u8]) -> usize
    ensures { IsRun in_word text.now result }
{
    text.iter()
        .position(|byte| !in_word(*byte))
        .unwrap_or(text.len())
}

/// How many digits stand at the front of `text`.
pub(crate) fn digits_len(text: &[u8]) -> usize
    ensures { IsRun is_ascii_digit text.now result }
{
    text.iter()
        .position(|byte| !byte.is_ascii_digit())
        .unwrap_or(text.len())
}

/// Whether the next byte of `text` may begin a word.
pub(crate) fn begins_word(text: &[u8]) -> bool
    ensures { result ≡ next_passes starts_word text.now }
{
    match text {
        [] => false,
        [first, ..] => starts_word(*first),
    }
}
