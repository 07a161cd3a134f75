//! Words that clap would read as bundles of short options.

ghost use Rattle.std.specs.Prelude.{◌≡◌, map, string_bytes};
ghost use Rattle.pt_words.specs.Short.{has_short, is_short};

/// Whether a word before `--` begins with a single `-` and is longer than that.
pub(crate) fn has_short(words: &[String]) -> bool
    ensures { result ≡ has_short (map string_bytes words.now) }
{
    for word in words {
        if word.as_str() == "--" {
            return false;
        }
        if is_short(word.as_str()) {
            return true;
        }
    }
    false
}

/// Whether a word begins with a single `-` and is longer than that.
fn is_short(word: &str) -> bool
    ensures { result ≡ is_short word.now }
{
    match word.as_bytes() {
        [first, second, ..] => *first == b'-' && *second != b'-',
        _ => false,
    }
}
