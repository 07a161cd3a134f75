//! The fields of a line.

ghost use Rattle.std.specs.Prelude.{◌≡◌, ◌==◌, option_map, position};
ghost use Rattle.pt_feeds.specs.Fields.{fields, fields_by, one, three, two, without_return};

/// A line without the carriage return that may end it.
pub fn without_return(line: &[u8]) -> &[u8]
    ensures { result.now ≡ without_return line.now }
{
    if line.is_empty() || line[line.len() - 1] != b'\r' {
        return line;
    }
    &line[..line.len() - 1]
}

/// What is before the first comma and what is after it, if there is one.
#[tactic(auto, using(crate::proofs::Cutting::cut_at))]
fn cut(line: &[u8]) -> Option<(&[u8], &[u8])>
    ensures { fields line.now ≡ fields_by (option_map (λ c. (c.0.now, c.1.now)) result) line.now }
{
    match comma(line) {
        Some(comma) => Some((&line[..comma], &line[comma + 1..])),
        None => None,
    }
}

/// The index of the first comma.
fn comma(line: &[u8]) -> Option<usize>
    ensures { result ≡ position (λ b. b == 44) line.now }
{
    line.iter().position(|b| *b == b',')
}

/// The field of a line that has only one.
#[tactic(auto, using(crate::proofs::Cutting::not_one))]
pub fn one(line: &[u8]) -> Option<&[u8]>
    ensures { option_map (λ f. f.now) result ≡ one (fields line.now) }
{
    match cut(line) {
        Some(_) => None,
        None => Some(line),
    }
}

/// The fields of a line that has two.
#[tactic(auto, using(crate::proofs::Cutting::two_one))]
pub fn two(line: &[u8]) -> Option<(&[u8], &[u8])>
    ensures { option_map (λ f. (f.0.now, f.1.now)) result ≡ two (fields line.now) }
{
    let (first, rest) = cut(line)?;
    let second = one(rest)?;
    Some((first, second))
}

/// The fields of a line that has three.
#[tactic(auto, using(crate::proofs::Cutting::three_two))]
pub fn three(line: &[u8]) -> Option<(&[u8], &[u8], &[u8])>
    ensures { option_map (λ f. (f.0.now, f.1.now, f.2.now)) result ≡ three (fields line.now) }
{
    let (first, rest) = cut(line)?;
    let (second, third) = two(rest)?;
    Some((first, second, third))
}
