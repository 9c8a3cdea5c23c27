//! The shortest of some paths.

ghost use Rattle.std.specs.Prelude.{◌≡◌, ◌<◌, length, option_map};
ghost use Rattle.aa_findings.specs.Shortest.{nearer, nearest};

use aa_base::Text;

/// The other one where it is shorter.
fn nearer<'t>(best: Option<&'t [u8]>, other: &'t [u8]) -> &'t [u8]
    ensures { result.now ≡ nearer (option_map (λ b. b.now) best.entry) other.entry.now }
{
    match best {
        Some(best) if best.len() <= other.len() => best,
        _ => other,
    }
}

/// The first of the shortest.
pub(crate) fn shortest(texts: &[Text]) -> Option<&[u8]>
    ensures { option_map (λ b. b.now) result ≡ nearest texts.now (length texts.now) }
{
    let mut best = None;
    for number in 0..texts.len() {
        best = Some(nearer(best, texts[number].as_slice()));
    }
    best
}
