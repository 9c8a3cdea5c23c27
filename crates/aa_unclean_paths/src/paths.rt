//! Whether a path is unclean.

ghost use Rattle.std.specs.Prelude.{◌≡◌, ◌↔◌, true};
ghost use Rattle.aa_unclean_paths.specs.Components.{IsUnclean};
ghost use Rattle.aa_unclean_paths.specs.Deciding.{begins_with_nothing, ends_behind_dot, ends_here, is_unclean};

/// Whether the text ends here, or a slash stands here.
fn ends_here(text: &[u8]) -> bool
    ensures { result ≡ ends_here text.now }
{
    match text {
        [] => true,
        [byte, ..] => *byte == b'/',
    }
}

/// Whether what stands behind a dot ends its component, or is one more dot that does.
fn ends_behind_dot(text: &[u8]) -> bool
    ensures { result ≡ ends_behind_dot text.now }
{
    match text {
        [] => true,
        [byte, rest @ ..] => *byte == b'/' || (*byte == b'.' && ends_here(rest)),
    }
}

/// Whether what stands behind a slash begins with a component that is empty and not the last, a dot or two dots.
fn begins_with_nothing(text: &[u8]) -> bool
    ensures { result ≡ begins_with_nothing text.now }
{
    match text {
        [] => false,
        [byte, rest @ ..] => *byte == b'/' || (*byte == b'.' && ends_behind_dot(rest)),
    }
}

/// Whether such a component stands behind one of the slashes.
#[tactic(auto, unfolding(crate::specs::Deciding::is_unclean))]
fn has_nothing(path: &[u8]) -> bool
    ensures { result ≡ is_unclean path.now }
{
    let mut text = path;
    while let [byte, rest @ ..] = text {
        if *byte == b'/' && begins_with_nothing(rest) {
            return true;
        }
        text = rest;
    }
    false
}

/// Whether a component of the path is `.` or `..`, or is empty and not the last: `/` and `/a/` are clean.
pub fn is_unclean(path: &[u8]) -> bool
    ensures tells { (result ≡ true) ↔ IsUnclean path.now }
    ensures value { result ≡ is_unclean path.now }
{
    has_nothing(path)
}
