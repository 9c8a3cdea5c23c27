//! The names of files that aren't read.

ghost use Rattle.std.specs.Prelude.{◌≡◌, codes};
ghost use Rattle.aa_files.specs.FolderNames.{ends_in, begins_with_dot, is_leftover, is_kept_beside, passes_over};

/// Whether a name ends so.
pub(crate) fn has_ending(name: &[u8], ending: &[u8]) -> bool
    ensures { result ≡ ends_in ending.now name.now }
{
    let (_, end) = name.split_at(name.len().saturating_sub(ending.len()));
    end == ending
}

fn is_hidden(name: &[u8]) -> bool
    ensures { result ≡ begins_with_dot name.now }
{
    matches!(name, [b'.', ..])
}

/// Whether it is a leftover of another package manager, of a merge or of an editor: such a file is passed over in a folder,
/// and people are told of it, since they may have meant it to be read.
#[tactic(auto, unfolding(crate::specs::FolderNames::is_leftover))]
pub fn leaves_a_warning(name: &[u8]) -> bool
    ensures { result ≡ is_leftover name.now }
{
    has_ending(name, ".rpmnew".as_bytes())
        || has_ending(name, ".rpmsave".as_bytes())
        || has_ending(name, ".orig".as_bytes())
        || has_ending(name, ".rej".as_bytes())
        || has_ending(name, "~".as_bytes())
}

#[tactic(auto, unfolding(crate::specs::FolderNames::is_kept_beside))]
fn stands_beside(name: &[u8]) -> bool
    ensures { result ≡ is_kept_beside name.now }
{
    has_ending(name, ".dpkg-new".as_bytes())
        || has_ending(name, ".dpkg-old".as_bytes())
        || has_ending(name, ".dpkg-dist".as_bytes())
        || has_ending(name, ".dpkg-bak".as_bytes())
        || has_ending(name, ".dpkg-remove".as_bytes())
        || has_ending(name, ".pacsave".as_bytes())
        || has_ending(name, ".pacnew".as_bytes())
}

/// Whether a folder's file of this name is passed over (apparmor_parser(8), where it reads folders): a hidden one, README,
/// what a package manager keeps beside a file, and leftovers. A file that is named itself is read in any case.
pub fn is_passed_over(name: &[u8]) -> bool
    ensures { result ≡ passes_over name.now }
{
    is_hidden(name) || name == "README".as_bytes() || stands_beside(name) || leaves_a_warning(name)
}
