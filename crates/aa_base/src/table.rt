//! Tables of names.

ghost use Rattle.std.specs.Prelude.{◌≡◌, ◌<◌, Some, length, map, slice_get};
ghost use Rattle.aa_base.specs.Tables.{number_in};

/// The number of the entry with that name, if there is one.
pub fn number_in(table: &[&str], name: &[u8]) -> Option<usize>
    ensures { result ≡ number_in (map (λ entry. entry.now) table.now) name.now }
{
    table.iter().position(|entry| entry.as_bytes() == name)
}

/// The name of the entry with that number.
pub fn name_at<'t>(table: &[&'t str], number: usize) -> &'t str
    requires { number < length table.now }
    ensures { slice_get (map (λ entry. entry.now) table.now) number ≡ Some result.now }
{
    table[number]
}
