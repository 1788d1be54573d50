//! The strings of names.
ghost use Rattle.std.specs.Prelude.{◌≡◌, slice_index_or};

use nfg_strand::NString;

/// The string of a name, or `nothing` where no line defines the name.
pub(crate) fn string_of_name<'a>(
    strings: &'a [NString],
    name: u32,
    nothing: &'a NString,
) -> &'a NString
    ensures { result.now ≡ slice_index_or strings.now name nothing.now }
{
    match strings.get(name as usize) {
        Some(string) => string,
        None => nothing,
    }
}
