ghost use Rattle.std.specs.Prelude.{◌≡◌, ◌≤◌, ◌<◌, ◌↔◌, IsTrue, length};
ghost use Rattle.std.specs.Option.{option_copied};
ghost use Rattle.dp_shell.specs.{FitsShelf, IsPart, all_differ, count_given, files_of, names_of, place_of, text_named};

/// Whether these files can be put on a shelf in memory: they are at most 8, all of different names.
pub fn fits_shelf(files: &[(String, Vec<u8>)]) -> bool
    ensures { IsTrue result ↔ FitsShelf files.now }
{
    files.len() <= 8 && all_differ(files)
}

/// Whether no two files have one name.
fn all_differ(files: &[(String, Vec<u8>)]) -> bool
    ensures { result ≡ all_differ (names_of files.now) }
{
    for (i, file) in files.iter().enumerate() {
        let rest = &files[i + 1..];
        if place(rest, file.0.as_str()) < rest.len() {
            return false;
        }
    }
    true
}

/// The place of a name among the files, or how many these are.
pub(crate) fn place(files: &[(String, Vec<u8>)], name: &str) -> usize
    ensures value { result ≡ place_of (names_of files.now) name.now }
    ensures bound { result ≤ length files.now }
{
    for (i, file) in files.iter().enumerate() {
        if file.0.as_str() == name {
            return i;
        }
    }
    files.len()
}

/// The text of a name.
pub(crate) fn find<'a>(files: &'a [(String, Vec<u8>)], name: &str) -> Option<&'a [u8]>
    ensures { option_copied result ≡ text_named (files_of files.now) name.now }
{
    for file in files {
        if file.0.as_str() == name {
            return Some(file.1.as_slice());
        }
    }
    None
}

/// Copies bytes of a text from an offset on, at most so many, and answers how many.
pub(crate) fn copy_part(text: &[u8], from: u64, most: usize, into: &mut [u8]) -> usize
    requires { 0 < most }
    ensures part { IsPart text.now from result into.new }
    ensures count { result ≡ count_given most text.now from (length into.new) }
{
    let Ok(start) = usize::try_from(from) else {
        return 0;
    };
    if start >= text.len() {
        return 0;
    }
    let count = most.min(into.len().min(text.len() - start));
    into[..count].copy_from_slice(&text[start..start + count]);
    count
}
