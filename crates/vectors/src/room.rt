// Room for lists, and what is lent of it, whatever the lengths.
ghost use Rattle.std.specs.Prelude.{◌≡◌, length};

// The entries of a column, and of a script's pool, in which bundles name several a call.
pub(crate) const ENTRIES: usize = 2048;

// The numbers of 2,048 rows of answers, and of a script of as many calls and more.
pub(crate) const NUMBERS: usize = 59392;

// Room that holds 7s before something is stored there, and not 0s: what a call leaves as it was shows.
pub(crate) fn filled<T: Copy + From<u8>, const N: usize>() -> [T; N]
    ensures { N ≡ length result }
{
    [T::from(7); N]
}

// The first n entries, or all.
pub(crate) fn part<T>(s: &[T], n: u64) -> &[T] {
    &s[..(n as usize).min(s.len())]
}

// The same, to be written.
pub(crate) fn lent<T>(s: &mut [T], n: u64) -> &mut [T] {
    let size = (n as usize).min(s.len());
    &mut s[..size]
}
