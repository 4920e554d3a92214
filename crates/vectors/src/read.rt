// Numbers from the commands.
ghost use Rattle.std.specs.Prelude.{◌≤◌, ◌<◌, IsSome, length};
ghost use Rattle.vectors.specs.Commands.{IsOnward};

// A number as a list has it: cut to its width.
pub(crate) trait Entry: Copy {
    fn cut(n: u64) -> Self;
}

impl Entry for u8 {
    fn cut(n: u64) -> u8 {
        (n % 256) as u8
    }
}

impl Entry for u32 {
    fn cut(n: u64) -> u32 {
        (n % 4_294_967_296) as u32
    }
}

impl Entry for u64 {
    fn cut(n: u64) -> u64 {
        n
    }
}

// The commands that are still to be read.
#[derive(Clone, Copy)]
pub(crate) struct Commands<'a> {
    pub rest: &'a [u8],
}

impl<'a> Commands<'a> {
    // The next byte.
    pub(crate) fn letter(&mut self) -> Option<u8>
        ensures onward { IsOnward self.old self.new }
        ensures one { IsSome result → length self.new.rest.now < length self.old.rest.now }
    {
        let (letter, rest) = self.rest.split_first()?;
        self.rest = rest;
        Some(*letter)
    }

    // The next number, and the largest where it is too large; 0 past the end.
    pub(crate) fn number(&mut self) -> u64
        ensures { IsOnward self.old self.new }
    {
        let start = self.rest.iter().position(|b| b.is_ascii_digit());
        let digits = &self.rest[start.unwrap_or(self.rest.len())..];
        let end = digits.iter().position(|b| !b.is_ascii_digit());
        let (digits, rest) = digits.split_at(end.unwrap_or(digits.len()));
        self.rest = rest;
        digits.iter().fold(0, |n: u64, b| {
            n.saturating_mul(10).saturating_add(u64::from(*b % 48))
        })
    }

    // The next number, as a total is.
    pub(crate) fn total(&mut self) -> u32
        ensures { IsOnward self.old self.new }
    {
        u32::cut(self.number())
    }

    // The next list, its length in front; as many of its entries as there is room for.
    pub(crate) fn list<'l, T: Entry>(&mut self, space: &'l mut [T]) -> &'l mut [T]
        ensures { IsOnward self.old self.new }
    {
        let len = (self.number() as usize).min(space.len());
        let list = &mut space[..len];
        for entry in list.iter_mut() {
            *entry = T::cut(self.number());
        }
        list
    }
}
