// Groups of bits of a word.
ghost use Rattle.std.specs.Prelude.{◌≡◌, ◌-◌, ◌%◌, ◌^◌, ◌<◌};
ghost use Rattle.major.specs.Bits.{bits_of, cut_of};

// The `width` bits from bit `from` on.
pub(crate) fn read(word: u64, from: usize, width: usize) -> u64
    requires { (from < 64) × (width < 64) }
    ensures { result ≡ bits_of word from width }
{
    (word >> from) % (1u64 << width)
}

// The word without them: the bits behind them move down.
pub(crate) fn cut(word: u64, from: usize, width: usize) -> u64
    requires { (from < 64) × (width < 64) }
    ensures { result ≡ cut_of word from width }
{
    let rest = word >> from;
    word - ((rest - (rest >> width)) << from)
}

// The bits from bit `from` on, where they are.
pub(crate) fn upward(word: u64, from: usize) -> u64
    requires { from < 64 }
    ensures { result ≡ word - word % 2 ^ from }
{
    word - word % (1u64 << from)
}
