// Runs vectors from outside through the library. Standard input has a command a line, a letter and numbers (a list has its length in front); each is
// answered by a line of numbers, those on the ledger by several. tests/vectors.py draws the commands and has the answers from an independent
// implementation.
#![tactic(auto)]

ghost use Rattle.vectors.specs.Commands.{IsOnward};

mod interleave;
mod read;
mod record;
mod room;
mod show;

use bounds::{Bounds, Reason};
use read::Commands;
use show::Answers;
use std::io;
use std::io::Read;

// What a lent part holds before a call.
const FILL: u8 = 170;

// The most pieces that are read.
const PIECES: u32 = 4;

// The bytes of a piece.
const PIECE: u64 = 65536;

// count: c, upper, total: number, detail, N
fn count(to: &mut Answers, from: &mut Commands)
    ensures { IsOnward from.old from.new }
{
    let mut upper = [0u8; 64];
    let upper = from.list(&mut upper);
    to.counted(count::check(upper, from.total()));
}

// a record that nobody has checked: e, number of parts, 24 cells, total: number, detail, N
fn count_record(to: &mut Answers, from: &mut Commands)
    ensures { IsOnward from.old from.new }
{
    let mut upper = [0u8; 24];
    let parts = from.number() as usize;
    from.list(&mut upper);
    let total = from.total();
    to.counted(count::check_record(Bounds {
        parts,
        upper,
        total,
    }));
}

// table: t, k, r: M(k, r), and nothing outside the table
fn table(to: &mut Answers, from: &mut Commands)
    ensures { IsOnward from.old from.new }
{
    let k = from.number() % 65536;
    let r = from.number() % 65536;
    if let Some(n) = mahonian::read(k as usize, r as usize) {
        to.first(n);
    }
    to.end();
}

// rank: r, upper, total, composition: number, detail, serial
fn rank(to: &mut Answers, from: &mut Commands)
    ensures { IsOnward from.old from.new }
{
    let mut upper = [0u8; 64];
    let mut composition = [0u8; 64];
    let upper = from.list(&mut upper);
    let total = from.total();
    let composition = from.list(&mut composition);
    to.number(rank::rank(upper, total, composition));
}

// unrank: u, upper, total, serial, length: number, detail, the lent part
fn unrank(to: &mut Answers, from: &mut Commands)
    ensures { IsOnward from.old from.new }
{
    let mut upper = [0u8; 64];
    let mut out = [FILL; 1024];
    let upper = from.list(&mut upper);
    let total = from.total();
    let serial = from.number();
    let lent = room::lent(&mut out, from.number());
    let r = rank::unrank(upper, total, serial, lent);
    to.lent(r, lent);
}

// step: s forward or p backward, upper, total, composition: number, detail, 24 cells, gain, loss
fn step(to: &mut Answers, from: &mut Commands, back: bool)
    ensures { IsOnward from.old from.new }
{
    let mut upper = [0u8; 64];
    let mut given = [0u8; 64];
    let upper = from.list(&mut upper);
    let total = from.total();
    let composition = from.list(&mut given);
    to.stepped(if back {
        step::predecessor(upper, total, composition)
    } else {
        step::successor(upper, total, composition)
    });
}

// batch: b, upper, total, serial, copies, length: number, detail, the lent part
fn batch(to: &mut Answers, from: &mut Commands)
    ensures { IsOnward from.old from.new }
{
    let mut upper = [0u8; 64];
    let mut out = [FILL; 1024];
    let upper = from.list(&mut upper);
    let total = from.total();
    let serial = from.number();
    let copies = from.number();
    let lent = room::lent(&mut out, from.number());
    let r = blocks::batch(upper, total, serial, copies, lent);
    to.lent(r, lent);
}

// a whole edition: w, upper, total, length: number, detail, the lent part
fn whole(to: &mut Answers, from: &mut Commands)
    ensures { IsOnward from.old from.new }
{
    let mut upper = [0u8; 64];
    let mut out = [FILL; 1024];
    let upper = from.list(&mut upper);
    let total = from.total();
    let lent = room::lent(&mut out, from.number());
    let r = listing::list(upper, total, lent);
    to.lent(r, lent);
}

// Between a composition and a permutation, by inversions or by major index.
fn conversion(
    letter: u8,
    upper: &[u8],
    total: u32,
    given: &[u8],
    lent: &mut [u8],
) -> Result<(), Reason> {
    match letter {
        b'o' => permutation::permutation(upper, total, given, lent),
        b'i' => permutation::inversions(upper, total, given, lent),
        b'm' => major::permutation(upper, total, given, lent),
        _ => major::code(upper, total, given, lent),
    }
}

// a conversion: o, i, m or d, upper, total, composition or permutation, length: number, detail, the lent part
fn convert(to: &mut Answers, from: &mut Commands, letter: u8)
    ensures { IsOnward from.old from.new }
{
    let mut upper = [0u8; 64];
    let mut given = [0u8; 64];
    let mut out = [FILL; 1024];
    let upper = from.list(&mut upper);
    let total = from.total();
    let given = from.list(&mut given);
    let lent = room::lent(&mut out, from.number());
    let r = conversion(letter, upper, total, given, lent);
    to.lent(r, lent);
}

// The command at a letter; any other byte is passed over.
fn command(to: &mut Answers, from: &mut Commands, letter: u8)
    ensures { IsOnward from.old from.new }
{
    match letter {
        b'c' => count(to, from),
        b'e' => count_record(to, from),
        b't' => table(to, from),
        b'r' => rank(to, from),
        b'u' => unrank(to, from),
        b's' => step(to, from, false),
        b'p' => step(to, from, true),
        b'b' => batch(to, from),
        b'w' => whole(to, from),
        b'o' | b'i' | b'm' | b'd' => convert(to, from, letter),
        b'n' => record::opening(to, from),
        b'k' => record::call(to, from),
        b'l' => interleave::list(to, from),
        _ => {}
    }
}

// Every command. (A `while let`: the next letter is an `Option`.)
fn run(to: &mut Answers, text: &[u8]) {
    let mut from = Commands { rest: text };
    while let Some(letter) = from.letter() {
        command(to, &mut from, letter);
    }
}

// Every command of a piece of standard input. A piece has 65,536 bytes, but for the last, and no command stands in two of them: where one would,
// there are empty lines before it.
fn piece(to: &mut Answers, rt: &HostRuntime) -> io::Result<()> {
    let mut input = Vec::new(rt.alloc());
    rt.stdin().take(PIECE).read_to_end(&mut input)?;
    run(to, &input);
    Ok(())
}

fn main(rt: HostRuntime) -> io::Result<()> {
    let mut to = Answers::begin(&rt)?;
    for _ in 0..PIECES {
        piece(&mut to, &rt)?;
    }
    to.finish()
}
