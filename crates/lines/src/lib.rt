// The lines that the listing program prints (document 01, "Listing program"; document 02, (i)).
#![tactic(auto)]

ghost use Rattle.std.specs.Prelude.{◌≡◌, ◌+◌, ◌≤◌, ◌<◌, ℕ, leb, length, get_or, IfOk, IfErr};
ghost use Rattle.request.specs.Text.{decimal};
ghost use Rattle.lines.specs.Lines.{signed, pair_end, copy_line};
ghost use Rattle.lines.specs.Append.{Appended, two_digits};
ghost use Rattle.lines.specs.Printed.{refusal, copies, output_of};
ghost use Rattle.lines.specs.Page.{page_in, page_of, Listed, Found, Ready, Filled};
ghost use Rattle.bounds.specs.Reason.{coded};

use bounds::Reason;
use rank::Located;
use request::Request;
use walsh::Transition;

// A part of what is printed: where it ends in the buffer, and the number of the line at which the next page begins, if this is not the last.
#[derive(Clone, Copy, Debug, PartialEq, Eq)]
pub struct Page {
    pub next: Option<u64>,
    pub end: usize,
}

// A buffer and a place in it, and not a struct of both with methods, for speed: tried, and with it a listing of a million lines took 73 ms where it
// takes 59 (handed on by reference; handed on by value it was not proved).

// Puts two digits into out from `at` on, and answers where they end.
fn put_two(n: u64, out: &mut [u8], at: usize) -> usize
    requires { (n < 100) × (at + 2 ≤ length out.old) }
    ensures { Appended out.old out.new at result (two_digits n) }
{
    out[at] = b'0' + (n / 10) as u8;
    out[at + 1] = b'0' + (n % 10) as u8;
    at + 2
}

// Puts any number in decimal. Std's `write!` into the buffer is too slow here: tried, it took 12 ns a number, 0.3 s for the numbers of a million
// lines, and these functions make the whole listing in 0.05 s.
fn put_decimal(n: u64, out: &mut [u8], at: usize) -> usize
    requires { at + length (decimal n) ≤ length out.old }
    ensures { Appended out.old out.new at result (decimal n) }
{
    if n < 10 {
        out[at] = b'0' + n as u8;
        return at + 1;
    }
    let end = put_decimal(n / 10, out, at);
    out[end] = b'0' + (n % 10) as u8;
    end + 1
}

// The same, fast for a number of one or two digits.
fn put_number(n: u64, out: &mut [u8], at: usize) -> usize
    requires { at + length (decimal n) ≤ length out.old }
    ensures { Appended out.old out.new at result (decimal n) }
{
    if n < 10 {
        out[at] = b'0' + n as u8;
        return at + 1;
    }
    if n < 100 {
        return put_two(n, out, at);
    }
    put_decimal(n, out, at)
}

// The same, fast for a number of five or six digits.
fn put_serial(n: u64, out: &mut [u8], at: usize) -> usize
    requires { at + length (decimal n) ≤ length out.old }
    ensures { Appended out.old out.new at result (decimal n) }
{
    if n < 10000 {
        return put_decimal(n, out, at);
    }
    let high = put_number(n / 10000, out, at);
    let middle = put_two(n / 100 % 100, out, high);
    put_two(n % 100, out, middle)
}

// A space, a sign and a kind.
fn put_signed(sign: u8, part: u32, out: &mut [u8], at: usize) -> usize
    requires { at + 2 + length (decimal part) ≤ length out.old }
    ensures { Appended out.old out.new at result (signed sign part) }
{
    out[at] = b' ';
    out[at + 1] = sign;
    put_number(u64::from(part), out, at + 2)
}

// The two kinds of a pair, and the line feed.
fn put_end(pair: Transition, out: &mut [u8], at: usize) -> usize
    requires { at + length (pair_end pair) ≤ length out.old }
    ensures { Appended out.old out.new at result (pair_end pair) }
{
    let gained = put_signed(b'+', pair.gain, out, at);
    let end = put_signed(b'-', pair.loss, out, gained);
    out[end] = b'\n';
    end + 1
}

// How many digits n has.
fn digits(n: u64) -> usize
    ensures { (result ≡ length (decimal n)) × (result ≤ 20) }
{
    n.max(1).ilog10() as usize + 1
}

// How many bytes the end of a line has.
fn end_len(pair: Transition) -> usize
    ensures { (result ≡ length (pair_end pair)) × (result ≤ 45) }
{
    5 + digits(u64::from(pair.gain)) + digits(u64::from(pair.loss))
}

// The line of a serial: its composition and its pair.
#[derive(Clone, Copy)]
struct Line<'a> {
    serial: u64,
    parts: &'a [u8],
    pair: Transition,
    ghost short: { (serial < 18446744073709551616) × (length parts.now ≤ 24) × (pair.gain ≤ 24) × (pair.loss ≤ 24)
        × ((i : ℕ) → i < length parts.now → get_or parts.now i 0 < 256) },
}

impl<'a> Line<'a> {
    // Puts it into out from `at` on, and answers where it ends.
    fn put(self, out: &mut [u8], at: usize) -> usize
        requires { at + length (copy_line self.serial self.parts.now self.pair) ≤ length out.old }
        ensures { Appended out.old out.new at result (copy_line self.entry.serial self.entry.parts.now self.entry.pair) }
    {
        let mut end = put_serial(self.serial, out, at);
        for part in self.parts {
            out[end] = b' ';
            end = put_number(u64::from(*part), out, end + 1);
        }
        put_end(self.pair, out, end)
    }

    // How many bytes it has.
    fn len(self) -> usize
        ensures { result ≡ length (copy_line self.entry.serial self.entry.parts.now self.entry.pair) }
    {
        let mut len = digits(self.serial);
        for part in self.parts {
            len += 1 + digits(u64::from(*part));
        }
        len + end_len(self.pair)
    }

    // Whether it fits into `room` bytes. The longest possible line is tried first: 20 digits, 3 digits a part with a space in front, 2 digits a kind
    // with a space and a sign in front, and the line feed.
    fn fits(self, room: usize) -> bool
        ensures { result ≡ leb (length (copy_line self.entry.serial self.entry.parts.now self.entry.pair)) room }
    {
        29 + 4 * self.parts.len() <= room || self.len() <= room
    }
}

// The lines from a serial on, as many as have room. The parts are its composition, and go on with the lines; `first` is its pair, and each step
// gives that of the next line.
fn put_lines(
    upper: &[u8],
    total: u32,
    serial: u64,
    count: u64,
    parts: &mut [u8],
    first: Transition,
    out: &mut [u8],
) -> Page
    requires { Ready upper.now total serial count parts.old first }
    ensures { Filled upper.now total serial count out.old out.new result }
{
    let mut end = 0;
    let mut pair = first;
    for s in serial..=count {
        let line = Line {
            serial: s,
            parts,
            pair,
        };
        if !line.fits(out.len() - end) {
            return Page { next: Some(s), end };
        }
        end = line.put(out, end);
        pair = step::advance(upper, total, parts);
    }
    Page { next: None, end }
}

// A page behind the last.
fn no_page() -> Page
    ensures { result ≡ record { next = None; end = 0 } }
{
    Page { next: None, end: 0 }
}

// The page of a refusal, which has one line.
fn refuse(reason: Reason, at: u64, out: &mut [u8]) -> Page
    ensures { (result, out.new) ≡ page_in (refusal (coded reason).number) at out.old }
{
    if at != 1 {
        return no_page();
    }
    let n = u64::from(reason.number());
    if out.len() < 9 + digits(n) {
        return Page {
            next: Some(1),
            end: 0,
        };
    }
    bounds::copy(b"refused ", out);
    let end = put_decimal(n, out, 8);
    out[end] = b'\n';
    Page {
        next: None,
        end: end + 1,
    }
}

// The page of a listing from a serial on, at which its composition was found.
fn list(upper: &[u8], total: u32, found: Located, serial: u64, out: &mut [u8]) -> Page
    requires { Listed upper.now total serial found }
    ensures { (result, out.new) ≡ page_in (copies upper.now total) serial out.old }
{
    if serial == 0 || found.count < serial {
        return no_page();
    }
    let n = upper.len();
    let mut cells = found.composition;
    let mut before = found.composition;
    let first = step::retreat(upper, total, &mut before[..n]);
    put_lines(
        upper,
        total,
        serial,
        found.count,
        &mut cells[..n],
        first,
        out,
    )
}

// The listing that a text asks for and its composition at a serial, or why there is none.
fn find(text: &[u8], serial: u64) -> Result<(Request, Located), Reason>
    ensures refused { IfErr result (λ reason. output_of text.now ≡ refusal (coded reason).number) }
    ensures found { IfOk result (λ x. Found text.now serial x.0 x.1) }
{
    let asked = request::parse(text).ok_or(Reason::Request)?;
    let found = rank::locate(asked.bounds(), asked.total, serial)?;
    if bounds::MOST_ENTRIES < found.count {
        return Err(Reason::Entries);
    }
    Ok((asked, found))
}

// Puts a page of what is printed for a text at the beginning of out: whole lines from line `at` on, as many as have room. The first page begins
// at line 1, the next one where this one says. No line has more than 88 bytes: a buffer of so many always takes one. Where the buffer is
// too small for line `at`, the page is empty and the next one begins at `at` again.
pub fn put_page(text: &[u8], at: u64, out: &mut [u8]) -> Page
    ensures { (result, out.new) ≡ page_of text.now at out.old }
{
    match find(text, at) {
        Ok((asked, found)) => list(asked.bounds(), asked.total, found, at, out),
        Err(reason) => refuse(reason, at, out),
    }
}
