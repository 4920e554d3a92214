// What the listing program reads (document 01, "Listing program"; the document's slip is a request here).
#![tactic(auto)]

ghost use Rattle.std.specs.Prelude.{◌≡◌, [], ◌≤◌, length, take, drop};
ghost use Rattle.request.specs.Request.{Parsed};
ghost use Rattle.request.specs.Scan.{grown_of, is_end, scan, line_of};

// The bounds asked for, each as a byte (255 for any above), and the total. (Cells and their number, and no `Vec`: the project has no heap.)
#[derive(Clone, Copy, Debug, PartialEq, Eq)]
pub struct Request {
    pub parts: usize,
    pub upper: [u8; 128],
    pub total: u32,
}

impl Request {
    // The bounds alone, without the cells behind them.
    pub fn bounds(&self) -> &[u8]
        ensures { result.now ≡ take self.now.parts self.now.upper }
    {
        &self.upper[..self.parts.min(128)]
    }
}

// A line of numbers: how many they are, each as a byte, the last of them, and where the next line starts. (That is a place in the text, so the text is read
// from a place too. Cells and their number, as in `Request`.)
#[derive(Clone, Copy)]
struct Line {
    parts: usize,
    upper: [u8; 128],
    last: u32,
    end: usize,
}

// The number with one byte more, and none where no number begins so. Where none is begun, the byte is its first.
#[tactic(auto, using(std::proofs::lemmas::Bool::Decides::nat_tests), unfolding(crate::specs::Scan::grown_of))]
fn grown(number: Option<u32>, b: u8) -> Option<u32>
    ensures { result ≡ grown_of number b }
{
    if !b.is_ascii_digit() {
        return None;
    }
    let digit = u32::from(b - b'0');
    match number {
        None => Some(digit),
        Some(v) => {
            if v < 1 || 99 < v {
                return None;
            }
            Some(10 * v + digit)
        }
    }
}

// The byte ends a number.
fn is_end(b: u8) -> bool
    ensures { result ≡ is_end b }
{
    b == b' ' || b == b'\n'
}

// The line of numbers that starts at `from`. A number and its end take two bytes, so the cells do not run out.
fn read_line(s: &[u8], from: usize) -> Option<Line>
    requires { length s.now ≤ 256 }
    ensures { result ≡ line_of (length s.now) (scan [] None (drop from s.now)) }
{
    let mut upper = [0u8; 128];
    let mut parts = 0;
    let mut number: Option<u32> = None;
    for at in from..s.len() {
        let b = s[at];
        if is_end(b) {
            let last = number?;
            upper[parts] = last.min(255) as u8;
            parts += 1;
            if b == b'\n' {
                return Some(Line {
                    parts,
                    upper,
                    last,
                    end: at + 1,
                });
            }
            number = None;
        } else {
            number = Some(grown(number, b)?);
        }
    }
    None
}

// The most bytes of a request.
const MOST: usize = 256;

// The listing that the text asks for.
pub fn parse(text: &[u8]) -> Option<Request>
    ensures { Parsed text.now result }
{
    if MOST < text.len() || !text.starts_with(b"mixes\n") {
        return None;
    }
    let bounds = read_line(text, 6)?;
    let total = read_line(text, bounds.end)?;
    if total.parts != 1 || total.end < text.len() {
        return None;
    }
    let upper = bounds.upper;
    Some(Request {
        parts: bounds.parts,
        upper,
        total: total.last,
    })
}
