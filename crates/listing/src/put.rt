// Writing a composition into the tray, from its last part down: the first parts, which a walk has set last, are read last and one by one. A wide
// read of a byte that was stored right before has to wait for it.
ghost use Rattle.std.specs.Prelude.{◌≡◌, ◌+◌, ◌-◌, ◌≤◌, length};
ghost use Rattle.listing.specs.Bytes.{begun, laid};

// Cells i to i + 3. All are read before one is written, so that they are one move in compiled code. (Speed: `copy_from_slice` asks each time whether
// the two overlap, and a listing takes 11 to 27 % longer.)
fn put_four(g: &[u8], i: usize, out: &mut [u8])
    requires { (i + 4 ≤ length g.now) × (length g.now ≤ length out.old) }
    ensures { out.new ≡ laid g.now i 4 out.old }
{
    let a = g[i];
    let b = g[i + 1];
    let c = g[i + 2];
    let d = g[i + 3];
    out[i + 3] = d;
    out[i + 2] = c;
    out[i + 1] = b;
    out[i] = a;
}

// The cells behind the first few, four at a time; the answer is how many are left, the first ones. (Speed: with a `for` over the fours a listing takes
// 9 to 26 % longer, since `put` is then compiled for any number of cells and not for five at most.)
fn put_fours(g: &[u8], out: &mut [u8]) -> usize
    requires { length g.now ≤ length out.old }
    ensures { (result ≤ length g.now)
        × (out.new ≡ laid g.now result (length g.now - result) out.old) }
{
    let mut i = g.len();
    while 5 < i {
        i -= 4;
        put_four(g, i, out);
    }
    i
}

// Writes g over the beginning of `out`.
pub(crate) fn put(g: &[u8], out: &mut [u8])
    requires { length g.now ≤ length out.old }
    ensures { out.new ≡ begun g.now out.old }
{
    let left = put_fours(g, out);
    for i in (0..left).rev() {
        out[i] = g[i];
    }
}
