// The Mahonian numbers of document 01, "Counting table", and the bounds k-1, .., 2, 1 whose counts they are.
#![tactic(auto)]

mod table;

ghost use Rattle.std.specs.Prelude.{◌≡◌, ◌≤◌, ◌<◌, get_or};
ghost use Rattle.mahonian.specs.Mahonian.{top};
ghost use Rattle.mahonian.specs.Table.{table, start};
ghost use Rattle.mahonian.specs.Staircase.{is_staircase};
ghost use Rattle.mahonian.specs.Read.{read_of, staircase_count_of};

// A number of the table.
fn stored(i: usize) -> u64
    requires { i < 695 }
    ensures { result ≡ get_or table i 0 }
{
    table::MAHONIAN[i]
}

// The most inversions of k elements.
fn top(k: usize) -> usize
    requires { (2 ≤ k) × (k ≤ 16) }
    ensures { result ≡ top k }
{
    k * (k - 1) / 2
}

// Where row k starts.
fn start(k: usize) -> usize
    requires { (2 ≤ k) × (k ≤ 16) }
    ensures { result ≡ start k }
{
    k * (k - 1) * (k - 2) / 6 + (k - 2)
}

// M(k, r): how many permutations of k elements have r inversions; none outside the table.
pub fn read(k: usize, r: usize) -> Option<u64>
    ensures { result ≡ read_of k r }
{
    if k < 2 || 16 < k || top(k) < r {
        return None;
    }
    Some(stored(start(k) + r))
}

// Whether the bounds are k-1, .., 2, 1 (document 01: a puzzle edition), where k is one more than their number.
pub fn is_staircase(upper: &[u8]) -> bool
    ensures { result ≡ is_staircase upper.now }
{
    for (i, m) in upper.iter().enumerate() {
        if usize::from(*m) != upper.len() - i {
            return false;
        }
    }
    true
}

// The count of such bounds of 2 to 16 elements, read from the table.
pub fn staircase_count(upper: &[u8], total: u32) -> Option<u64>
    ensures { result ≡ staircase_count_of upper.now total }
{
    if 15 < upper.len() || !is_staircase(upper) {
        return None;
    }
    read(upper.len() + 1, total as usize)
}
