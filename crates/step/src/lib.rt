// Forward and backward step (document 01, "Serial and mix"). The first part that is not at its last value takes its next value, and the parts
// to its left start anew (source document 000, section 2): of these just one changes, the others stand at their first values already. These two
// are the kinds that gain and lose (document 02, (i)). Backward is the same with one more than the total: every sum to the right is then one
// more, so every part runs the other way.
#![tactic(auto)]

pub mod batch;

ghost use Rattle.std.specs.Prelude.{◌≡◌, true, cond, ◌+◌, ◌-◌, ◌≤◌, ◌<◌, MatchOption, min, ltb, length, get_or, set};
ghost use Rattle.walsh.specs.Step.{next_value};
ghost use Rattle.walsh.specs.Transition.{transition, none};
ghost use Rattle.step.specs.Steps.{stepped_of, step_of, successor_of, predecessor_of};
ghost use Rattle.step.specs.Advance.{turn_of, sized, Advances, Retreats};
ghost use Rattle.step.specs.Turn.{Begins, PivotAt, Still, Leaves, OtherAt, noting, moved_by, shifted_by};

use bounds::Reason;
use walsh::{Transition, first_value, is_odd};

// A composition in 24 cells, and the pair of kinds that gained and lost a unit on the way to it.
#[derive(Clone, Copy)]
pub struct Step {
    pub composition: [u8; 24],
    pub pair: Transition,
}

// The same; or the refusal, with all else 0. (A number and no `Result`: the C interface.)
#[repr(C)]
#[derive(Clone, Copy)]
pub struct Stepped {
    pub number: u32,
    pub detail: u64,
    pub composition: [u8; 24],
    pub gain: u32,
    pub loss: u32,
}

impl From<Result<Step, Reason>> for Stepped {
    ghost from_gives = { λ answer stepped. stepped ≡ stepped_of answer };

    fn from(answer: Result<Step, Reason>) -> Stepped {
        match answer {
            Ok(step) => {
                let composition = step.composition;
                Stepped {
                    number: 0,
                    detail: 0,
                    composition,
                    gain: step.pair.gain,
                    loss: step.pair.loss,
                }
            }
            Err(reason) => Stepped {
                number: reason.number(),
                detail: reason.detail(),
                composition: [0; 24],
                gain: 0,
                loss: 0,
            },
        }
    }
}

// Part `at`, the sum of the bounds to its left, that of the parts up to it, itself included, that of the parts to its right, and which way it goes.
#[derive(Clone, Copy)]
struct PivotSums {
    at: usize,
    left: usize,
    sum: usize,
    right: usize,
    falling: bool,
}

// The part that changes against the one that moves, counted from 1, and its new value.
#[derive(Clone, Copy)]
struct Other {
    part: usize,
    value: usize,
}

// A part of value v and bound m can move on, where the parts before it sum to `before` and their bounds to `left`: it is above its lowest value
// where it falls, below its highest where it rises.
fn moves(v: usize, m: usize, before: usize, left: usize, falling: bool) -> bool
    ensures { result ≡ cond falling (ltb (before + v - left) v) (ltb v (min m (before + v))) }
{
    if falling {
        before < left && 0 < v
    } else {
        0 < before && v < m
    }
}

// The first part that can move. Part 0 has one value only, what the others leave. The search begins at part `start.at`, with the sums of the bounds
// and of the parts before it.
fn pivot(upper: &[u8], total: usize, start: PivotSums, parts: &[u8]) -> Option<PivotSums>
    requires { (length upper.now ≤ 24) × (length parts.now ≡ length upper.now) × Begins upper.now total parts.now start }
    ensures { MatchOption result (Still upper.now total parts.now) (PivotAt upper.now total parts.now) }
{
    let mut left = start.left;
    let mut sum = start.sum;
    for i in start.at..parts.len() {
        let m = usize::from(upper[i]);
        let v = usize::from(parts[i]);
        let right = total.saturating_sub(sum + v);
        let falling = is_odd(right);
        if moves(v, m, sum, left, falling) {
            return Some(PivotSums {
                at: i,
                left,
                sum: sum + v,
                right,
                falling,
            });
        }
        left += m;
        sum += v;
    }
    None
}

// A part, counted from 1, gets the value v. The answer is what changes from it on, where `behind` is what changes behind it.
fn change(parts: &mut [u8], part: usize, v: usize, behind: Transition) -> Transition
    requires { (0 < part) × (part ≤ length parts.old) × (part ≤ 24) × (v ≤ 255) }
    ensures { (parts.new ≡ set parts.old (part - 1) v)
        × (result ≡ noting behind part (get_or parts.old (part - 1) 0) v) }
{
    let i = part - 1;
    let old = usize::from(parts[i]);
    parts[i] = v as u8;
    Transition {
        gain: if v == old + 1 {
            part as u32
        } else {
            behind.gain
        },
        loss: if old == v + 1 {
            part as u32
        } else {
            behind.loss
        },
    }
}

// No part gains, and none loses.
fn still() -> Transition
    ensures { result ≡ none }
{
    Transition { gain: 0, loss: 0 }
}

// The value after v.
fn next_value(v: usize, falling: bool) -> usize
    requires { (v ≤ 255) × (falling ≡ true → 0 < v) }
    ensures { result ≡ next_value falling v }
{
    if falling { v - 1 } else { v + 1 }
}

// What changes from part i on, where only part i moves.
fn moved(i: usize, falling: bool) -> Transition
    requires { i < 24 }
    ensures { result ≡ moved_by falling i }
{
    let part = (i + 1) as u32;
    if falling {
        return Transition {
            gain: 0,
            loss: part,
        };
    }
    Transition {
        gain: part,
        loss: 0,
    }
}

// The part that changes against part `found.at`, which has got the value u: from there to the left the first that is not at its first value.
fn other_part(upper: &[u8], found: PivotSums, u: usize, parts: &[u8]) -> Other
    requires { Leaves upper.now parts.now found u }
    ensures { OtherAt upper.now parts.now found u result }
{
    let mut under = found.left;
    let mut rem = found.sum - u;
    let mut t = found.right + u;
    for i in (1..found.at).rev() {
        let m = usize::from(upper[i]);
        under -= m;
        let v = first_value(rem.saturating_sub(under), m.min(rem), is_odd(t));
        if v != usize::from(parts[i]) {
            return Other {
                part: i + 1,
                value: v,
            };
        }
        rem -= v;
        t += v;
    }
    Other {
        part: 1,
        value: rem,
    }
}

// Makes the step in place and answers its pair, or answers 0 and 0 and changes nothing where no part can move. It goes forward where `total` is
// the total, backward where it is one more. Where the parts are no composition, the rest may not fit: then nothing changes either. No part
// before `start` can move.
fn turn_from(upper: &[u8], total: usize, start: PivotSums, parts: &mut [u8]) -> Transition
    requires { (length upper.now ≤ 24) × (length parts.old ≡ length upper.now) × (total ≤ 4294967296)
        × Begins upper.now total parts.old start }
    ensures { (parts.new ≡ turn_of upper.now total parts.old)
        × (result ≡ transition parts.old parts.new) }
{
    let Some(found) = pivot(upper, total, start, parts) else {
        return still();
    };
    let i = found.at;
    let u = next_value(usize::from(parts[i]), found.falling);
    if found.left < found.sum - u {
        return still();
    }
    parts[i] = u as u8;
    let other = other_part(upper, found, u, parts);
    change(parts, other.part, other.value, moved(i, found.falling))
}

// The same, where of no part it is known that it cannot move. (Bounds, total and parts come apart, as callers lend them: the parts are written in place,
// and the way back takes a total of one more.)
fn turn(upper: &[u8], total: usize, parts: &mut [u8]) -> Transition
    requires { (0 < length upper.now) × (length upper.now ≤ 24) × (length parts.old ≡ length upper.now) × (total ≤ 4294967296) }
    ensures { (parts.new ≡ turn_of upper.now total parts.old)
        × (result ≡ transition parts.old parts.new) }
{
    let start = PivotSums {
        at: 1,
        left: usize::from(upper[0]),
        sum: usize::from(parts[0]),
        right: 0,
        falling: false,
    };
    turn_from(upper, total, start, parts)
}

// There are 1 to 24 bounds and as many parts.
fn is_sized(upper: &[u8], parts: &[u8]) -> bool
    ensures { result ≡ sized upper.now parts.now }
{
    let n = upper.len();
    0 < n && n <= 24 && parts.len() == n
}

// The forward step in place, for callers that hold a composition and need not have it checked: it becomes the next one, and the answer is the pair
// from the one to the other; or nothing changes, with 0 and 0, where there is none. What becomes of any other bytes is said too (specs/Advance).
pub fn advance(upper: &[u8], total: u32, parts: &mut [u8]) -> Transition
    ensures { Advances upper.now total parts.old result parts.new }
{
    if !is_sized(upper, parts) {
        return still();
    }
    turn(upper, total as usize, parts)
}

// The backward step in place, for the same callers: the answer is the pair of the composition that was lent, measured from the one before it, so
// the kinds of the step back exchanged; 0 and 0 for the first, which stays.
pub fn retreat(upper: &[u8], total: u32, parts: &mut [u8]) -> Transition
    ensures { Retreats upper.now total parts.old result parts.new }
{
    if !is_sized(upper, parts) {
        return still();
    }
    let back = turn(upper, total as usize + 1, parts);
    Transition {
        gain: back.loss,
        loss: back.gain,
    }
}

// The step over a copy of the parts, in 24 cells, with its pair; 9 where there is none. (Bounds, total and parts apart, as in `turn`. Inlined, as
// `checked_step` is.)
#[inline(always)]
fn shift(upper: &[u8], total: usize, parts: &[u8]) -> Result<Step, Reason>
    requires { (0 < length upper.now) × (length upper.now ≤ 24) × (length parts.now ≡ length upper.now) × (total ≤ 4294967296) }
    ensures { stepped_of result ≡ shifted_by parts.now (turn_of upper.now total parts.now) }
{
    let n = upper.len();
    let mut composition = [0; 24];
    bounds::copy(parts, &mut composition);
    let pair = turn(upper, total, &mut composition[..n]);
    if pair.gain == 0 {
        return Err(Reason::NoStep);
    }
    Ok(Step { composition, pair })
}

// The step with its checks, forward or backward. Backward `shift` is given one more than the total. (Inlined, so that the answer is built where it is
// handed back: read again from memory, in other widths than it was written, it cost a third of a step.)
#[inline(always)]
fn checked_step(upper: &[u8], total: u32, composition: &[u8], back: bool) -> Result<Step, Reason>
    ensures { stepped_of result ≡ step_of back upper.now total composition.now }
{
    count::check_bounds(upper, total)?;
    places::check_composition(upper, total, composition)?;
    shift(upper, total as usize + usize::from(back), composition)
}

// The composition one serial on.
pub fn successor(upper: &[u8], total: u32, composition: &[u8]) -> Result<Step, Reason>
    ensures { stepped_of result ≡ successor_of upper.now total composition.now }
{
    checked_step(upper, total, composition, false)
}

// The composition one serial back.
pub fn predecessor(upper: &[u8], total: u32, composition: &[u8]) -> Result<Step, Reason>
    ensures { stepped_of result ≡ predecessor_of upper.now total composition.now }
{
    checked_step(upper, total, composition, true)
}
