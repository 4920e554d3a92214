// The ledger's types (document 01: the register), its model, and the statement about a whole list of calls. Nothing runs here: crate `ledger`
// has the calls.
#![tactic(auto)]

ghost use Rattle.std.specs.Prelude.{◌≡◌};
ghost use Rattle.model.specs.Results.{answer_of, peeked_of, opened_of};

use bounds::{Bounds, Reason};
use walsh::Transition;

// The record of a ledger. The lines themselves stand in the two columns that the caller lends.
#[repr(C)]
#[derive(Clone, Copy)]
pub struct Ledger {
    pub bounds: Bounds,
    // document 01: lines written
    pub entries: u64,
    pub sold: u64,
    // document 01: spoilt
    pub voided: u64,
    // the composition of the next serial, of serial N when full
    pub next: [u8; 24],
}

// What an accepted call answers: a serial with its composition.
#[derive(Clone, Copy)]
pub struct Line {
    pub serial: u64,
    pub composition: [u8; 24],
}

// What an accepted peek answers: also the kinds, counted from 1, that gain and lose a unit against the composition before (document 02, request (i)).
#[derive(Clone, Copy)]
pub struct Peek {
    pub line: Line,
    pub pair: Transition,
}

// What a call answers: a refused one has a number, serial 0 and a composition of zeros. (A number and no `Result`, here and in the records below: the C
// interface.)
#[repr(C)]
#[derive(Clone, Copy)]
pub struct Answer {
    pub number: u32,
    pub detail: u64,
    pub serial: u64,
    pub composition: [u8; 24],
}

// What a peek answers, as C gets it.
#[repr(C)]
#[derive(Clone, Copy)]
pub struct Peeked {
    pub number: u32,
    pub detail: u64,
    pub serial: u64,
    pub composition: [u8; 24],
    pub gain: u32,
    pub loss: u32,
}

// What a claim, a void or a bundle answers, as C gets it, with the record after it.
#[repr(C)]
#[derive(Clone, Copy)]
pub struct Claimed {
    pub answer: Answer,
    pub ledger: Ledger,
}

// What an opening answers, as C gets it: the record, or its refusal with a record of zeros.
#[repr(C)]
#[derive(Clone, Copy)]
pub struct Opened {
    pub number: u32,
    pub detail: u64,
    pub ledger: Ledger,
}

impl From<Result<Line, Reason>> for Answer {
    ghost from_gives = { λ outcome answer. answer ≡ answer_of outcome };

    fn from(outcome: Result<Line, Reason>) -> Answer {
        match outcome {
            Ok(line) => {
                let composition = line.composition;
                Answer {
                    number: 0,
                    detail: 0,
                    serial: line.serial,
                    composition,
                }
            }
            Err(reason) => Answer {
                number: reason.number(),
                detail: reason.detail(),
                serial: 0,
                composition: [0; 24],
            },
        }
    }
}

impl From<Result<Peek, Reason>> for Peeked {
    ghost from_gives = { λ outcome peeked. peeked ≡ peeked_of outcome };

    fn from(outcome: Result<Peek, Reason>) -> Peeked {
        match outcome {
            Ok(peek) => {
                let composition = peek.line.composition;
                Peeked {
                    number: 0,
                    detail: 0,
                    serial: peek.line.serial,
                    composition,
                    gain: peek.pair.gain,
                    loss: peek.pair.loss,
                }
            }
            Err(reason) => Peeked {
                number: reason.number(),
                detail: reason.detail(),
                serial: 0,
                composition: [0; 24],
                gain: 0,
                loss: 0,
            },
        }
    }
}

impl From<Result<Ledger, Reason>> for Opened {
    ghost from_gives = { λ outcome opened. opened ≡ opened_of outcome };

    fn from(outcome: Result<Ledger, Reason>) -> Opened {
        match outcome {
            Ok(ledger) => Opened {
                number: 0,
                detail: 0,
                ledger,
            },
            Err(refused) => Opened {
                number: refused.number(),
                detail: refused.detail(),
                ledger: Ledger {
                    bounds: bounds::blank(),
                    entries: 0,
                    sold: 0,
                    voided: 0,
                    next: [0; 24],
                },
            },
        }
    }
}
