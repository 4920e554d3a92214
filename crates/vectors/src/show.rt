// Answers, a line of numbers each.
use bounds::{Reason, Refusal};
use count::Accepted;
use model::{Claimed, Ledger, Opened, Peek, Peeked};
use std::io;
use std::io::{BufWriter, Stdout, Write};
use step::{Step, Stepped};

// Where the answers go. Nothing is written after a write that failed, and `finish` answers why it did.
#[derive(Drop)]
pub(crate) struct Answers {
    output: BufWriter<Stdout>,
    written: io::Result<()>,
}

impl Answers {
    pub(crate) fn begin(rt: &HostRuntime) -> io::Result<Answers> {
        Ok(Answers {
            output: BufWriter::new(rt.alloc(), rt.stdout())?,
            written: Ok(()),
        })
    }

    pub(crate) fn finish(mut self) -> io::Result<()> {
        self.written?;
        self.output.flush()
    }

    pub(crate) fn first<N: Into<u64>>(&mut self, n: N) {
        let n: u64 = n.into();
        if self.written.is_ok() {
            self.written = write!(self.output, "{n}");
        }
    }

    pub(crate) fn next<N: Into<u64>>(&mut self, n: N) {
        let n: u64 = n.into();
        if self.written.is_ok() {
            self.written = write!(self.output, " {n}");
        }
    }

    pub(crate) fn end(&mut self) {
        if self.written.is_ok() {
            self.written = writeln!(self.output);
        }
    }

    // The beginning of a line: a reason's number and detail, or 0 and 0.
    fn outcome(&mut self, refusal: Refusal) {
        self.first(refusal.number);
        self.next(refusal.detail);
    }

    // A line of an answer that is a number, 0 where it is refused.
    pub(crate) fn number(&mut self, answer: Result<u64, Reason>) {
        match answer {
            Ok(n) => {
                self.outcome(Refusal::from(Ok(())));
                self.next(n);
            }
            Err(reason) => {
                self.outcome(reason.into());
                self.next(0u64);
            }
        }
        self.end();
    }

    // A line of N.
    pub(crate) fn counted(&mut self, answer: Result<Accepted, Reason>) {
        self.number(answer.map(|accepted| accepted.count));
    }

    // Each entry of a list.
    pub(crate) fn entries<N: Copy + Into<u64>>(&mut self, list: &[N]) {
        for n in list {
            self.next(*n);
        }
    }

    // A line of a list: its length, and each entry.
    pub(crate) fn list<N: Copy + Into<u64>>(&mut self, list: &[N]) {
        self.first(list.len() as u64);
        self.entries(list);
        self.end();
    }

    // A line of an answer and the bytes of a lent part.
    pub(crate) fn lent(&mut self, answer: Result<(), Reason>, out: &[u8]) {
        self.outcome(answer.into());
        self.entries(out);
        self.end();
    }

    // A line of a step's answer.
    pub(crate) fn stepped(&mut self, answer: Result<Step, Reason>) {
        let answer = Stepped::from(answer);
        let composition = answer.composition;
        self.first(answer.number);
        self.next(answer.detail);
        self.entries(&composition);
        self.next(answer.gain);
        self.next(answer.loss);
        self.end();
    }

    // ---- lines of the ledger

    // A line of a record: number of parts, bounds, total, entries, sold, voided, composition.
    pub(crate) fn ledger(&mut self, ledger: Ledger) {
        let bounds = ledger.bounds;
        let upper = bounds.upper;
        let composition = ledger.next;
        self.first(bounds.parts as u64);
        self.entries(&upper);
        self.next(bounds.total);
        self.next(ledger.entries);
        self.next(ledger.sold);
        self.next(ledger.voided);
        self.entries(&composition);
        self.end();
    }

    // A line of an opening's refusal, and the record.
    pub(crate) fn opened(&mut self, answer: Result<Ledger, Reason>) {
        let answer = Opened::from(answer);
        self.first(answer.number);
        self.next(answer.detail);
        self.end();
        self.ledger(answer.ledger);
    }

    // A line of a call's answer, and the record after the call.
    pub(crate) fn claimed(&mut self, done: Claimed) {
        let answer = done.answer;
        let composition = answer.composition;
        self.first(answer.number);
        self.next(answer.detail);
        self.next(answer.serial);
        self.entries(&composition);
        self.end();
        self.ledger(done.ledger);
    }

    // The same of a peek, with its pair.
    pub(crate) fn peeked(&mut self, answer: Result<Peek, Reason>, ledger: Ledger) {
        let answer = Peeked::from(answer);
        let composition = answer.composition;
        self.first(answer.number);
        self.next(answer.detail);
        self.next(answer.serial);
        self.entries(&composition);
        self.next(answer.gain);
        self.next(answer.loss);
        self.end();
        self.ledger(ledger);
    }
}
