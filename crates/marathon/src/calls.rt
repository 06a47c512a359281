// The calls of the marathon, with a count of what was answered.
use session::Session;
use steps::Correction;
use ticks::Sample;

// Answers of each kind, and how often an answer was another than it should be or a formula did not hold.
#[derive(Clone, Copy, Default)]
pub(crate) struct Seen {
    pub(crate) accepted: u64,
    pub(crate) again: u64,
    pub(crate) withdrawn: u64,
    pub(crate) failed: u64,
}

#[derive(Clone, Copy)]
pub(crate) struct Host {
    pub(crate) session: Session,
    pub(crate) seen: Seen,
}

fn count(n: &mut u64) {
    *n = n.wrapping_add(1);
}

impl Host {
    pub(crate) fn fail(&mut self) {
        count(&mut self.seen.failed);
    }

    pub(crate) fn predict(&mut self) {
        let after = stepper::owned::predict(self.session);
        self.session = after.session;
        if after.answer.is_err() {
            self.fail();
        }
    }

    pub(crate) fn withdraw(&mut self) {
        let after = stepper::owned::withdraw(self.session);
        self.session = after.session;
        if after.answer.is_ok() {
            count(&mut self.seen.withdrawn);
        } else {
            self.fail();
        }
    }

    pub(crate) fn correct(&mut self, a: Sample) -> Correction {
        let after = stepper::owned::correct(self.session, a);
        self.session = after.session;
        match after.answer {
            Correction::Accepted(_) => count(&mut self.seen.accepted),
            Correction::Again(_, _) => count(&mut self.seen.again),
            Correction::Refused(_) => self.fail(),
        }
        after.answer
    }
}

// The number that a prediction is refused by, and 0 if it is not.
pub(crate) fn refused_prediction(s: Session) -> u8 {
    match stepper::owned::predict(s).answer {
        Ok(_) => 0,
        Err(refusal) => refusal.number(),
    }
}
