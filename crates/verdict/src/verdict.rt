// What is done with a file.
ghost use Rattle.std.specs.Prelude.{cond, ◌≡◌};
ghost use Rattle.verdict.specs.Verdicts.{verdict_number};
ghost use Rattle.verdict.specs.code.VerdictAnswers.{verdict_by};
ghost use Rattle.verdict.specs.declared.verdict.Verdict.TheVariants.{Skip, Read};

#[derive(Clone, Copy)]
pub enum Verdict {
    // No value that the file may hold meets the predicate.
    Skip,
    // Some may.
    Read,
    // All of them do.
    Whole,
}

impl Verdict {
    // By whether some value meets the predicate, and whether some does not.
    pub fn of(met: bool, unmet: bool) -> Verdict
        ensures { result ≡ verdict_by met unmet }
    {
        match (met, unmet) {
            (true, true) => Verdict::Read,
            (true, false) => Verdict::Whole,
            (false, _) => Verdict::Skip,
        }
    }

    // By whether some value may meet the predicate, where it is not known that all do.
    pub fn unless_ruled_out(may_meet: bool) -> Verdict
        ensures { result ≡ cond may_meet Read Skip }
    {
        if may_meet {
            Verdict::Read
        } else {
            Verdict::Skip
        }
    }
}

// Document 02's number of the verdict.
impl From<Verdict> for u8 {
    ghost from_gives = { λ verdict n. n ≡ verdict_number verdict };

    fn from(verdict: Verdict) -> u8 {
        verdict as u8
    }
}
