// The kinds of rows, and the first line of an input.
ghost use Rattle.std.specs.Prelude.{◌≡◌};
ghost use Rattle.row_kinds.specs.Kind.{phase_after};
ghost use Rattle.row_kinds.specs.Rows.{phase_first, phase_stopped};

#[derive(Clone, Copy, PartialEq, Eq)]
pub enum Kind {
    Freeze,
    Relief,
    Econ,
}

// Before the first line, at the rows of a kind, or after a first line that names none.
#[derive(Clone, Copy, PartialEq, Eq)]
pub enum Phase {
    First,
    Rows(Kind),
    Stopped,
}

// What follows a first line, without its newline. Tests in turn, and no `match` on the bytes: an arm would tell the prover no more than the length.
#[tactic(auto, using(crate::proofs::Words::word_is, crate::proofs::Words::word_is_not), unfolding(crate::specs::Kind::phase_after))]
pub fn phase_after(line: &[u8]) -> Phase
    ensures { result ≡ phase_after line.now }
{
    if line == b"freeze".as_slice() {
        return Phase::Rows(Kind::Freeze);
    }
    if line == b"relief".as_slice() {
        return Phase::Rows(Kind::Relief);
    }
    if line == b"econ".as_slice() {
        return Phase::Rows(Kind::Econ);
    }
    Phase::Stopped
}

impl Phase {
    // The reader has not had its first line.
    #[tactic(auto, unfolding(crate::specs::Rows::phase_first))]
    pub fn first(self) -> bool
        ensures { result ≡ phase_first self }
    {
        self == Phase::First
    }

    // The reader reads no more.
    #[tactic(auto, unfolding(crate::specs::Rows::phase_stopped))]
    pub fn stopped(self) -> bool
        ensures { result ≡ phase_stopped self }
    {
        self == Phase::Stopped
    }
}
