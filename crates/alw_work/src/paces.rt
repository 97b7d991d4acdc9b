// The fewest and the most instructions in a row that a visit takes.
const FEWEST_RUN: u32 = 8;

const MOST_VISIT: u32 = 1024;

/// How many instructions in a row a worker's visits take: few where messages move, since each hop of one takes
/// as long as the visits before its receiver's, in which others may do no more than spin; and twice as many
/// behind each round of visits in which none moved.
#[derive(Clone, Copy)]
pub struct Pace {
    run: u32,
    quiet: u32,
    round: u32,
}

impl Pace {
    /// The pace at the start, where a round is so many visits.
    pub fn start(round: u32) -> Pace {
        Pace {
            run: FEWEST_RUN,
            quiet: 0,
            round,
        }
    }

    /// The most instructions in a row of a visit.
    #[inline(always)]
    pub fn most(&self) -> u32 {
        self.run
    }

    /// Behind a visit, in which messages may have moved.
    #[inline(always)]
    pub fn pass(&mut self, has_moved: bool) {
        if has_moved {
            self.quiet = 0;
            self.run = FEWEST_RUN;
            return;
        }
        self.quiet = self.quiet.saturating_add(1);
        if self.quiet >= self.round {
            self.quiet = 0;
            self.run = self.run.saturating_mul(2).min(MOST_VISIT);
        }
    }
}
