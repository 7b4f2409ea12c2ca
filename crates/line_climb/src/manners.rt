use plan_geometry::Way;

// What is done at the corner of a state: a case is placed there, or the corner is left empty.
#[derive(Clone, Copy)]
pub(crate) enum Step {
    Case(Way),
    Waste,
}

// The steps in the two orders in which walks try them.
pub(crate) const LYING_FIRST: [Step; 3] = [
    Step::Case(Way::Lying),
    Step::Case(Way::Standing),
    Step::Waste,
];

pub(crate) const STANDING_FIRST: [Step; 3] = [
    Step::Case(Way::Standing),
    Step::Case(Way::Lying),
    Step::Waste,
];

// What a walk looks for and what it leaves out. It looks for so many cases, each of which weighs at least `least`, so
// where the weight above a state cannot hold the cases that are missing, the state is left.
#[derive(Clone, Copy)]
pub(crate) struct Aim {
    pub(crate) cases: u64,
    pub(crate) least: u64,
    pub(crate) total: u64,
    pub(crate) steady: Option<Allowance>,
}

// What a steady walk lets a state waste, by weight: a part of what is done, in 2^24ths, and so much on top.
#[derive(Clone, Copy)]
pub(crate) struct Allowance {
    share: u64,
    extra: u64,
}

const SHARE_BITS: u32 = 24;

impl Aim {
    // The walk that looks for so many cases. With a part it is steady: a state is left where it has wasted more than its
    // share of the weight that the cases spare, and so many 256th parts of that on top. A total is below 2^34, so the
    // weight that is spared, in 2^24ths, is below 2^58, and so is a part in 2^24ths of what is done.
    pub(crate) fn of(cases: u64, least: u64, total: u64, part: Option<u64>) -> Aim {
        let spare = total.saturating_sub(cases.saturating_mul(least));
        let steady = match part {
            Some(part) => Some(Allowance {
                share: spare.saturating_mul(1 << SHARE_BITS) / total.max(1),
                extra: spare.saturating_mul(part) / 256,
            }),
            None => None,
        };
        Aim {
            cases,
            least,
            total,
            steady,
        }
    }

    // Whether the walk leaves a state with so many cases and so much weight above it.
    pub(crate) fn leaves(&self, placed: u64, above: u64) -> bool {
        let missing = self.cases.saturating_sub(placed);
        if above < missing.saturating_mul(self.least) {
            return true;
        }
        match self.steady {
            Some(allowance) => {
                let done = self.total.saturating_sub(above);
                let wasted = done.saturating_sub(placed.saturating_mul(self.least));
                let share = done.saturating_mul(allowance.share) >> SHARE_BITS;
                wasted > share.saturating_add(allowance.extra)
            }
            None => false,
        }
    }
}
