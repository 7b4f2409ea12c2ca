// What the program can be asked to do, and which options stand with it.
ghost use Rattle.std.specs.Prelude.{◌≡◌, ◌≤◌, IfSome, IsNone};
ghost use Rattle.command_words.specs.Accepted.{are_absent as no_options, mode_with, IsInRange};

/// What the program can be asked to do.
#[derive(Clone, Copy, PartialEq, Eq, Debug)]
pub enum Mode {
    /// Read orders and write a report of their layers, by 1 to 16 workers; where `draw` says so, write drawings.
    Plan { draw: bool, workers: u32 },
    /// Read a report and write a verdict for each entry, by 1 to 16 workers.
    Check { workers: u32 },
    /// Read a report of either form and write it in the newer one.
    Upgrade,
    /// Read orders, and write their entries and which of them holds the most cases.
    Choose,
    /// Read what `choose` wrote, and write a verdict for each entry and one for the choice.
    CheckChoice,
    /// Read a row of ranges of case sizes, and write the entry of each size, by 1 to 16 workers, and which covers the most of
    /// the pallet.
    Design { workers: u32 },
    /// Read rows of trucks and their pallets, and write what fits on each floor.
    Floor,
    /// Read what `floor` wrote, and write a verdict for each entry and one for each total.
    CheckFloor,
    /// Plan and check orders that are made from a number, 1 to 1,000,000.
    Trial { number: u32 },
}

/// The options that were given.
#[derive(Clone, Copy, PartialEq, Eq, Debug)]
pub struct Options {
    pub workers: Option<u32>,
    pub draw: bool,
    pub number: Option<u32>,
}

// Whether no option was given.
fn are_absent(options: Options) -> bool
    ensures { result ≡ no_options options }
{
    !options.draw && options.workers.is_none() && options.number.is_none()
}

/// The mode of a word, where the options stand with it.
#[tactic(auto, unfolding(crate::specs::Accepted::mode_with))]
pub fn mode_for(word: &str, options: Options) -> Option<Mode>
    ensures { result ≡ mode_with options word.now }
{
    let absent = are_absent(options);
    let Options {
        workers,
        draw,
        number,
    } = options;
    let count = workers.unwrap_or(1);
    match word {
        "plan" if number.is_none() => Some(Mode::Plan {
            draw,
            workers: count,
        }),
        "check" if !draw && number.is_none() => Some(Mode::Check { workers: count }),
        "upgrade" if absent => Some(Mode::Upgrade),
        "choose" if absent => Some(Mode::Choose),
        "check-choice" if absent => Some(Mode::CheckChoice),
        "design" if !draw && number.is_none() => Some(Mode::Design { workers: count }),
        "floor" if absent => Some(Mode::Floor),
        "check-floor" if absent => Some(Mode::CheckFloor),
        "trial" if !draw && workers.is_none() => number.map(|number| Mode::Trial { number }),
        _ => None,
    }
}
