ghost use Rattle.pallet_choice.specs.Choices.{ChoicesAreOne};
ghost use Rattle.pallet_choice.specs.Laws.{ChoicesAreTails, TailsHaveOneText, LongestTailsAreOne, PutTailsAreGot, TailsAreRead, TailsAreShort};

/// Two choices among the same entries are equal: the same entry is chosen, and the rivals are the same.
pub fn choices_are_one()
    ensures { ChoicesAreOne }
{}

/// A choice among entries whose numbers are from 1 to 256 and rise, and whose counts and bounds are from 1 to 1,000
/// cases, has the text of a tail.
pub fn choices_are_tails()
    ensures { ChoicesAreTails }
{}

/// No text is that of two tails.
pub fn tails_have_one_text()
    ensures { TailsHaveOneText }
{}

/// No bytes have two longest tails in front.
pub fn longest_tails_are_one()
    ensures { LongestTailsAreOne }
{}

/// A tail that was put is the longest in front, whatever follows it, except for the line of a rival that may stand
/// after the tail's.
pub fn put_tails_are_got()
    ensures { PutTailsAreGot }
{}

/// A tail and what ends it, whose first line is no rival's (as `done 2`), are read exactly line by line: what is read
/// is in front, what is in front is read, and a fault is at the first line with which no such text goes on.
pub fn tails_are_read()
    ensures { TailsAreRead }
{}

/// The text of a tail has at most 5,400 bytes.
pub fn tails_are_short()
    ensures { TailsAreShort }
{}
