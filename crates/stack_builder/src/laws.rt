ghost use Rattle.stack_builder.specs.Laws.{MovesKeepRules, StacksAreKnownByFirstPairs};

/// What one layer does to another upon it does not change where one move of the pallet moves both: two
/// layouts meet a rule exactly where their images meet it.
pub fn moves_keep_rules()
    ensures { MovesKeepRules }
{}

/// Whether two or more layers can be stacked is known from the first variant and each one upon it: the
/// moves bring every other pair of variants to such a pair.
pub fn stacks_are_known_by_first_pairs()
    ensures { StacksAreKnownByFirstPairs }
{}
