ghost use Rattle.std.specs.Prelude.{◌≡◌, Some};
ghost use Rattle.report_checker.specs.Text.{clause_name};

use std::fmt;

/// A clause of what makes a plan sound for its order, in the order in which they are judged.
#[derive(Clone, Copy, PartialEq, Eq, Debug)]
pub enum Clause {
    /// The planned instance has the same partitions of its sides as the order's.
    Reduced,
    /// Each listed layer is a layer of the order, in order and of so many cases as the plan says.
    Layout,
    /// The listed layers are the variants of the first.
    Variants,
    /// The certificate shows the bound.
    Bound,
    /// The plan says that it is optimal exactly where count and bound are equal.
    Status,
    /// So many layers are allowed as the order's height and weight allow.
    Allowed,
    /// The stack is the one that the listed layers have under the order's rules.
    Stack,
}

impl Clause {
    /// The name by which the clause is printed.
    pub fn name(self) -> &'static str
        ensures { result.now ≡ clause_name self }
    {
        match self {
            Clause::Reduced => "reduced",
            Clause::Layout => "layout",
            Clause::Variants => "variants",
            Clause::Bound => "bound",
            Clause::Status => "status",
            Clause::Allowed => "allowed",
            Clause::Stack => "stack",
        }
    }
}

impl fmt::Display for Clause {
    ghost output = { λ c. Some (clause_name c) };

    fn fmt<W: fmt::Write>(&self, f: &mut fmt::Formatter<W>) -> fmt::Result {
        f.write_str(self.name())
    }
}

/// What a judge says of an entry.
#[derive(Clone, Copy, PartialEq, Eq, Debug)]
pub enum Verdict {
    /// The plan is sound for its order.
    Yes,
    /// The entry says that its row was refused.
    Refused,
    /// The first clause that fails. The item is the number, from 1, of the first listed layer that fails (`Layout`)
    /// or of the first place at which the list is not that of the variants (`Variants`), and else 0.
    No { clause: Clause, item: u32 },
}
