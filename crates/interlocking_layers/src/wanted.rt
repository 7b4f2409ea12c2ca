use contact_rules::Rule;
use plan_geometry::Inst;

/// The layers that are searched for: of this instance, whose numbers each contain the gap, with so many cases,
/// and with a form that goes upon the layer under all rules.
#[derive(Clone, Copy, PartialEq, Eq, Debug)]
pub struct Wanted<'a> {
    pub inst: Inst,
    pub gap: u32,
    pub rules: &'a [Rule],
    pub count: u32,
}
