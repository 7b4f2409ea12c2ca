// The number columns of an orders file.
ghost use Rattle.std.specs.Prelude.{◌≡◌, Some, IfSome, find, length};
ghost use Rattle.std.specs.Str.{bytes_eq};
ghost use Rattle.order_reader.specs.Columns.{column_name, place_of, columns_before_gap, all_columns};

use std::fmt;

/// A number column, in the order of the file. It is printed as the header has it.
#[derive(Clone, Copy, PartialEq, Eq, Debug)]
pub enum Field {
    PalletX,
    PalletY,
    CaseX,
    CaseY,
    CaseZ,
    Weight,
    MaxHeight,
    MaxWeight,
    Contact,
    Support,
    Cut,
    Gap,
}

static FIELDS_BEFORE_GAP: [Field; 11] = [
    Field::PalletX,
    Field::PalletY,
    Field::CaseX,
    Field::CaseY,
    Field::CaseZ,
    Field::Weight,
    Field::MaxHeight,
    Field::MaxWeight,
    Field::Contact,
    Field::Support,
    Field::Cut,
];

static FIELDS: [Field; 12] = [
    Field::PalletX,
    Field::PalletY,
    Field::CaseX,
    Field::CaseY,
    Field::CaseZ,
    Field::Weight,
    Field::MaxHeight,
    Field::MaxWeight,
    Field::Contact,
    Field::Support,
    Field::Cut,
    Field::Gap,
];

/// The number columns of the header with the gap.
#[tactic(auto, unfolding(crate::specs::Columns::all_columns))]
pub fn all_fields() -> &'static [Field]
    ensures all { result.now ≡ all_columns }
    ensures twelve { length result.now ≡ 12 }
{
    &FIELDS
}

/// The number columns of the header without the gap.
#[tactic(auto, unfolding(crate::specs::Columns::columns_before_gap))]
pub(crate) fn fields_before_gap() -> &'static [Field]
    ensures { result.now ≡ columns_before_gap }
{
    &FIELDS_BEFORE_GAP
}

impl Field {
    ghost use Rattle.order_reader.specs.declared.fields.Field.{Field};

    /// The column's name in the header.
    pub fn name(self) -> &'static str
        ensures { result.now ≡ column_name self }
    {
        match self {
            Field::PalletX => "pallet_x",
            Field::PalletY => "pallet_y",
            Field::CaseX => "case_x",
            Field::CaseY => "case_y",
            Field::CaseZ => "case_z",
            Field::Weight => "weight",
            Field::MaxHeight => "max_height",
            Field::MaxWeight => "max_weight",
            Field::Contact => "contact",
            Field::Support => "support",
            Field::Cut => "cut",
            Field::Gap => "gap",
        }
    }

    /// The column of this name, if there is one.
    pub fn named(name: &[u8]) -> Option<Field>
        ensures found { IfSome result (λ field. column_name field ≡ name.now) }
        ensures each { (field : Field) → column_name field ≡ name.now → result ≡ Some field }
    {
        first_named(all_fields(), name)
    }

    // The place among the number columns, from 0.
    pub(crate) fn place(self) -> usize
        ensures { result ≡ place_of self }
    {
        self as usize
    }
}

// The first of these columns that has this name.
fn first_named(columns: &[Field], name: &[u8]) -> Option<Field>
    ensures { result ≡ find (λ field. bytes_eq (column_name field) name.now) columns.now }
{
    for field in columns {
        if field.name().as_bytes() == name {
            return Some(*field);
        }
    }
    None
}

impl fmt::Display for Field {
    ghost use Rattle.std.specs.Prelude.{Some};
    ghost use Rattle.order_reader.specs.Columns.{column_name};

    ghost output = { λ field. Some (column_name field) };

    fn fmt<W: fmt::Write>(&self, f: &mut fmt::Formatter<W>) -> fmt::Result {
        f.write_str(self.name())
    }
}
