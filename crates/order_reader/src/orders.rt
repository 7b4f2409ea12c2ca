// Orders.
ghost use Rattle.std.specs.Prelude.{◌≡◌, ℕ, ◌≤◌, ◌↔◌, None, List, length, All, IfOk, IfErr, OnOk, IsTrue};
ghost use Rattle.csv.specs.Records.{fields_of};
ghost use Rattle.plan_geometry.specs.declared.spots.Spot.{Spot};
ghost use Rattle.plan_geometry.specs.Layout.{IsLayout, IsBounded, CaseFits, area_bound_of};
ghost use Rattle.plan_geometry.specs.Gap.{IsSwollen, SameLayouts, SameBounds};
ghost use Rattle.order_reader.specs.Orders.{OrderValue, order_with, number_in, gap_of};
ghost use Rattle.order_reader.specs.Faults.{order_fault, row_fault, order_in, IsOrder, TellsFault, least_in, greatest_gap_of, greatest_in};
ghost use Rattle.order_reader.specs.Instances.{IsRealOf, IsGivenOf, IsLayerFor, IsBoundFor};

use crate::checks::{fault_of_numbers, fault_of_row, id_of, is_id, numbers_of};
use crate::faults::{OrderFail, RowFault};
use crate::fields::Field;
use csv::ByteRecord;
use plan_geometry::{Inst, swollen};
use plan_memory::Memory;
use std::alloc::Global;
use std::marker::Model;

/// An order that passes all tests: an id and twelve numbers.
#[derive(Drop)]
pub struct Order {
    name: Vec<u8>,
    values: [u32; 12],
}

impl Model for Order {
    ghost use Rattle.order_reader.specs.Orders.{OrderValue, order_with};
    ghost use Rattle.order_reader.specs.Faults.{IsOrder};

    ghost Value = { OrderValue };

    ghost view = { λ a. order_with a.name.items a.values };

    ghost invariant = { λ a. IsOrder (order_with a.name.items a.values) };
}

impl Order {
    /// The order of this id and these numbers, which are in file order, the gap last. Refused by the tests of
    /// the id, of the ranges, of the case on the pallet, and of the number of cases, in this order.
    pub fn new(alloc: Global, id: &[u8], numbers: [u32; 12]) -> Result<Order, OrderFail>
        ensures same { IfOk result (λ o. o ≡ order_with id.now numbers) }
        ensures order { OnOk result (IsOrder (order_with id.now numbers)) }
        ensures fault { IfErr result (λ e. TellsFault (order_fault (order_with id.now numbers)) e) }
    {
        if !is_id(id) {
            return Err(OrderFail::Fault(RowFault::BadId));
        }
        if let Some(fault) = fault_of_numbers(&widened(&numbers)) {
            return Err(OrderFail::Fault(fault));
        }
        match id.to_vec(alloc) {
            Ok(name) => Ok(Order {
                name,
                values: numbers,
            }),
            Err(_) => Err(OrderFail::Memory),
        }
    }

    /// 1 to 40 bytes, each from 32 to 126.
    pub fn id(&self) -> &[u8]
        ensures id { result.now ≡ self.now.id }
        ensures order { IsOrder self.now }
        ensures some { 1 ≤ length result.now }
        ensures few { length result.now ≤ 40 }
        ensures plain { All (λ b. (32 ≤ b) × (b ≤ 126)) result.now }
    {
        &self.name
    }

    /// The twelve numbers, in the order of the file.
    pub fn numbers(&self) -> [u32; 12]
        ensures numbers { result ≡ self.now.numbers }
        ensures order { IsOrder self.now }
        ensures twelve { length self.now.numbers ≡ 12 }
        ensures small { All (λ n. n ≤ 100000000) result }
    {
        self.values
    }

    /// The number in a column.
    pub fn number(&self, field: Field) -> u32
        ensures number { result ≡ number_in self.now field }
        ensures order { IsOrder self.now }
        ensures least { least_in field ≤ result }
        ensures greatest { result ≤ greatest_in (greatest_gap_of self.now) field }
    {
        self.values[field.place()]
    }

    /// The pallet and the case as they are, without the gap.
    pub fn real(&self) -> Inst
        ensures real { IsRealOf self.now result }
        ensures only { (I : Inst) → IsRealOf self.now I → I ≡ result }
        ensures order { IsOrder self.now }
        ensures fits { CaseFits result }
    {
        let (case_x, case_y) = (self.number(Field::CaseX), self.number(Field::CaseY));
        match Inst::new(
            self.number(Field::PalletX),
            self.number(Field::PalletY),
            case_x.max(case_y),
            case_x.min(case_y),
        ) {
            Some(inst) => inst,
            None => unreachable!(),
        }
    }

    /// How far any two cases of a layer are apart at least, in x or in y.
    pub fn gap(&self) -> u32
        ensures gap { result ≡ gap_of self.now }
        ensures order { IsOrder self.now }
        ensures few { result ≤ 100 }
    {
        self.number(Field::Gap)
    }

    /// The instance that is planned: each of the four numbers of `real` is greater by the gap.
    pub fn inst(&self) -> Inst
        ensures given { IsGivenOf self.now result }
        ensures order { IsOrder self.now }
        ensures fits { CaseFits result }
        ensures few { area_bound_of result ≤ 1000 }
        ensures swollen { (I : Inst) → IsRealOf self.now I → IsSwollen I (gap_of self.now) result }
        ensures same_layouts { (I : Inst) → IsRealOf self.now I → SameLayouts I (gap_of self.now) result }
        ensures same_bounds { (I : Inst) → IsRealOf self.now I → SameBounds I (gap_of self.now) result }
        ensures layers { (spots : List Spot) → IsLayerFor self.now spots ↔ IsLayout result spots }
        ensures bounds { (n : ℕ) → IsBoundFor self.now n ↔ IsBounded result n }
    {
        match swollen(self.real(), self.gap()) {
            Some(inst) => inst,
            None => unreachable!(),
        }
    }

    /// The same order once more.
    pub fn copied(&self, alloc: Global) -> Result<Order, Memory>
        ensures { IfOk result (λ o. o ≡ self.now) }
    {
        let name = self.name.to_vec(alloc)?;
        Ok(Order {
            name,
            values: self.values,
        })
    }

    /// Whether the two orders have the same id and the same numbers.
    pub fn is_same(&self, other: &Order) -> bool
        ensures { IsTrue result ↔ (self.now ≡ other.now) }
    {
        self.name.as_slice() == other.name.as_slice() && self.values == other.values
    }
}

// The same numbers, as wide as those of a row.
fn widened(numbers: &[u32; 12]) -> [u64; 12]
    ensures { result ≡ numbers.now }
{
    let mut wide = [0; 12];
    for (place, number) in numbers.iter().enumerate() {
        wide[place] = u64::from(*number);
    }
    wide
}

// The same numbers, as narrow as an order has them.
fn narrowed(numbers: &[u64; 12]) -> [u32; 12]
    requires { All (λ n. n ≤ 100000000) numbers.now }
    ensures { result ≡ numbers.now }
{
    let mut narrow = [0; 12];
    for (place, number) in numbers.iter().enumerate() {
        narrow[place] = *number as u32;
    }
    narrow
}

// The order that a row is, under the number columns of its header.
pub(crate) fn order_of(
    alloc: Global,
    columns: &[Field],
    fields: &ByteRecord,
) -> Result<Order, OrderFail>
    ensures same { IfOk result (λ o. o ≡ order_in (fields_of fields.now)) }
    ensures passes { OnOk result (row_fault columns.now (fields_of fields.now) ≡ None) }
    ensures fault { IfErr result (λ e. TellsFault (row_fault columns.now (fields_of fields.now)) e) }
{
    let numbers = numbers_of(fields);
    if let Some(fault) = fault_of_row(columns, fields, &numbers) {
        return Err(OrderFail::Fault(fault));
    }
    match id_of(fields).to_vec(alloc) {
        Ok(name) => Ok(Order {
            name,
            values: narrowed(&numbers),
        }),
        Err(_) => Err(OrderFail::Memory),
    }
}
