ghost use Rattle.std.specs.Prelude.{◌≡◌, ◌++◌, ◌∷◌, ◌↔◌, ◌≤◌, [], map, decimal, codes, length, OnOk, OnErr, IsErrOf, true};
ghost use Rattle.texts.specs.Lines.{ended, spaced, text_of};
ghost use Rattle.texts.specs.Puts.{Puts};
ghost use Rattle.cert_text.specs.Ranges.{InRange};
ghost use Rattle.cert_text.specs.Text.{cert_text};
ghost use Rattle.plan_entries.specs.Ranges.{plan_in_range, IsInRange};
ghost use Rattle.report_text.specs.LineTexts.{number_words, id_line, fault_line, order_words, reduced_words, count_words, bound_words, status_line as status_text};
ghost use Rattle.report_text.specs.Text.{front_lines, plan_lines, entry_text};
ghost use Rattle.listing_text.specs.Text.{layers_text, answer_text};
ghost use Rattle.order_reader.specs.Columns.{column_name};

use cert_text::{Form, put_cert};
use listing_text::{put_answer, put_layers};
use order_reader::{Field, Order, RowFault};
use plan_entries::{Entry, Plan, Status, is_in_range};
use plan_geometry::Inst;
use plan_memory::Memory;
use texts::{put_named, put_text};
use weightings::Cert;

/// Why no text of an entry was appended.
#[derive(Clone, Copy, PartialEq, Eq, Debug)]
pub enum PutStop {
    /// Memory was refused.
    Memory,
    /// The entry is not within the ranges of today's form.
    Shape,
}

// Appends a name, a number and the end of a line.
#[tactic(auto, using(texts::proofs::Growth::grows_after))]
fn put_number_line(out: &mut Vec<u8>, name: &[u8], number: u32) -> Result<(), Memory>
    ensures { Puts out.old.items out.new.items ((name.now ++ decimal number) ++ 10 ∷ []) result }
{
    put_named(out, name, u64::from(number))?;
    put_text(out, b"\n")
}

// Appends the line of an entry's number.
fn put_number(out: &mut Vec<u8>, number: u32) -> Result<(), Memory>
    ensures { Puts out.old.items out.new.items (ended (spaced (number_words number))) result }
{
    put_number_line(out, b"entry ", number)
}

// Appends the line of a count.
fn put_count(out: &mut Vec<u8>, count: u32) -> Result<(), Memory>
    ensures { Puts out.old.items out.new.items (ended (spaced (count_words count))) result }
{
    put_number_line(out, b"count ", count)
}

// Appends the line of a bound.
fn put_bound(out: &mut Vec<u8>, bound: u32) -> Result<(), Memory>
    ensures { Puts out.old.items out.new.items (ended (spaced (bound_words bound))) result }
{
    put_number_line(out, b"bound ", bound)
}

fn put_status(out: &mut Vec<u8>, status: Status) -> Result<(), Memory>
    ensures { Puts out.old.items out.new.items (ended (status_text status)) result }
{
    match status {
        Status::Optimal => put_text(out, b"status optimal\n"),
        Status::StillOpen => put_text(out, b"status open\n"),
    }
}

// Appends the line of an id.
#[tactic(auto, using(texts::proofs::Growth::grows_after))]
fn put_id(out: &mut Vec<u8>, id: &[u8]) -> Result<(), Memory>
    ensures { Puts out.old.items out.new.items (ended (id_line id.now)) result }
{
    put_text(out, b"id ")?;
    put_text(out, id)?;
    put_text(out, b"\n")
}

// Appends numbers, each behind a space.
#[tactic(auto, using(texts::proofs::Growth::grows_after))]
fn put_numbers(out: &mut Vec<u8>, numbers: &[u32]) -> Result<(), Memory>
    ensures { Puts out.old.items out.new.items (spaced ([] ∷ map decimal numbers.now)) result }
{
    for number in numbers {
        put_named(out, b" ", u64::from(*number))?;
    }
    Ok(())
}

// Appends the line of the numbers of an order.
#[tactic(auto, using(texts::proofs::Growth::grows_after))]
fn put_order(out: &mut Vec<u8>, order: &Order) -> Result<(), Memory>
    ensures { Puts out.old.items out.new.items (ended (spaced (order_words Form.Two order.now))) result }
{
    put_text(out, b"order")?;
    put_numbers(out, &order.numbers())?;
    put_text(out, b"\n")
}

// Appends the line of the instance that was planned.
#[tactic(auto, using(texts::proofs::Growth::grows_after))]
fn put_reduced(out: &mut Vec<u8>, inst: Inst) -> Result<(), Memory>
    ensures { Puts out.old.items out.new.items (ended (spaced (reduced_words inst))) result }
{
    let numbers = [inst.l_side, inst.w_side, inst.long, inst.short];
    put_text(out, b"reduced")?;
    put_numbers(out, &numbers)?;
    put_text(out, b"\n")
}

// Appends the name of a fault, and the column of the number at fault.
#[tactic(auto, using(texts::proofs::Growth::grows_after))]
fn put_column(out: &mut Vec<u8>, name: &[u8], field: Field) -> Result<(), Memory>
    ensures { Puts out.old.items out.new.items (name.now ++ column_name field ++ 10 ∷ []) result }
{
    put_text(out, name)?;
    put_text(out, field.name().as_bytes())?;
    put_text(out, b"\n")
}

fn put_fault(out: &mut Vec<u8>, fault: RowFault) -> Result<(), Memory>
    ensures { Puts out.old.items out.new.items (ended (fault_line fault)) result }
{
    match fault {
        RowFault::FieldCount => put_text(out, b"refused FieldCount\n"),
        RowFault::BadId => put_text(out, b"refused BadId\n"),
        RowFault::BadNumber { field } => put_column(out, b"refused BadNumber ", field),
        RowFault::OutOfRange { field } => put_column(out, b"refused OutOfRange ", field),
        RowFault::DoesNotFit => put_text(out, b"refused DoesNotFit\n"),
        RowFault::TooManyCases => put_text(out, b"refused TooManyCases\n"),
    }
}

// Appends the text of a certificate, or a part of it.
fn put_certificate(out: &mut Vec<u8>, cert: &Cert) -> Result<(), Memory>
    requires { InRange Form.Two cert.now }
    ensures { Puts out.old.items out.new.items (cert_text cert.now) result }
{
    put_cert(out, cert)
}

// Appends the lines of an order: its id and its numbers.
#[tactic(auto, using(texts::proofs::Growth::grows_after))]
fn put_order_lines(out: &mut Vec<u8>, order: &Order) -> Result<(), Memory>
    ensures { Puts out.old.items out.new.items (ended (id_line order.now.id) ++ ended (spaced (order_words Form.Two order.now))) result }
{
    put_id(out, order.id())?;
    put_order(out, order)
}

// Appends the lines of count, bound and status.
#[tactic(auto, using(texts::proofs::Growth::grows_after))]
fn put_counts(out: &mut Vec<u8>, count: u32, bound: u32, status: Status) -> Result<(), Memory>
    ensures { Puts out.old.items out.new.items (ended (spaced (count_words count)) ++ (ended (spaced (bound_words bound)) ++ ended (status_text status))) result }
{
    put_count(out, count)?;
    put_bound(out, bound)?;
    put_status(out, status)
}

// Appends the first lines of a plan behind that of its number.
#[tactic(auto, using(texts::proofs::Growth::grows_after))]
fn put_plan_head(out: &mut Vec<u8>, plan: &Plan) -> Result<(), Memory>
    ensures { Puts out.old.items out.new.items (text_of (front_lines Form.Two plan.now)) result }
{
    put_order_lines(out, &plan.order)?;
    put_reduced(out, plan.reduced)?;
    put_counts(out, plan.count, plan.bound, plan.status)
}

// Appends the other lines of a plan.
#[tactic(auto, using(texts::proofs::Growth::grows_after))]
fn put_plan_tail(out: &mut Vec<u8>, plan: &Plan) -> Result<(), Memory>
    requires { plan_in_range Form.Two plan.now ≡ true }
    ensures { Puts out.old.items out.new.items (cert_text plan.now.cert ++ (layers_text plan.now.layers ++ (answer_text (plan.now.allowed, plan.now.stack) ++ codes "end\n"))) result }
{
    put_certificate(out, &plan.cert)?;
    put_layers(out, &plan.layers)?;
    put_answer(out, plan.allowed, &plan.stack)?;
    put_text(out, b"end\n")
}

// Appends the text of a plan, or a part of it.
#[tactic(auto, using(texts::proofs::Growth::grows_after))]
fn put_plan(out: &mut Vec<u8>, plan: &Plan) -> Result<(), Memory>
    requires { plan_in_range Form.Two plan.now ≡ true }
    ensures { Puts out.old.items out.new.items (text_of (spaced (number_words plan.now.number) ∷ plan_lines Form.Two plan.now)) result }
{
    put_number(out, plan.number)?;
    put_plan_head(out, plan)?;
    put_plan_tail(out, plan)
}

// Appends the text of an entry of a refused row, or a part of it.
#[tactic(auto, using(texts::proofs::Growth::grows_after))]
fn put_refused(out: &mut Vec<u8>, number: u32, fault: RowFault) -> Result<(), Memory>
    ensures { Puts out.old.items out.new.items (ended (spaced (number_words number)) ++ (ended (fault_line fault) ++ codes "end\n")) result }
{
    put_number(out, number)?;
    put_fault(out, fault)?;
    put_text(out, b"end\n")
}

// Appends the text of an entry, or a part of it.
#[tactic(auto, unfolding(crate::specs::Text::entry_lines))]
fn put_all(out: &mut Vec<u8>, entry: &Entry) -> Result<(), Memory>
    requires { IsInRange Form.Two entry.now }
    ensures { Puts out.old.items out.new.items (entry_text Form.Two entry.now) result }
{
    match entry {
        Entry::Planned(plan) => put_plan(out, plan),
        Entry::Refused { number, fault } => put_refused(out, *number, *fault),
    }
}

/// Appends the text of an entry, in today's form. `PutStop::Shape` exactly where the entry is not within that form's
/// ranges. After an error `out` is as before.
#[tactic(auto, using(texts::proofs::Growth::cut_back))]
pub fn put_entry(out: &mut Vec<u8>, entry: &Entry) -> Result<(), PutStop>
    ensures ok { OnOk result (out.new.items ≡ out.old.items ++ entry_text Form.Two entry.now) }
    ensures err { OnErr result (out.new.items ≡ out.old.items) }
    ensures shape { IsErrOf result PutStop.Shape ↔ (IsInRange Form.Two entry.now → ⊥) }
{
    if !is_in_range(entry, Form::Two) {
        return Err(PutStop::Shape);
    }
    let len = out.len();
    match put_all(out, entry) {
        Ok(()) => Ok(()),
        Err(Memory) => {
            out.truncate(len);
            Err(PutStop::Memory)
        }
    }
}
