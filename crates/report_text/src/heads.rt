ghost use Rattle.std.specs.Prelude.{◌≡◌, IfOk};
ghost use Rattle.texts.specs.Grammar.{first_by};
ghost use Rattle.texts.specs.Gives.{Gives, GivesOrLeaves};
ghost use Rattle.texts.specs.Lines.{whole_lines, unfinished};
ghost use Rattle.report_text.specs.Words.{count_of_line, bound_of_line, status_of_line, order_of_line, reduced_of_line};
ghost use Rattle.report_text.specs.HeadLines.{head_from as head_read};

use crate::numbers::{bound_line, count_line, reduced_line, status_line};
use crate::orders::order_line;
use cert_text::Form;
use order_reader::Order;
use plan_entries::Status;
use plan_geometry::Inst;
use std::alloc::Global;
use texts::{LineStop, LinesLeft, Stop, count_lines, next_line};

/// The first lines of a plan: its order, the instance that was planned, count, bound and status.
#[derive(Drop)]
pub struct PlanHead {
    pub order: Order,
    pub reduced: Inst,
    pub count: u32,
    pub bound: u32,
    pub status: Status,
}

fn order_at<'a>(
    alloc: Global,
    form: Form,
    id: &[u8],
    bytes: &'a [u8],
) -> Result<(Order, &'a [u8]), Stop>
    ensures read { Gives (λ x. (x.0, whole_lines x.1.now)) result (first_by (order_of_line form id.now) (whole_lines bytes.now)) }
    ensures rest { IfOk result (λ x. unfinished x.1.now ≡ unfinished bytes.now) }
{
    let Some((line, rest)) = next_line(bytes) else {
        return Err(Stop::Left(0));
    };
    match order_line(alloc, form, id, line) {
        Ok(order) => Ok((order, rest)),
        Err(LineStop::Memory) => Err(Stop::Memory),
        Err(LineStop::Fault) => Err(Stop::Left(count_lines(bytes))),
    }
}

fn reduced_at(bytes: &[u8]) -> Result<(Inst, &[u8]), LinesLeft>
    ensures read { GivesOrLeaves (λ x. (x.0, whole_lines x.1.now)) result (first_by reduced_of_line (whole_lines bytes.now)) }
    ensures rest { IfOk result (λ x. unfinished x.1.now ≡ unfinished bytes.now) }
{
    let Some((line, rest)) = next_line(bytes) else {
        return Err(LinesLeft { count: 0 });
    };
    match reduced_line(line) {
        Some(inst) => Ok((inst, rest)),
        None => Err(LinesLeft {
            count: count_lines(bytes),
        }),
    }
}

fn count_at(form: Form, bytes: &[u8]) -> Result<(u32, &[u8]), LinesLeft>
    ensures read { GivesOrLeaves (λ x. (x.0, whole_lines x.1.now)) result (first_by (count_of_line form) (whole_lines bytes.now)) }
    ensures rest { IfOk result (λ x. unfinished x.1.now ≡ unfinished bytes.now) }
{
    let Some((line, rest)) = next_line(bytes) else {
        return Err(LinesLeft { count: 0 });
    };
    match count_line(form, line) {
        Some(count) => Ok((count, rest)),
        None => Err(LinesLeft {
            count: count_lines(bytes),
        }),
    }
}

fn bound_at(form: Form, bytes: &[u8]) -> Result<(u32, &[u8]), LinesLeft>
    ensures read { GivesOrLeaves (λ x. (x.0, whole_lines x.1.now)) result (first_by (bound_of_line form) (whole_lines bytes.now)) }
    ensures rest { IfOk result (λ x. unfinished x.1.now ≡ unfinished bytes.now) }
{
    let Some((line, rest)) = next_line(bytes) else {
        return Err(LinesLeft { count: 0 });
    };
    match bound_line(form, line) {
        Some(bound) => Ok((bound, rest)),
        None => Err(LinesLeft {
            count: count_lines(bytes),
        }),
    }
}

fn status_at(bytes: &[u8]) -> Result<(Status, &[u8]), LinesLeft>
    ensures read { GivesOrLeaves (λ x. (x.0, whole_lines x.1.now)) result (first_by status_of_line (whole_lines bytes.now)) }
    ensures rest { IfOk result (λ x. unfinished x.1.now ≡ unfinished bytes.now) }
{
    let Some((line, rest)) = next_line(bytes) else {
        return Err(LinesLeft { count: 0 });
    };
    match status_line(line) {
        Some(status) => Ok((status, rest)),
        None => Err(LinesLeft {
            count: count_lines(bytes),
        }),
    }
}

// The first lines of a plan behind its id.
#[tactic(auto, unfolding(crate::specs::HeadLines::head_from))]
pub(crate) fn head_from<'a>(
    alloc: Global,
    form: Form,
    id: &[u8],
    bytes: &'a [u8],
) -> Result<(PlanHead, &'a [u8]), Stop>
    ensures read { Gives (λ x. (x.0, whole_lines x.1.now)) result (head_read form id.now (whole_lines bytes.now)) }
    ensures rest { IfOk result (λ x. unfinished x.1.now ≡ unfinished bytes.now) }
{
    let (order, rest) = order_at(alloc, form, id, bytes)?;
    let (reduced, rest) = reduced_at(rest)?;
    let (count, rest) = count_at(form, rest)?;
    let (bound, rest) = bound_at(form, rest)?;
    let (status, rest) = status_at(rest)?;
    let head = PlanHead {
        order,
        reduced,
        count,
        bound,
        status,
    };
    Ok((head, rest))
}
