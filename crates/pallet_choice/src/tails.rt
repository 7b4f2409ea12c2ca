ghost use Rattle.std.specs.Prelude.{◌≡◌, IfOk, IfErr, IfSome};
ghost use Rattle.texts.specs.Grammar.{first_by};
ghost use Rattle.texts.specs.Gives.{Gives, GivesOption, GivesOrLeaves};
ghost use Rattle.texts.specs.Lines.{whole_lines, unfinished};
ghost use Rattle.pallet_choice.specs.Lines.{next_rival, rivals_from, tail_at};
ghost use Rattle.pallet_choice.specs.Tails.{IsLongestTail, NoTailIsInFront};
ghost use Rattle.pallet_choice.specs.Text.{tail_value};
ghost use Rattle.pallet_choice.specs.Words.{chosen_of};

use crate::words::{chosen_line, rival_line};
use plan_memory::Memory;
use std::alloc::Global;
use texts::{LinesLeft, Stop, count_lines, next_line};

/// What the text of a choice tells.
#[derive(Drop)]
pub struct Tail {
    /// The chosen entry's number, from 1 to 256, and its count, from 1 to 1,000 cases.
    pub chosen: Option<(u32, u32)>,
    /// The rivals' numbers, from 1 to 256, which rise, and their bounds, from 1 to 1,000 cases.
    pub rivals: Vec<(u32, u32)>,
}

/// Why no tail was got.
#[derive(Clone, Copy, PartialEq, Eq, Debug)]
pub enum TailFault {
    /// Memory was refused.
    Memory,
    /// No tail is in front.
    NoTail,
}

fn chosen_at(bytes: &[u8]) -> Result<(Option<(u32, u32)>, &[u8]), LinesLeft>
    ensures read { GivesOrLeaves (λ x. (x.0, whole_lines x.1.now)) result (first_by chosen_of (whole_lines bytes.now)) }
    ensures rest { IfOk result (λ x. unfinished x.1.now ≡ unfinished bytes.now) }
{
    let Some((line, rest)) = next_line(bytes) else {
        return Err(LinesLeft { count: 0 });
    };
    match chosen_line(line) {
        Some(chosen) => Ok((chosen, rest)),
        None => Err(LinesLeft {
            count: count_lines(bytes),
        }),
    }
}

// The rival in the first line whose number is above this one, and the bytes after that line.
#[tactic(auto, unfolding(crate::specs::Lines::next_rival))]
fn rival_at(bytes: &[u8], above: u32) -> Option<((u32, u32), &[u8])>
    ensures read { GivesOption (λ x. (x.0, whole_lines x.1.now)) result (next_rival above (whole_lines bytes.now)) }
    ensures rest { IfSome result (λ x. unfinished x.1.now ≡ unfinished bytes.now) }
{
    let (line, rest) = next_line(bytes)?;
    let rival = rival_line(line, above)?;
    Some((rival, rest))
}

// The rivals in the first lines, as far as their numbers rise, and the bytes after those lines.
fn rivals_at(alloc: Global, bytes: &[u8]) -> Result<(Vec<(u32, u32)>, &[u8]), Memory>
    ensures read { IfOk result (λ x. rivals_from 0 (whole_lines bytes.now) ≡ (x.0.items, whole_lines x.1.now)) }
    ensures rest { IfOk result (λ x. unfinished x.1.now ≡ unfinished bytes.now) }
{
    let mut rivals = Vec::new(alloc);
    let mut above = 0;
    let mut rest = bytes;
    while let Some((rival, after)) = rival_at(rest, above) {
        rivals.push(rival)?;
        above = rival.0;
        rest = after;
    }
    Ok((rivals, rest))
}

/// The longest tail in front, and the bytes after it; or how many lines were left at the first fault.
#[tactic(auto, unfolding(crate::specs::Lines::tail_at))]
pub fn tail_from(alloc: Global, bytes: &[u8]) -> Result<(Tail, &[u8]), Stop>
    ensures read { Gives (λ x. (tail_value x.0, whole_lines x.1.now)) result (tail_at (whole_lines bytes.now)) }
    ensures rest { IfOk result (λ x. unfinished x.1.now ≡ unfinished bytes.now) }
{
    let (chosen, rest) = chosen_at(bytes)?;
    let (rivals, rest) = rivals_at(alloc, rest)?;
    Ok((Tail { chosen, rivals }, rest))
}

/// The longest prefix that is a tail, as what it tells, and that prefix's length in bytes. `NoTail` exactly where no
/// prefix is a tail.
pub fn get_choice(alloc: Global, bytes: &[u8]) -> Result<(Tail, usize), TailFault>
    ensures found { IfOk result (λ x. IsLongestTail bytes.now (tail_value x.0) x.1) }
    ensures none { IfErr result (λ e. e ≡ TailFault.NoTail → NoTailIsInFront bytes.now) }
{
    match tail_from(alloc, bytes) {
        Ok((tail, rest)) => {
            let len = bytes.len() - rest.len();
            Ok((tail, len))
        }
        Err(Stop::Memory) => Err(TailFault::Memory),
        Err(Stop::Left(_)) => Err(TailFault::NoTail),
    }
}
