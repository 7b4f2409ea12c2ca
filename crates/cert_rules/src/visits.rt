ghost use Rattle.std.specs.Prelude.{◌≡◌, ◌≢◌, ℕ, ◌+◌, ◌<◌, ◌≤◌, ◌∷◌, [], ◌++◌, ◌↔◌, IsTrue, false, IfOk, length, reverse};
ghost use Rattle.cert_rules.specs.Corner.{state_of, allows, children};
ghost use Rattle.cert_rules.specs.Path.{state};
ghost use Rattle.cert_rules.specs.Waiting.{later, waiting, todo, IsFirstMove, SameButSteps};
ghost use Rattle.cert_rules.specs.declared.steps.Step.TheVariants.{Lying, Standing, Waste};

use crate::skyline::Skyline;
use crate::steps::Step;
use plan_memory::Memory;

// The first move behind a move.
fn next_move(sky: &Skyline, tried: Step) -> Option<Step>
    ensures { IsFirstMove sky.now.inst (state sky.now) (later tried) result }
{
    match tried {
        Step::Lying => {
            if sky.allows(Step::Standing) {
                Some(Step::Standing)
            } else if sky.allows(Step::Waste) {
                Some(Step::Waste)
            } else {
                None
            }
        }
        Step::Standing => {
            if sky.allows(Step::Waste) {
                Some(Step::Waste)
            } else {
                None
            }
        }
        Step::Waste => None,
    }
}

// The first move.
fn first_move(sky: &Skyline) -> Option<Step>
    ensures { IsFirstMove sky.now.inst (state sky.now) (Lying ∷ Standing ∷ Waste ∷ []) result }
{
    if sky.allows(Step::Lying) {
        Some(Step::Lying)
    } else {
        next_move(sky, Step::Lying)
    }
}

// Goes to the state after a move, and notes it.
fn descend(sky: &mut Skyline, path: &mut Vec<Step>, step: Step) -> Result<(), Memory>
    requires allowed { IsTrue (allows sky.old.inst (state sky.old).heights step) }
    requires room { length sky.old.steps < 500000 }
    requires same { sky.old.steps ≡ reverse path.old.items }
    ensures moved { IfOk result (λ _. sky.new ≡ record sky.old { steps = step ∷ sky.old.steps }) }
    ensures same { IfOk result (λ _. sky.new.steps ≡ reverse path.new.items) }
{
    path.push(step)?;
    sky.advance(step)
}

/// Goes to the first child, and notes its move behind the path. False exactly where the state has no move.
pub fn enter(sky: &mut Skyline, path: &mut Vec<Step>) -> Result<bool, Memory>
    requires room { length sky.old.steps < 500000 }
    requires same { sky.old.steps ≡ reverse path.old.items }
    ensures entered { IfOk result (λ b. IsTrue b →
        todo sky.new.inst sky.new.steps ≡ children sky.old.inst (state sky.old) ++ waiting sky.old.inst sky.old.steps) }
    ensures some { IfOk result (λ b. IsTrue b → children sky.old.inst (state sky.old) ≢ []) }
    ensures none { IfOk result (λ b. (b ≡ false) → children sky.old.inst (state sky.old) ≡ []) }
    ensures unmoved { IfOk result (λ b. (b ≡ false) → sky.new ≡ sky.old) }
    ensures kept { IfOk result (λ _. SameButSteps sky.old sky.new) }
    ensures same { IfOk result (λ _. sky.new.steps ≡ reverse path.new.items) }
    ensures deeper { IfOk result (λ _. length sky.new.steps ≤ length sky.old.steps + 1) }
{
    match first_move(sky) {
        Some(step) => {
            descend(sky, path, step)?;
            Ok(true)
        }
        None => Ok(false),
    }
}

/// Goes to the next state in preorder that is not below this one. False exactly where there is none.
pub fn leave(sky: &mut Skyline, path: &mut Vec<Step>) -> Result<bool, Memory>
    requires room { length sky.old.steps ≤ 500000 }
    requires same { sky.old.steps ≡ reverse path.old.items }
    ensures entered { IfOk result (λ b. IsTrue b → todo sky.new.inst sky.new.steps ≡ waiting sky.old.inst sky.old.steps) }
    ensures none { IfOk result (λ b. (b ≡ false) → waiting sky.old.inst sky.old.steps ≡ []) }
    ensures kept { IfOk result (λ _. SameButSteps sky.old sky.new) }
    ensures same { IfOk result (λ _. sky.new.steps ≡ reverse path.new.items) }
    ensures shallower { IfOk result (λ _. length sky.new.steps ≤ length sky.old.steps) }
{
    while let Some(tried) = path.pop() {
        sky.undo();
        if let Some(step) = next_move(sky, tried) {
            descend(sky, path, step)?;
            return Ok(true);
        }
    }
    Ok(false)
}
