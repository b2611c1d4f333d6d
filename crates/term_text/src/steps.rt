// The steps that a condition's text makes: one pass over the text, token by token.
ghost use Rattle.std.specs.Prelude.{◌≡◌, ◌<◌, ◌++◌, length, OnOk, option_to_list};
ghost use Rattle.ecam_spec.proofs.TermReading.{text_reading};
ghost use Rattle.term_text.specs.StepsTold.{TellsSteps};

use crate::error::TermError;
use crate::pending::Pending;
use crate::token::token_at;
use ecam_spec::Step;
use std::alloc::{AllocError, Global};

/// How many steps most texts make, for which memory is then asked once.
const USUAL_STEPS: usize = 16;

/// The steps that a text's tokens make, or the place of the first token that fits nowhere.
pub(crate) fn steps_of(alloc: Global, text: &[u8]) -> Result<Vec<Step>, TermError>
    ensures { TellsSteps (text_reading text.now) result }
{
    let mut pending = Pending::new(alloc)?;
    let mut steps = Vec::with_capacity(alloc, USUAL_STEPS)?;
    let mut at = 0;
    while at < text.len() {
        if text[at] == b' ' {
            at += 1;
        } else {
            let found = token_at(text, at);
            let step = pending.accept(found.token, at)?;
            push(&mut steps, step)?;
            at = found.end;
        }
    }
    if pending.is_whole() {
        Ok(steps)
    } else {
        Err(TermError::Syntax { at: text.len() })
    }
}

fn push(steps: &mut Vec<Step>, step: Option<Step>) -> Result<(), AllocError>
    ensures { OnOk result (steps.new.items ≡ steps.old.items ++ option_to_list step) }
{
    if let Some(step) = step {
        steps.push(step)?;
    }
    Ok(())
}
