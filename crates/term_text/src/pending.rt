// What is still expected of a condition's text, token by token.
ghost use Rattle.std.specs.Prelude.{◌≡◌, ℕ, ◌<◌, ◌≤◌, [], ◌∷◌, ◌++◌, true, IfOk, OnOk, IfSome, option_to_list, reverse};
ghost use Rattle.ecam_spec.specs.declared.term_steps.Expected.TheVariants.{Condition, Opening, Separator, Closing, ANumber};
ghost use Rattle.ecam_spec.proofs.TermReading.{rule, at_once, name_step, number_step, next_move, is_whole};
ghost use Rattle.term_text.specs.Pending.{pending, is_tail, is_sign, count_of, CountsWithin, move_from, Moves};

use crate::error::TermError;
use ecam_spec::{Connective, Expected, NameRole, NumberRole, Reserved, Span, Step, Token};
use std::alloc::{AllocError, Global};

/// How much is expected at once by most texts, which then ask for memory once.
const USUAL_DEPTH: usize = 16;

/// What is still expected of a condition's text. The next stands last.
#[derive(Drop)]
pub(crate) struct Pending {
    pub stack: Vec<Expected>,
}

impl Pending {
    /// A whole condition is expected.
    pub fn new(alloc: Global) -> Result<Pending, AllocError>
        ensures { IfOk result (λ p. pending p ≡ Condition ∷ []) }
    {
        let mut stack = Vec::with_capacity(alloc, USUAL_DEPTH)?;
        stack.push(Expected::Condition)?;
        Ok(Pending { stack })
    }

    /// Takes the token at a place, and answers the step that it makes whole, if any.
    pub fn accept(&mut self, token: Token, at: usize) -> Result<Option<Step>, TermError>
        requires counts { CountsWithin at (pending self.old) }
        requires room { at < usize.MAX }
        ensures { Moves (next_move (pending self.old) token) (pending self.new) at result }
    {
        match self.next_for(token) {
            Some(expected) => self.meet(expected, token, at),
            None => Err(TermError::Syntax { at }),
        }
    }

    /// Whether nothing more is needed.

    pub fn is_whole(&self) -> bool
        ensures { result ≡ is_whole (pending self.now) }
    {
        for expected in &self.stack {
            if !is_tail(*expected) {
                return false;
            }
        }
        true
    }

    // Takes what is expected next. A comparison that isn't there is passed over.
    fn next_for(&mut self, token: Token) -> Option<Expected>
        ensures next { next_move (pending self.old) token
            ≡ move_from result (pending self.new) token }
        ensures sign { IfSome result (λ e. is_tail e ≡ true → is_sign token ≡ true) }
        ensures count { (n : ℕ) → CountsWithin n (pending self.old)
            → IfSome result (λ e. count_of e ≤ n) }
    {
        while let Some(expected) = self.stack.pop() {
            if !is_tail(expected) || is_sign(token) {
                return Some(expected);
            }
        }
        None
    }

    // Sets a token against what is expected, which is taken.
    #[tactic(auto, unfolding(ecam_spec::proofs::TermReading::next_move))]
    fn meet(
        &mut self,
        expected: Expected,
        token: Token,
        at: usize,
    ) -> Result<Option<Step>, TermError>
        requires sign { is_tail expected ≡ true → is_sign token ≡ true }
        requires count { count_of expected ≤ at }
        requires room { at < usize.MAX }
        ensures { Moves (next_move (expected ∷ pending self.old) token) (pending self.new) at
            result }
    {
        match (expected, token) {
            (Expected::Condition, Token::Word(word)) => {
                self.expect_rule(word)?;
                Ok(constant(word))
            }
            (Expected::Condition, Token::Name(name)) => {
                self.expect(&[Expected::Tail])?;
                Ok(Some(Step::Named(name)))
            }
            (Expected::Tail, Token::Sign(op)) => {
                self.expect(&[Expected::ANumber(NumberRole::Compared(op))])?;
                Ok(None)
            }
            (Expected::Opening, Token::Open) => Ok(None),
            (Expected::Separator, Token::Comma) => Ok(None),
            (Expected::Closing, Token::Close) => Ok(None),
            (Expected::Finish(step), Token::Close) => Ok(Some(step)),
            (Expected::AName(role), Token::Name(name)) => Ok(Some(name_step(role, name))),
            (Expected::AKey, Token::KeyWord(key)) => Ok(Some(Step::Pressed(key))),
            (Expected::ANumber(role), Token::Number(number)) => Ok(Some(number_step(role, number))),
            (Expected::Least, Token::Number(number)) => {
                self.expect(&[
                    Expected::Others(Connective::AtLeast(number), 1),
                    Expected::Condition,
                    Expected::Separator,
                ])?;
                Ok(None)
            }
            (Expected::Others(list, count), Token::Comma) => {
                self.expect(&[Expected::Others(list, count + 1), Expected::Condition])?;
                Ok(None)
            }
            (Expected::Others(list, count), Token::Close) => Ok(Some(Step::Over(list, count))),
            (Expected::Phases, Token::Comma) => {
                self.expect(&[Expected::Phases, Expected::ANumber(NumberRole::AlsoPhase)])?;
                Ok(None)
            }
            (Expected::Phases, Token::Close) => Ok(None),
            _ => Err(TermError::Syntax { at }),
        }
    }

    // Expects what follows a reserved word.
    fn expect_rule(&mut self, word: Reserved) -> Result<(), AllocError>
        ensures { OnOk result (pending self.new ≡ rule word ++ pending self.old) }
    {
        match word {
            Reserved::True | Reserved::False => Ok(()),
            Reserved::Valid => self.expect_in_brackets(Expected::AName(NameRole::Valid)),
            Reserved::Alert => self.expect_in_brackets(Expected::AName(NameRole::Alert)),
            Reserved::Press => self.expect_in_brackets(Expected::AKey),
            Reserved::Fwc => self.expect_in_brackets(Expected::ANumber(NumberRole::Computer)),
            Reserved::Phase => self.expect(&[
                Expected::Phases,
                Expected::ANumber(NumberRole::Phase),
                Expected::Opening,
            ]),
            Reserved::Not => self.expect_condition(Expected::Finish(Step::Negation)),
            Reserved::Rise => self.expect_condition(Expected::Finish(Step::Risen)),
            Reserved::All => self.expect_condition(Expected::Others(Connective::All, 1)),
            Reserved::Any => self.expect_condition(Expected::Others(Connective::Any, 1)),
            Reserved::AtLeast => self.expect(&[Expected::Least, Expected::Opening]),
            Reserved::Conf => self.expect_timed(NumberRole::Confirmed),
            Reserved::Hold => self.expect_timed(NumberRole::Held),
            Reserved::Latch => self.expect(&[
                Expected::Finish(Step::Latched),
                Expected::Condition,
                Expected::Separator,
                Expected::Condition,
                Expected::Opening,
            ]),
        }
    }

    // Expects this alone in brackets.
    fn expect_in_brackets(&mut self, part: Expected) -> Result<(), AllocError>
        ensures { OnOk result (pending self.new ≡ Opening ∷ part ∷ Closing ∷ pending self.old) }
    {
        self.expect(&[Expected::Closing, part, Expected::Opening])
    }

    // Expects a condition in brackets, and this after it.
    fn expect_condition(&mut self, then: Expected) -> Result<(), AllocError>
        ensures { OnOk result (pending self.new ≡ Opening ∷ Condition ∷ then ∷ pending self.old) }
    {
        self.expect(&[then, Expected::Condition, Expected::Opening])
    }

    // Expects a condition and a number in brackets.
    fn expect_timed(&mut self, role: NumberRole) -> Result<(), AllocError>
        ensures { OnOk result (pending self.new
            ≡ Opening ∷ Condition ∷ Separator ∷ ANumber role ∷ Closing ∷ pending self.old) }
    {
        self.expect(&[
            Expected::Closing,
            Expected::ANumber(role),
            Expected::Separator,
            Expected::Condition,
            Expected::Opening,
        ])
    }

    // Expects these before all else, the last first, as they are kept.
    fn expect(&mut self, parts: &[Expected]) -> Result<(), AllocError>
        ensures { OnOk result (pending self.new ≡ reverse parts.now ++ pending self.old) }
    {
        self.stack.extend_from_slice(parts)
    }
}

fn is_tail(expected: Expected) -> bool
    ensures { result ≡ is_tail expected }
{
    matches!(expected, Expected::Tail)
}

fn is_sign(token: Token) -> bool
    ensures { result ≡ is_sign token }
{
    matches!(token, Token::Sign(_))
}

// The constants are whole at once.
fn constant(word: Reserved) -> Option<Step>
    ensures { option_to_list result ≡ at_once word }
{
    match word {
        Reserved::True => Some(Step::Constant(true)),
        Reserved::False => Some(Step::Constant(false)),
        _ => None,
    }
}

fn name_step(role: NameRole, name: Span) -> Step
    ensures { result ≡ name_step role name }
{
    match role {
        NameRole::Valid => Step::Valid(name),
        NameRole::Alert => Step::Alerted(name),
    }
}

fn number_step(role: NumberRole, number: Span) -> Step
    ensures { result ≡ number_step role number }
{
    match role {
        NumberRole::Compared(op) => Step::Compared(op, number),
        NumberRole::Computer => Step::Computer(number),
        NumberRole::Phase => Step::Phase(number),
        NumberRole::AlsoPhase => Step::AlsoPhase(number),
        NumberRole::Confirmed => Step::Confirmed(number),
        NumberRole::Held => Step::Held(number),
    }
}
