// Faults of a draft, one above the other. The expected values follow from the rule: the least code, then the
// section, then the item.
ghost use Rattle.std.specs.Prelude.{◌≡◌};
ghost use Rattle.ecam_spec.specs.KeepsLimits.{IsSound, IsSoundTerm};
ghost use Rattle.term_tree.specs.View.{tree_of};
ghost use Rattle.book_model.specs.View.{draft_of};

use crate::seal;
use crate::sealing::first_fault;
use bitflags::Flags;
use book_model::*;
use ecam_kinds::{Colour, Level, PhaseSet, Sound};
use ecam_spec::Op;
use ecam_spec::limits::{ALERTS, MEMOS, NAMED_TERMS};
use std::alloc::{AllocError, Global};
use std::test::Fail;
use term_tree::{Cond, NamedTerm};

const NUMBER: u32 = 0;

const BIT: u32 = 1;

fn name(text: &str) -> Result<Name, Fail> {
    let mut name = Name::new();
    match name.try_push_str(text) {
        Ok(()) => Ok(name),
        Err(_) => Err("a name of more than 24 bytes".into()),
    }
}

fn term(cond: Cond) -> Term
    ensures { result.cond ≡ cond }
{
    Term { cond, at: 0 }
}

fn parameter(alloc: Global, text: &str, kind: Kind) -> Result<Param, Fail> {
    Ok(Param {
        name: name(text)?,
        kind,
        stale: 1,
        sources: Vec::new(alloc),
    })
}

fn line(when: Cond, done: Cond) -> Line {
    Line {
        text: Text::new(),
        colour: Colour::Cyan,
        when: term(when),
        done: term(done),
    }
}

fn alert(alloc: Global, text: &str, level: Level, sound: Sound, when: Cond) -> Result<Alert, Fail> {
    Ok(Alert {
        name: name(text)?,
        title: Text::new(),
        system: 0,
        level,
        when: term(when),
        page: None,
        confirm: 0,
        sound,
        inhibit: PhaseSet::NINE,
        secondary: Vec::new(alloc),
        lines: Vec::new(alloc),
        status: Vec::new(alloc),
    })
}

fn memo(text: &str, when: Cond) -> Result<Memo, Fail> {
    Ok(Memo {
        name: name(text)?,
        text: Text::new(),
        left: true,
        when: term(when),
        colour: Colour::Green,
    })
}

fn params(alloc: Global) -> Result<Vec<Param>, Fail> {
    let number = parameter(alloc, "number", Kind::Bnr)?;
    let bit = parameter(alloc, "bit", Kind::Disc)?;
    Ok(vec![in alloc; number, bit]?)
}

// Three alerts, of which the second asks for the first and explains the third.
fn alerts(alloc: Global) -> Result<Vec<Alert>, Fail> {
    let first = alert(alloc, "a", Level::Three, Sound::Cricket, Cond::Disc(BIT))?;
    let mut second = alert(alloc, "b", Level::Two, Sound::Chime, Cond::Alert(0))?;
    second.secondary.push(name("c")?)?;
    let third = alert(alloc, "c", Level::One, Sound::Quiet, Cond::Valid(NUMBER))?;
    Ok(vec![in alloc; first, second, third]?)
}

fn named(of: &str, cond: Cond) -> Result<NamedTerm, Fail> {
    Ok(NamedTerm {
        name: name(of)?,
        cond,
    })
}

fn phase() -> PhaseTerms {
    PhaseTerms {
        gnd: term(Cond::Disc(BIT)),
        run: term(Cond::Cmp(NUMBER, Op::More, 15)),
        tp: term(Cond::Const(false)),
        fast: term(Cond::Const(false)),
        high: term(Cond::Const(false)),
        low: term(Cond::Const(false)),
    }
}

fn faultless(alloc: Global) -> Result<Draft, Fail> {
    let params = params(alloc)?;
    let alerts = alerts(alloc)?;
    let memos = vec![in alloc; memo("m", Cond::Disc(BIT))?, memo("n", Cond::Alert(2))?]?;
    Ok(Draft {
        systems: Vec::new(alloc),
        pages: Vec::new(alloc),
        params,
        terms: vec![in alloc; named("p", Cond::Disc(BIT))?, named("q", Cond::Disc(BIT))?]?,
        phase: phase(),
        alerts,
        memos,
    })
}

/// A fault that is put into a draft. Alerts, memos and parameters go by place.
#[derive(Clone, Copy)]
enum Change {
    /// The alert is inhibited in all phases.
    Inhibit(usize),
    /// The alert explains the alert of this name too.
    Explain(usize, &'static str),
    /// The alert has this sound.
    Sound(usize, Sound),
    /// The memo tests the parameter as a discrete.
    MemoTest(usize, u32),
    /// A line of the alert is done where the parameter is less than 1.
    LineCompare(usize, u32),
    /// The alert tests the parameter as a discrete.
    AlertTest(usize, u32),
    /// The named condition tests the parameter as a discrete.
    NamedTest(usize, u32),
    /// A phase input compares the parameter.
    InputCompare(u32),
    /// The alert asks for another.
    AlertAsk(usize, u32),
    /// A phase input asks for the alert.
    InputAsk(u32),
}

const CHANGES: &[(Change, u8, Section, u32)] = &[
    (Change::Inhibit(2), 26, Section::Alert, 3),
    (Change::Inhibit(1), 26, Section::Alert, 2),
    (Change::Explain(2, "c"), 25, Section::Alert, 3),
    (Change::Explain(1, "a"), 25, Section::Alert, 2),
    (Change::Explain(2, "d"), 24, Section::Alert, 3),
    (Change::Sound(2, Sound::Chime), 23, Section::Alert, 3),
    (Change::Sound(1, Sound::Repetitive), 23, Section::Alert, 2),
    (Change::MemoTest(1, NUMBER), 22, Section::Memo, 2),
    (Change::LineCompare(2, BIT), 22, Section::Alert, 3),
    (Change::AlertTest(1, NUMBER), 22, Section::Alert, 2),
    (Change::InputCompare(BIT), 22, Section::Phase, 0),
    (Change::NamedTest(1, NUMBER), 22, Section::Term, 2),
    (Change::NamedTest(0, NUMBER), 22, Section::Term, 1),
    (Change::AlertAsk(2, 2), 21, Section::Alert, 3),
    (Change::AlertAsk(1, 2), 21, Section::Alert, 2),
    (Change::InputAsk(0), 20, Section::Phase, 0),
    (Change::Inhibit(0), 20, Section::Phase, 0),
];

fn nested(alloc: Global, cond: Cond) -> Result<Cond, AllocError> {
    Ok(Cond::Any(vec![in alloc; Cond::Const(false), Cond::Not(Box::new(alloc, cond)?)]?))
}

fn change_alert(alloc: Global, alert: &mut Alert, change: Change) -> Result<(), Fail> {
    match change {
        Change::Inhibit(_) => alert.inhibit = PhaseSet::all(),
        Change::Explain(_, other) => alert.secondary.push(name(other)?)?,
        Change::Sound(_, sound) => alert.sound = sound,
        Change::LineCompare(_, param) => {
            alert
                .lines
                .push(line(Cond::Const(true), Cond::Cmp(param, Op::Less, 1)))?
        }
        Change::AlertTest(_, param) => alert.when = term(nested(alloc, Cond::Disc(param))?),
        Change::AlertAsk(_, other) => alert.when = term(nested(alloc, Cond::Alert(other))?),
        _ => {}
    }
    Ok(())
}

fn put_in(alloc: Global, draft: &mut Draft, change: Change) -> Result<(), Fail> {
    match change {
        Change::Inhibit(place)
        | Change::Explain(place, _)
        | Change::Sound(place, _)
        | Change::LineCompare(place, _)
        | Change::AlertTest(place, _)
        | Change::AlertAsk(place, _) => {
            let alert = draft.alerts.get_mut(place).ok_or("no such alert")?;
            change_alert(alloc, alert, change)?;
        }
        Change::MemoTest(place, param) => {
            let memo = draft.memos.get_mut(place).ok_or("no such memo")?;
            memo.when = term(nested(alloc, Cond::Disc(param))?);
        }
        Change::NamedTest(place, param) => {
            let named = draft.terms.get_mut(place).ok_or("no such named condition")?;
            named.cond = nested(alloc, Cond::Disc(param))?;
        }
        Change::InputCompare(param) => {
            draft.phase.low = term(nested(alloc, Cond::Cmp(param, Op::Less, 1))?);
        }
        Change::InputAsk(alert) => {
            draft.phase.tp = term(nested(alloc, Cond::Alert(alert))?);
        }
    }
    Ok(())
}

fn told(alloc: Global, draft: &Draft) -> Result<Option<BookFault>, Fail> {
    if draft.alerts.len() > ALERTS || draft.memos.len() > MEMOS || draft.terms.len() > NAMED_TERMS {
        return Err("too many items".into());
    }
    Ok(first_fault(alloc, draft)?)
}

#[test]
fn the_least_fault_is_told(rt: HostRuntime) -> Result<(), Fail> {
    let alloc = rt.alloc();
    let mut draft = faultless(alloc)?;
    assert!(rt; told(alloc, &draft)?.is_none());
    for (one, code, section, item) in CHANGES {
        put_in(alloc, &mut draft, *one)?;
        let fault = BookFault {
            code: *code,
            section: *section,
            item: *item,
        };
        assert_eq!(rt; told(alloc, &draft)?, Some(fault));
    }
    Ok(())
}

// A draft of a phase table alone.
fn phases_alone(alloc: Global, gnd: Cond) -> Draft
    requires { IsSoundTerm 0 0 (tree_of gnd) }
    ensures { IsSound (draft_of result) }
{
    Draft {
        systems: Vec::new(alloc),
        pages: Vec::new(alloc),
        params: Vec::new(alloc),
        terms: Vec::new(alloc),
        phase: PhaseTerms {
            gnd: term(gnd),
            run: term(Cond::Const(false)),
            tp: term(Cond::Const(false)),
            fast: term(Cond::Const(false)),
            high: term(Cond::Const(false)),
            low: term(Cond::Const(false)),
        },
        alerts: Vec::new(alloc),
        memos: Vec::new(alloc),
    }
}

fn refused(sealed: Result<Book, LoadError>) -> Option<BookFault> {
    match sealed {
        Err(LoadError::Fault(fault)) => Some(fault),
        _ => None,
    }
}

#[test]
fn a_draft_is_sealed_or_refused(rt: HostRuntime) -> Result<(), Fail> {
    let alloc = rt.alloc();
    let sealed = seal(alloc, phases_alone(alloc, Cond::Const(true)));
    assert!(rt; sealed.is_ok());
    let sealed = seal(alloc, phases_alone(alloc, Cond::InPhase(PhaseSet::TWO)));
    let fault = BookFault {
        code: 20,
        section: Section::Phase,
        item: 0,
    };
    assert_eq!(rt; refused(sealed), Some(fault));
    Ok(())
}
