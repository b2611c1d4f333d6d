// Texts of conditions and their verdicts, by hand from the grammar.

use arrayvec::ArrayString;
use bitflags::Flags;
use ecam_kinds::{Key, PhaseSet};
use std::alloc::Global;
use std::test::Fail;
use term_text::{Names, TermError, read_term};
use term_tree::{Cond, Op};

// What a text is answered with.
#[derive(Clone, Copy, Debug, PartialEq, Eq)]
pub(crate) enum Told {
    Read,
    Syntax(usize),
    Unknown(usize),
    Number(usize),
    Deep,
    Large,
    Memory,
}

const TEXTS: &[(&str, Told)] = &[
    // words
    ("true", Told::Read),
    (" false ", Told::Read),
    ("g_lo", Told::Read),
    ("zz", Told::Unknown(0)),
    ("hyd", Told::Unknown(0)),
    ("", Told::Syntax(0)),
    ("   ", Told::Syntax(3)),
    ("true false", Told::Syntax(5)),
    ("g_lo any", Told::Syntax(5)),
    ("g_lo pump_off", Told::Syntax(5)),
    ("true(1)", Told::Syntax(4)),
    ("TRUE", Told::Syntax(0)),
    ("G_lo", Told::Syntax(0)),
    ("g_lO", Told::Syntax(0)),
    ("_g", Told::Syntax(0)),
    ("1a", Told::Syntax(0)),
    ("CLR", Told::Syntax(0)),
    ("abcdefghijklmnopqrstuvwx", Told::Read),
    ("abcdefghijklmnopqrstuvwxy", Told::Unknown(0)),
    // comparisons
    ("g_lo < 1", Told::Read),
    ("g_lo <= 1", Told::Read),
    ("g_lo > 1", Told::Read),
    ("g_lo >= 1", Told::Read),
    ("g_lo = 1", Told::Read),
    ("g_lo != 1", Told::Read),
    ("g_lo<-007", Told::Read),
    ("g_lo<-0", Told::Read),
    ("g_lo < ", Told::Syntax(7)),
    ("g_lo < g_lo", Told::Syntax(7)),
    ("g_lo < latch", Told::Syntax(7)),
    ("g_lo < -", Told::Syntax(7)),
    ("g_lo < - 1", Told::Syntax(7)),
    ("g_lo ! 1", Told::Syntax(5)),
    ("g_lo ! = 1", Told::Syntax(5)),
    ("g_lo =< 1", Told::Syntax(6)),
    ("g_lo == 1", Told::Syntax(6)),
    ("g_lo<1<2", Told::Syntax(6)),
    ("1 < g_lo", Told::Syntax(0)),
    ("g_lo<1000000", Told::Read),
    ("g_lo<1000001", Told::Number(5)),
    ("g_lo<-1000000", Told::Read),
    ("g_lo<-1000001", Told::Number(5)),
    ("g_lo<99999999999999999999999", Told::Number(5)),
    ("zz<1000001", Told::Unknown(0)),
    // valid
    ("valid(g_lo)", Told::Read),
    ("valid ( g_lo )", Told::Read),
    ("valid(zz)", Told::Unknown(6)),
    ("valid(hyd)", Told::Unknown(6)),
    ("valid()", Told::Syntax(6)),
    ("valid(true)", Told::Syntax(6)),
    ("valid(valid)", Told::Syntax(6)),
    ("valid(g_lo,g_lo)", Told::Syntax(10)),
    // phase
    ("phase(1)", Told::Read),
    ("phase(10)", Told::Read),
    ("phase(3,1,3)", Told::Read),
    ("phase(0)", Told::Number(6)),
    ("phase(11)", Told::Number(6)),
    ("phase(1,11)", Told::Number(8)),
    ("phase(-1)", Told::Number(6)),
    ("phase()", Told::Syntax(6)),
    ("phase(atleast)", Told::Syntax(6)),
    ("phase(1,)", Told::Syntax(8)),
    ("phase(1 2)", Told::Syntax(8)),
    ("phase", Told::Syntax(5)),
    // alert
    ("alert(hyd)", Told::Read),
    ("alert(g_lo)", Told::Unknown(6)),
    ("alert hyd", Told::Syntax(6)),
    ("alert(7)", Told::Syntax(6)),
    ("alert(alert)", Told::Syntax(6)),
    ("alert(false)", Told::Syntax(6)),
    // press
    ("press(CLR)", Told::Read),
    ("press(ALL)", Told::Read),
    ("press(PG16)", Told::Read),
    ("press(PG17)", Told::Syntax(6)),
    ("press(PG0)", Told::Syntax(6)),
    ("press(PG01)", Told::Syntax(6)),
    ("press(clr)", Told::Syntax(6)),
    ("press(all)", Told::Syntax(6)),
    ("press(press)", Told::Syntax(6)),
    // fwc
    ("fwc(1)", Told::Read),
    ("fwc(02)", Told::Read),
    ("fwc(0)", Told::Number(4)),
    ("fwc(3)", Told::Number(4)),
    ("fwc(-1)", Told::Number(4)),
    ("fwc(g_lo)", Told::Syntax(4)),
    ("fwc(hold)", Told::Syntax(4)),
    ("fwc < 1", Told::Syntax(4)),
    // not, rise
    ("not(g_lo)", Told::Read),
    ("not g_lo", Told::Syntax(4)),
    ("not", Told::Syntax(3)),
    ("not()", Told::Syntax(4)),
    ("not(g_lo,g_lo)", Told::Syntax(8)),
    ("rise(g_lo)", Told::Read),
    ("rise g_lo", Told::Syntax(5)),
    ("rise(g_lo", Told::Syntax(9)),
    ("rise(g_lo))", Told::Syntax(10)),
    // all, any
    ("all(g_lo)", Told::Read),
    ("all(g_lo,conf(not( pump_off ),20))", Told::Read),
    ("all(g_lo", Told::Syntax(8)),
    ("all(zz, g_lo", Told::Syntax(12)),
    ("all()", Told::Syntax(4)),
    ("all(g_lo,)", Told::Syntax(9)),
    ("all", Told::Syntax(3)),
    ("any(g_lo, zz)", Told::Unknown(10)),
    ("any(g_lo pump_off)", Told::Syntax(9)),
    ("all(g_lo<2000000, zz)", Told::Number(9)),
    ("all(zz, g_lo<2000000)", Told::Unknown(4)),
    // atleast
    ("atleast(1,g_lo)", Told::Read),
    ("atleast(002,g_lo,pump_off)", Told::Read),
    ("atleast(0,g_lo)", Told::Number(8)),
    ("atleast(2,g_lo)", Told::Number(8)),
    ("atleast(3,g_lo,zz)", Told::Number(8)),
    ("atleast(1,zz)", Told::Unknown(10)),
    ("atleast(g_lo,1)", Told::Syntax(8)),
    ("atleast(1)", Told::Syntax(9)),
    // conf, hold
    ("conf(g_lo,0)", Told::Read),
    ("conf(g_lo,36000)", Told::Read),
    ("conf(g_lo, 36001)", Told::Number(11)),
    ("conf(g_lo,-0)", Told::Read),
    ("conf(g_lo,-1)", Told::Number(10)),
    ("conf(zz,36001)", Told::Unknown(5)),
    ("conf(g_lo)", Told::Syntax(9)),
    ("conf(10,g_lo)", Told::Syntax(5)),
    ("conf(conf,1)", Told::Syntax(9)),
    ("hold(g_lo,36000)", Told::Read),
    ("hold(g_lo,36001)", Told::Number(10)),
    ("hold(g_lo,1,1)", Told::Syntax(11)),
    // latch
    ("latch(g_lo,pump_off)", Told::Read),
    ("latch(g_lo)", Told::Syntax(10)),
    ("latch(g_lo,g_lo,g_lo)", Told::Syntax(15)),
    // bytes that fit nowhere
    ("-", Told::Syntax(0)),
    ("!", Told::Syntax(0)),
    ("(g_lo)", Told::Syntax(0)),
    (")", Told::Syntax(0)),
    (",", Told::Syntax(0)),
    ("<", Told::Syntax(0)),
    ("g_lo;", Told::Syntax(4)),
    ("g_lo.x", Told::Syntax(4)),
    ("\tg_lo", Told::Syntax(0)),
    ("g_lo\n", Told::Syntax(4)),
    ("g_lo\u{7f}", Told::Syntax(4)),
    ("\u{80}", Told::Syntax(0)),
    ("g_lo\u{e9}", Told::Syntax(4)),
    ("not(\u{7ff})", Told::Syntax(4)),
    ("all(g_lo,\u{ffff})", Told::Syntax(9)),
    ("\u{10ffff}", Told::Syntax(0)),
    ("press(CLR\u{e9})", Told::Syntax(9)),
];

pub(crate) fn name(text: &str) -> Result<ArrayString<24>, Fail> {
    match ArrayString::from(text) {
        Ok(name) => Ok(name),
        Err(_) => Err(Fail::from("no name")),
    }
}

// What a text is answered with, with three parameters and two alerts.
fn answer(alloc: Global, text: &str) -> Result<Result<Cond, TermError>, Fail> {
    if text.len() > 4096 {
        return Err(Fail::from("a long text"));
    }
    let params = [
        name("g_lo")?,
        name("pump_off")?,
        name("abcdefghijklmnopqrstuvwx")?,
    ];
    let alerts = [name("elec")?, name("hyd")?];
    let names = Names {
        params: &params,
        alerts: &alerts,
        terms: &[],
    };
    Ok(read_term(alloc, text, &names))
}

pub(crate) fn told_by(answer: Result<Cond, TermError>) -> Told {
    match answer {
        Ok(_) => Told::Read,
        Err(TermError::Syntax { at }) => Told::Syntax(at),
        Err(TermError::UnknownName { at }) => Told::Unknown(at),
        Err(TermError::Number { at }) => Told::Number(at),
        Err(TermError::TooDeep) => Told::Deep,
        Err(TermError::TooLarge) => Told::Large,
        Err(TermError::Memory) => Told::Memory,
    }
}

fn verdict_on(alloc: Global, text: &str) -> Result<Told, Fail> {
    Ok(told_by(answer(alloc, text)?))
}

fn is_tree(alloc: Global, text: &str, tree: Cond) -> Result<bool, Fail> {
    Ok(match answer(alloc, text)? {
        Ok(cond) => cond == tree,
        Err(_) => false,
    })
}

// A text inside so many `not(..)`.
pub(crate) fn nested(alloc: Global, inner: &str, levels: usize) -> Result<String, Fail> {
    let mut text = String::new(alloc);
    for _ in 0..levels {
        text.push_str("not(")?;
    }
    text.push_str(inner)?;
    for _ in 0..levels {
        text.push_str(")")?;
    }
    Ok(text)
}

// `all(..)` of so many conditions, one or more.
pub(crate) fn many(alloc: Global, count: usize) -> Result<String, Fail> {
    let mut text = String::from_str(alloc, "all(g_lo")?;
    for _ in 1..count {
        text.push_str(",g_lo")?;
    }
    text.push_str(")")?;
    Ok(text)
}

#[test]
fn texts_and_their_verdicts(rt: HostRuntime) -> Result<(), Fail> {
    for (text, expected) in TEXTS {
        assert_eq!(rt; verdict_on(rt.alloc(), text)?, *expected, "{text}");
    }
    Ok(())
}

// Whether a letter behind a name is told as what fits nowhere.
fn fits_nowhere(alloc: Global, code: u32) -> Result<bool, Fail> {
    let mut text = String::from_str(alloc, "g_lo")?;
    match char::from_u32(code) {
        Some(letter) => text.push(letter)?,
        None => return Err(Fail::from("no letter")),
    }
    Ok(verdict_on(alloc, text.as_str())? == Told::Syntax(4))
}

// In these letters stands each byte above 126 that a text may have.
#[test]
fn bytes_above_126_fit_nowhere(rt: HostRuntime) -> Result<(), Fail> {
    let alloc = rt.alloc();
    for code in 0x7f..0x800 {
        assert!(rt; fits_nowhere(alloc, code)?, "{code}");
    }
    let longer = [
        0x800, 0x1000, 0x2000, 0x3000, 0x4000, 0x5000, 0x6000, 0x7000, 0x8000, 0x9000, 0xa000,
        0xb000, 0xc000, 0xd000, 0xe000, 0xf000, 0x10000, 0x40000, 0x80000, 0xc0000, 0x100000,
    ];
    for code in &longer {
        assert!(rt; fits_nowhere(alloc, *code)?, "{code}");
    }
    Ok(())
}

#[test]
fn deep_and_large_conditions(rt: HostRuntime) -> Result<(), Fail> {
    let alloc = rt.alloc();
    let deep = [
        ("g_lo", 15, Told::Read),
        ("g_lo", 16, Told::Deep),
        ("g_lo", 800, Told::Deep),
        ("zz", 16, Told::Unknown(64)),
        ("g_lo<", 16, Told::Syntax(69)),
    ];
    for (inner, levels, expected) in &deep {
        let text = nested(alloc, inner, *levels)?;
        assert_eq!(rt;
            verdict_on(alloc, text.as_str())?,
            *expected,
            "{inner} {levels}"
        );
    }
    let large = [
        (63, 0, Told::Read),
        (64, 0, Told::Large),
        (63, 1, Told::Large),
        (64, 16, Told::Deep),
    ];
    for (count, levels, expected) in &large {
        let list = many(alloc, *count)?;
        let text = nested(alloc, list.as_str(), *levels)?;
        assert_eq!(rt;
            verdict_on(alloc, text.as_str())?,
            *expected,
            "{count} {levels}"
        );
    }
    Ok(())
}

#[test]
fn texts_and_their_trees(rt: HostRuntime) -> Result<(), Fail> {
    let alloc = rt.alloc();
    let phases = PhaseSet::ONE.union(PhaseSet::THREE);
    assert!(rt; is_tree(alloc, "phase(3,1,3)", Cond::InPhase(phases))?);
    assert!(rt; is_tree(alloc, "g_lo<-007", Cond::Cmp(0, Op::Less, -7))?);
    assert!(rt; is_tree(alloc, "pump_off <= 1", Cond::Cmp(1, Op::LessEq, 1))?);
    assert!(rt; is_tree(alloc, "alert(hyd)", Cond::Alert(1))?);
    assert!(rt; is_tree(alloc, "press(PG7)", Cond::Press(Key::Page(7)))?);
    let off = Cond::Not(Box::new(alloc, Cond::Disc(1))?);
    let long_off = Cond::Conf(Box::new(alloc, off)?, 20);
    let both = Cond::All(vec![in alloc; Cond::Disc(0), long_off]?);
    assert!(rt; is_tree(alloc, "all(g_lo,conf(not( pump_off ),20))", both)?);
    let one = Cond::AtLeast(1, vec![in alloc; Cond::Fwc(2), Cond::Valid(0)]?);
    assert!(rt; is_tree(alloc, "atleast(1, fwc(2), valid(g_lo))", one)?);
    Ok(())
}

#[test]
fn the_first_of_two_equal_names_counts(rt: HostRuntime) -> Result<(), Fail> {
    let params = [name("pump_off")?, name("g_lo")?, name("g_lo")?];
    let alerts = [];
    let names = Names {
        params: &params,
        alerts: &alerts,
        terms: &[],
    };
    let tree = match read_term(rt.alloc(), "g_lo", &names) {
        Ok(cond) => cond,
        Err(_) => return Err(Fail::from("no tree")),
    };
    assert!(rt; tree == Cond::Disc(1));
    Ok(())
}
