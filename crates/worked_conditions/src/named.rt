// Texts that name other conditions: what each is read as, spelled without these names, or what it is refused for.
use crate::reading::{Told, many, name, nested, told_by};
use std::alloc::Global;
use std::test::Fail;
use term_text::{Names, TermError, read_term, write_term};
use term_tree::{Cond, NamedTerm};

// The conditions that have a name, beside two whose texts are long: `deep`, with a depth of 15, and `large`, with 63
// nodes. A parameter hides the first, and the second hides the last.
const TERMS: &[(&str, &str)] = &[
    ("g_lo", "true"),
    ("low", "conf(g_lo, 2)"),
    ("off", "pump_off"),
    ("hyd", "alert(hyd)"),
    ("abcdefghijklmnopqrstuvwx", "fwc(1)"),
    ("low", "false"),
];

// What a text is read as.
const READ: &[(&str, &str)] = &[
    ("g_lo", "g_lo"),
    ("low", "conf(g_lo, 2)"),
    (" low ", "conf(g_lo, 2)"),
    ("off", "pump_off"),
    ("hyd", "alert(hyd)"),
    ("alert(low)", "alert(low)"),
    ("abcdefghijklmnopqrstuvwx", "fwc(1)"),
    ("not(low)", "not(conf(g_lo, 2))"),
    (
        "any(off, low, off)",
        "any(pump_off, conf(g_lo, 2), pump_off)",
    ),
    (
        "atleast(2, low, g_lo < 3, hyd)",
        "atleast(2, conf(g_lo, 2), g_lo < 3, alert(hyd))",
    ),
    (
        "latch(low, rise(off))",
        "latch(conf(g_lo, 2), rise(pump_off))",
    ),
    ("conf(hold(low, 1), 3)", "conf(hold(conf(g_lo, 2), 1), 3)"),
];

// What a text is answered with.
const TOLD: &[(&str, Told)] = &[
    ("lower", Told::Unknown(0)),
    ("abcdefghijklmnopqrstuvwxy", Told::Unknown(0)),
    ("valid(low)", Told::Unknown(6)),
    ("valid(off)", Told::Unknown(6)),
    ("low < 3", Told::Unknown(0)),
    ("off = 1", Told::Unknown(0)),
    ("off < 1000001", Told::Unknown(0)),
    ("alert(off)", Told::Unknown(6)),
    ("all(low, zz)", Told::Unknown(9)),
    ("all(conf(low, 36001), zz)", Told::Number(14)),
    ("atleast(2, low)", Told::Number(8)),
    ("low low", Told::Syntax(4)),
    ("low(2)", Told::Syntax(3)),
    // limits, after the tree was put in the name's place
    ("deep", Told::Read),
    ("not(deep)", Told::Read),
    ("not(not(deep))", Told::Deep),
    ("large", Told::Read),
    ("not(large)", Told::Read),
    ("not(not(large))", Told::Large),
    ("all(low, large)", Told::Large),
    ("not(not(all(large, deep)))", Told::Deep),
    ("not(not(deep", Told::Syntax(12)),
    ("all(large, large, zz)", Told::Unknown(18)),
];

// What a text is answered with, by two parameters, two alerts and these conditions.
fn answer(alloc: Global, text: &str, terms: &[NamedTerm]) -> Result<Result<Cond, TermError>, Fail> {
    if text.len() > 4096 {
        return Err(Fail::from("a long text"));
    }
    let params = [name("g_lo")?, name("pump_off")?];
    let alerts = [name("hyd")?, name("low")?];
    let names = Names {
        params: &params,
        alerts: &alerts,
        terms,
    };
    Ok(read_term(alloc, text, &names))
}

fn tree(alloc: Global, text: &str, terms: &[NamedTerm]) -> Result<Cond, Fail> {
    match answer(alloc, text, terms)? {
        Ok(cond) => Ok(cond),
        Err(_) => Err(Fail::from("no tree")),
    }
}

// A condition with its name.
fn named(alloc: Global, title: &str, text: &str) -> Result<NamedTerm, Fail> {
    Ok(NamedTerm {
        name: name(title)?,
        cond: tree(alloc, text, &[])?,
    })
}

fn known(alloc: Global) -> Result<Vec<NamedTerm>, Fail> {
    let mut terms = Vec::new(alloc);
    for (title, text) in TERMS {
        terms.push(named(alloc, title, text)?)?;
    }
    let deep = nested(alloc, "g_lo", 14)?;
    terms.push(named(alloc, "deep", deep.as_str())?)?;
    let large = many(alloc, 62)?;
    terms.push(named(alloc, "large", large.as_str())?)?;
    Ok(terms)
}

// What is written of a text that names one condition.
#[tactic(auto, using(term_text::proofs::WritableTrees::can_be_read, term_text::proofs::WritableTrees::one_can_be_read))]
fn written(alloc: Global, text: &str, title: &str, when: &str) -> Result<String, Fail> {
    if text.len() > 4096 || when.len() > 4096 {
        return Err(Fail::from("a long text"));
    }
    let params = [name("g_lo")?, name("pump_off")?];
    let plain = Names {
        params: &params,
        alerts: &[],
        terms: &[],
    };
    let Ok(cond) = read_term(alloc, when, &plain) else {
        return Err(Fail::from("no tree"));
    };
    let terms = [NamedTerm {
        name: name(title)?,
        cond,
    }];
    let names = Names {
        params: &params,
        alerts: &[],
        terms: &terms,
    };
    match read_term(alloc, text, &names) {
        Ok(cond) => Ok(write_term(alloc, &cond, &names)?),
        Err(_) => Err(Fail::from("no tree")),
    }
}

#[test]
fn named_conditions_are_written_whole(rt: HostRuntime) -> Result<(), Fail> {
    let text = written(rt.alloc(), "all(low,not(low))", "low", "conf( g_lo,2)")?;
    assert_eq!(rt; text.as_str(), "all(conf(g_lo, 2), not(conf(g_lo, 2)))");
    Ok(())
}

#[test]
fn named_conditions_stand_in_texts(rt: HostRuntime) -> Result<(), Fail> {
    let alloc = rt.alloc();
    let terms = known(alloc)?;
    for (text, spelled) in READ {
        let expected = tree(alloc, spelled, &[])?;
        assert!(rt; tree(alloc, text, &terms)? == expected, "{text}");
    }
    for (text, expected) in TOLD {
        assert_eq!(rt; told_by(answer(alloc, text, &terms)?), *expected, "{text}");
    }
    Ok(())
}

// Each names the one before twice, so that the trees have 1, 3, 7, 15, 31 and 63 nodes.
#[test]
fn named_conditions_name_others(rt: HostRuntime) -> Result<(), Fail> {
    let alloc = rt.alloc();
    let mut terms = Vec::new(alloc);
    terms.push(named(alloc, "c0", "g_lo")?)?;
    for (title, text) in [
        ("c1", "all(c0, c0)"),
        ("c2", "all(c1, c1)"),
        ("c3", "any(c2, c2)"),
        ("c4", "all(c3, c3)"),
        ("c5", "any(c4, c4)"),
    ] {
        let cond = tree(alloc, text, &terms)?;
        terms.push(NamedTerm {
            name: name(title)?,
            cond,
        })?;
    }
    assert_eq!(rt; told_by(answer(alloc, "not(c5)", &terms)?), Told::Read);
    assert_eq!(rt; told_by(answer(alloc, "all(c5, c0)", &terms)?), Told::Large);
    assert_eq!(rt; told_by(answer(alloc, "all(c5, c5)", &terms)?), Told::Large);
    Ok(())
}
