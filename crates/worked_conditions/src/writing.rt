// Conditions of every form, read and then written.
ghost use Rattle.term_text.specs.Known.{known_names};
ghost use Rattle.term_text.specs.Readable.{TermsCanBeRead};

use arrayvec::ArrayString;
use std::alloc::Global;
use std::test::Fail;
use term_text::{Names, read_term, write_term};

// What is read, and what is then written. The parameters are g_lo, pump_off, alt, g_lo and true, of which the
// last two are never meant; the alerts are hyd_g and g_lo.
const ROWS: &[(&str, &str)] = &[
    ("true", "true"),
    (" false ", "false"),
    ("g_lo", "g_lo"),
    ("  pump_off", "pump_off"),
    ("valid( alt )", "valid(alt)"),
    ("g_lo<-007", "g_lo < -7"),
    ("alt<=-1000000", "alt <= -1000000"),
    ("alt  >01", "alt > 1"),
    ("alt>= 1000000", "alt >= 1000000"),
    ("alt=-0", "alt = 0"),
    ("alt !=000", "alt != 0"),
    ("phase(3,1,3)", "phase(1, 3)"),
    (
        "phase(10,9,8,7,6,5,4,3,2,1)",
        "phase(1, 2, 3, 4, 5, 6, 7, 8, 9, 10)",
    ),
    ("phase(010)", "phase(10)"),
    ("alert(g_lo)", "alert(g_lo)"),
    ("alert(hyd_g)", "alert(hyd_g)"),
    ("press(TOCFG)", "press(TOCFG)"),
    ("press( PG1 )", "press(PG1)"),
    ("press(PG16)", "press(PG16)"),
    ("fwc(02)", "fwc(2)"),
    ("not( not(g_lo))", "not(not(g_lo))"),
    ("rise(press(CLR))", "rise(press(CLR))"),
    ("all(g_lo)", "all(g_lo)"),
    ("any(g_lo,pump_off,true)", "any(g_lo, pump_off, true)"),
    (
        "atleast(02,g_lo,pump_off,alt=5)",
        "atleast(2, g_lo, pump_off, alt = 5)",
    ),
    ("conf(g_lo,-0)", "conf(g_lo, 0)"),
    ("hold(g_lo,0036000)", "hold(g_lo, 36000)"),
    ("latch(g_lo,pump_off)", "latch(g_lo, pump_off)"),
    (
        "all(g_lo,conf(not( pump_off ),20))",
        "all(g_lo, conf(not(pump_off), 20))",
    ),
    (
        "latch(conf(g_lo,2),rise(press(EMER)))",
        "latch(conf(g_lo, 2), rise(press(EMER)))",
    ),
    (
        "any(all(g_lo,pump_off),atleast(1,any(alt<5)))",
        "any(all(g_lo, pump_off), atleast(1, any(alt < 5)))",
    ),
    (
        "not(not(not(not(not(not(not(not(not(not(not(not(not(not(not(g_lo)))))))))))))))",
        "not(not(not(not(not(not(not(not(not(not(not(not(not(not(not(g_lo)))))))))))))))",
    ),
];

fn names_of(alloc: Global, names: &[&str]) -> Result<Vec<ArrayString<24>>, Fail> {
    let mut found = Vec::new(alloc);
    for name in names {
        found.push(ArrayString::from(name).ok().ok_or("a long name")?)?;
    }
    Ok(found)
}

// The condition of a text, written again.
#[tactic(auto, using(term_text::proofs::WritableTrees::can_be_read))]
fn rewritten(alloc: Global, text: &str, names: &Names<'_>) -> Result<String, Fail>
    requires { TermsCanBeRead (known_names names.now) }
{
    if text.len() > 4096 || names.params.len() > 1024 || names.alerts.len() > 1024 {
        return Err("too long".into());
    }
    match read_term(alloc, text, names) {
        Ok(cond) => Ok(write_term(alloc, &cond, names)?),
        Err(_) => Err("refused".into()),
    }
}

#[test]
fn what_is_read_is_written(rt: HostRuntime) -> Result<(), Fail> {
    let alloc = rt.alloc();
    let params = names_of(alloc, &["g_lo", "pump_off", "alt", "g_lo", "true"])?;
    let alerts = names_of(alloc, &["hyd_g", "g_lo"])?;
    let names = Names {
        params: &params,
        alerts: &alerts,
        terms: &[],
    };
    for (text, want) in ROWS {
        assert_eq!(rt; rewritten(alloc, text, &names)?.as_str(), *want, "{text}");
        assert_eq!(rt; rewritten(alloc, want, &names)?.as_str(), *want, "{want}");
    }
    Ok(())
}
