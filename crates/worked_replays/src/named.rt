// Books of version 2, in which a condition has a name.
use crate::checks::checks;
use crate::outside::{does, sound, two_files};
use replay_core::Status;
use std::test::Fail;

// The advisory by a condition that waits for two moments and has a name.
pub(crate) const NAMED: &str = "version = 2\nsystems = [\"HYD\"]\n\
[[param]]\nname = \"g_lo\"\nkind = \"disc\"\nstale = 600\nsource = [{ bus = 0, label = \"270\", bit = 11 }]\n\
[[term]]\nname = \"low\"\nwhen = \"conf(g_lo, 2)\"\n\
[[alert]]\nname = \"g_rsvr\"\ntitle = \"HYD G RSVR LO LVL\"\nsystem = \"HYD\"\nlevel = 1\nwhen = \"low\"\n";

// What stands in the place of what, and what is told of it.
const FAULTS: &[(&str, &str, &str)] = &[
    ("conf(g_lo, 2)", "low", "book: F17 term 1\n"),
    ("\"low\"", "\"g_lo\"", "book: F11 term 1\n"),
    ("version = 2", "version = 1", "book: F04 top 0\n"),
    ("version = 2", "version = 3", "book: F03 top 0\n"),
    ("conf(g_lo, 2)", "g_lo < 2", "book: F22 term 1\n"),
];

#[test]
fn a_condition_has_a_name(rt: HostRuntime) -> Result<(), Fail> {
    let alloc = rt.alloc();
    let slots = "OK alerts 1 params 1 memos 0 pages 0 slots 1\n";
    checks(&rt, alloc, NAMED.as_bytes(), (Status::Done, slots, ""))?;
    let files = two_files(alloc, NAMED, "W 0 0000041d\nT\nT\nT\nE\n")?;
    let shown = "@2\nL1 A HYD G RSVR LO LVL\nEND 3\n";
    does(
        &rt,
        alloc,
        " replay book record",
        files,
        sound(),
        (Status::Done, shown, ""),
    )?;
    for (old, new, line) in FAULTS {
        let book = NAMED.replace(alloc, *old, new)?;
        checks(&rt, alloc, book.as_bytes(), (Status::BookRefused, "", line))?;
    }
    Ok(())
}
