// Each fault of a book, at an item that isn't the first, and which of two faults is told.
use crate::checks::checks;
use replay_core::Status;
use std::alloc::Global;
use std::process::Abort;
use std::test::Fail;

// A book without a fault: two parameters, and one item in each other section.
const SOUND: &str = "version = 1\nsystems = [\"HYD\"]\n\
[[page]]\nname = \"hyd\"\ntitle = \"HYD\"\nrow = [{ text = \"GREEN\", show = \"g_press\", unit = \"PSI\" }]\n\
[[param]]\nname = \"g_lo\"\nkind = \"disc\"\nstale = 600\nsource = [{ bus = 0, label = \"270\", bit = 11 }]\n\
[[param]]\nname = \"g_press\"\nkind = \"bnr\"\nstale = 10\nsource = [{ bus = 1, label = \"300\", low = 17, range = 4096 }]\n\
[[alert]]\nname = \"g_rsvr\"\ntitle = \"HYD G RSVR LO LVL\"\nsystem = \"HYD\"\nlevel = 2\npage = \"hyd\"\nwhen = \"g_lo\"\n\
[[memo]]\nname = \"pump\"\ntext = \"HYD PUMP\"\nzone = \"left\"\nwhen = \"g_press < 1450\"\n";

// What stands behind it, and what is told of both.
const FAULTS: &[(&str, &str)] = &[
    (
        "[[memo]]\nname = \"two\"\ntext = \"TWO\"\nzone = \"left\"\nwhen = \"g_lo\"\ncolor = \"G\"\n",
        "book: F04 memo 2\n",
    ),
    (
        "[[memo]]\nname = \"two\"\ntext = \"TWO\"\nwhen = \"g_lo\"\n",
        "book: F05 memo 2\n",
    ),
    (
        "[[memo]]\nname = \"two\"\ntext = \"TWO\"\nzone = 5\nwhen = \"g_lo\"\n",
        "book: F06 memo 2\n",
    ),
    (
        "[[memo]]\nname = \"Two\"\ntext = \"TWO\"\nzone = \"left\"\nwhen = \"g_lo\"\n",
        "book: F07 memo 2\n",
    ),
    (
        "[[memo]]\nname = \"two\"\ntext = \"TWO \"\nzone = \"left\"\nwhen = \"g_lo\"\n",
        "book: F08 memo 2\n",
    ),
    (
        "[[param]]\nname = \"two\"\nkind = \"bcd\"\nstale = 601\nsource = [{ bus = 0, label = \"270\" }]\n",
        "book: F09 param 3\n",
    ),
    (
        "[[param]]\nname = \"two\"\nkind = \"bcd\"\nstale = 600\nsource = []\n",
        "book: F10 param 3\n",
    ),
    (
        "[[memo]]\nname = \"two\"\ntext = \"TWO\"\nzone = \"left\"\nwhen = \"g_lo\"\n[[memo]]\nname = \"two\"\ntext = \"THREE\"\nzone = \"left\"\nwhen = \"g_lo\"\n",
        "book: F11 memo 2\n",
    ),
    (
        "[[memo]]\nname = \"two\"\ntext = \"TWO\"\nzone = \"RIGHT\"\nwhen = \"g_lo\"\n",
        "book: F12 memo 2\n",
    ),
    (
        "[[param]]\nname = \"two\"\nkind = \"bcd\"\nstale = 600\nsource = [{ bus = 0, label = \"289\" }]\n",
        "book: F13 param 3\n",
    ),
    (
        "[[alert]]\nname = \"two\"\ntitle = \"TWO\"\nsystem = \"HYD\"\nlevel = 1\nwhen = \"g_lo\"\npage = \"HYD\"\n",
        "book: F14 alert 2\n",
    ),
    (
        "[[alert]]\nname = \"two\"\ntitle = \"TWO\"\nsystem = \"hyd\"\nlevel = 1\nwhen = \"g_lo\"\n",
        "book: F15 alert 2\n",
    ),
    (
        "[[memo]]\nname = \"two\"\ntext = \"TWO\"\nzone = \"left\"\nwhen = \"not g_lo\"\n",
        "book: F16 memo 2\n",
    ),
    (
        "[[memo]]\nname = \"two\"\ntext = \"TWO\"\nzone = \"left\"\nwhen = \"alert(g_lo)\"\n",
        "book: F17 memo 2\n",
    ),
    (
        "[[memo]]\nname = \"two\"\ntext = \"TWO\"\nzone = \"left\"\nwhen = \"not(not(not(not(not(not(not(not(not(not(not(not(not(not(not(not(g_lo))))))))))))))))\"\n",
        "book: F18 memo 2\n",
    ),
    (
        "[[memo]]\nname = \"two\"\ntext = \"TWO\"\nzone = \"left\"\nwhen = \"hold(g_lo, 36001)\"\n",
        "book: F19 memo 2\n",
    ),
    (
        "[phase]\nfast = \"any(g_lo, phase(4))\"\n",
        "book: F20 phase 0\n",
    ),
    (
        "[[alert]]\nname = \"two\"\ntitle = \"TWO\"\nsystem = \"HYD\"\nlevel = 1\nwhen = \"alert(two)\"\n",
        "book: F21 alert 2\n",
    ),
    (
        "[[memo]]\nname = \"two\"\ntext = \"TWO\"\nzone = \"left\"\nwhen = \"g_lo = 1\"\n",
        "book: F22 memo 2\n",
    ),
    (
        "[[alert]]\nname = \"two\"\ntitle = \"TWO\"\nsystem = \"HYD\"\nlevel = 1\nwhen = \"g_lo\"\nsound = \"sc\"\n",
        "book: F23 alert 2\n",
    ),
    (
        "[[alert]]\nname = \"two\"\ntitle = \"TWO\"\nsystem = \"HYD\"\nlevel = 1\nwhen = \"g_lo\"\nsecondary = [\"three\"]\n",
        "book: F24 alert 2\n",
    ),
    (
        "[[alert]]\nname = \"two\"\ntitle = \"TWO\"\nsystem = \"HYD\"\nlevel = 1\nwhen = \"g_lo\"\nsecondary = [\"g_rsvr\"]\n",
        "book: F25 alert 2\n",
    ),
    (
        "[[alert]]\nname = \"two\"\ntitle = \"TWO\"\nsystem = \"HYD\"\nlevel = 1\nwhen = \"g_lo\"\ninhibit = [1, 2, 3, 4, 5, 6, 7, 8, 9, 10]\n",
        "book: F26 alert 2\n",
    ),
];

// Two faults each, of which the one with the lesser code is told, else the one in the first section, else the one of
// the lesser item.
const PAIRS: &[(&str, &str)] = &[
    (
        "[[param]]\nname = \"two\"\nkind = \"bcd\"\nstale = 601\nsource = [{ bus = 0, label = \"270\" }]\n[[memo]]\nname = \"two\"\ntext = \"TWO \"\nzone = \"left\"\nwhen = \"g_lo\"\n",
        "book: F08 memo 2\n",
    ),
    (
        "[phase]\nfast = \"phase(4)\"\n[[memo]]\nname = \"two\"\ntext = \"TWO\"\nzone = \"left\"\nwhen = \"fwc(3)\"\n",
        "book: F19 memo 2\n",
    ),
    (
        "[[alert]]\nname = \"two\"\ntitle = \"TWO\"\nsystem = \"HYD\"\nlevel = 1\nwhen = \"g_lo\"\nsecondary = [\"g_rsvr\"]\n[[alert]]\nname = \"three\"\ntitle = \"THREE\"\nsystem = \"HYD\"\nlevel = 1\nwhen = \"g_lo\"\nsecondary = [\"four\"]\n",
        "book: F24 alert 3\n",
    ),
    (
        "[[alert]]\nname = \"two\"\ntitle = \"TWO\"\nsystem = \"HYD\"\nlevel = 1\nwhen = \"g_press\"\nsecondary = [\"g_rsvr\"]\n",
        "book: F22 alert 2\n",
    ),
    (
        "[[memo]]\nname = \"two\"\ntext = \"TWO \"\nzone = \"left\"\nwhen = \"g_lo\"\n[[page]]\nname = \"two\"\ntitle = \"TWO \"\n",
        "book: F08 page 2\n",
    ),
    (
        "[[memo]]\nname = \"two\"\ntext = \"TWO\"\nzone = \"left\"\nwhen = \"g_press\"\n[[alert]]\nname = \"two\"\ntitle = \"TWO\"\nsystem = \"HYD\"\nlevel = 1\nwhen = \"g_press\"\n",
        "book: F22 alert 2\n",
    ),
    (
        "[[memo]]\nname = \"two\"\ntext = \"TWO\"\nzone = \"left\"\nwhen = \"fwc(3)\"\n[[memo]]\nname = \"three\"\ntext = \"THREE\"\nzone = \"left\"\nwhen = \"fwc(0)\"\n",
        "book: F19 memo 2\n",
    ),
    (
        "[[alert]]\nname = \"two\"\ntitle = \"TWO\"\nsystem = \"HYD\"\nlevel = 3\nwhen = \"g_lo\"\nsound = \"sc\"\n[[alert]]\nname = \"three\"\ntitle = \"THREE\"\nsystem = \"HYD\"\nlevel = 3\nwhen = \"g_lo\"\nsound = \"none\"\n",
        "book: F23 alert 2\n",
    ),
];

fn tells(rt: &impl Abort, alloc: Global, rows: &[(&str, &str)]) -> Result<(), Fail> {
    for (tail, line) in rows {
        let book = format!(in alloc; "{SOUND}{tail}")?;
        checks(rt, alloc, book.as_bytes(), (Status::BookRefused, "", line))?;
    }
    Ok(())
}

#[test]
fn each_fault_of_a_book(rt: HostRuntime) -> Result<(), Fail> {
    let alloc = rt.alloc();
    let line = "OK alerts 1 params 2 memos 1 pages 1 slots 0\n";
    checks(&rt, alloc, SOUND.as_bytes(), (Status::Done, line, ""))?;
    tells(&rt, alloc, FAULTS)?;
    tells(&rt, alloc, PAIRS)
}
