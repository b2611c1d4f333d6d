// The books of the tests.

// The book of a name in a table of worked records.
pub(crate) fn book_named(name: &str) -> Option<&'static str> {
    match name {
        "ADVISORY" => Some(ADVISORY),
        "CAUTION" => Some(CAUTION),
        "CONFIRMED" => Some(CONFIRMED),
        "SHORT_LIVED" => Some(SHORT_LIVED),
        "INHIBITED" => Some(INHIBITED),
        "TWO" => Some(TWO),
        "NINE" => Some(NINE),
        "CONFIRMED_ONCE" => Some(CONFIRMED_ONCE),
        "PROCEDURE" => Some(PROCEDURE),
        "HYDRAULICS" => Some(HYDRAULICS),
        "WARNING" => Some(WARNING),
        "PAGES" => Some(PAGES),
        "HEALTH" => Some(HEALTH),
        "CONFIRMED_ADVISORY" => Some(CONFIRMED_ADVISORY),
        "HELD_ON" => Some(HELD_ON),
        "ON_A_PRESS" => Some(ON_A_PRESS),
        "INHIBITED_ADVISORY" => Some(INHIBITED_ADVISORY),
        _ => None,
    }
}

// One alert of level 1, which is one discrete.
pub(crate) const ADVISORY: &str = "version = 1\nsystems = [\"HYD\"]\n\
[[param]]\nname = \"g_lo\"\nkind = \"disc\"\nstale = 600\nsource = [{ bus = 0, label = \"270\", bit = 11 }]\n\
[[alert]]\nname = \"g_rsvr\"\ntitle = \"HYD G RSVR LO LVL\"\nsystem = \"HYD\"\nlevel = 1\nwhen = \"g_lo\"\n";

// The same of level 2.
pub(crate) const CAUTION: &str = "version = 1\nsystems = [\"HYD\"]\n\
[[param]]\nname = \"g_lo\"\nkind = \"disc\"\nstale = 600\nsource = [{ bus = 0, label = \"270\", bit = 11 }]\n\
[[alert]]\nname = \"g_rsvr\"\ntitle = \"HYD G RSVR LO LVL\"\nsystem = \"HYD\"\nlevel = 2\nwhen = \"g_lo\"\n";

// The same once its discrete has been one for four moments.
pub(crate) const CONFIRMED: &str = "version = 1\nsystems = [\"HYD\"]\n\
[[param]]\nname = \"g_lo\"\nkind = \"disc\"\nstale = 600\nsource = [{ bus = 0, label = \"270\", bit = 11 }]\n\
[[alert]]\nname = \"g_rsvr\"\ntitle = \"HYD G RSVR LO LVL\"\nsystem = \"HYD\"\nlevel = 2\nwhen = \"g_lo\"\nconfirm = 3\n";

// The caution, whose words count for three moments.
pub(crate) const SHORT_LIVED: &str = "version = 1\nsystems = [\"HYD\"]\n\
[[param]]\nname = \"g_lo\"\nkind = \"disc\"\nstale = 2\nsource = [{ bus = 0, label = \"270\", bit = 11 }]\n\
[[alert]]\nname = \"g_rsvr\"\ntitle = \"HYD G RSVR LO LVL\"\nsystem = \"HYD\"\nlevel = 2\nwhen = \"g_lo\"\n";

// The caution, inhibited in phases 3 to 5. Each input of the phase is a discrete.
pub(crate) const INHIBITED: &str = "version = 1\nsystems = [\"HYD\"]\n\
[[param]]\nname = \"g_lo\"\nkind = \"disc\"\nstale = 600\nsource = [{ bus = 0, label = \"270\", bit = 11 }]\n\
[[param]]\nname = \"gnd\"\nkind = \"disc\"\nstale = 600\nsource = [{ bus = 0, label = \"350\", bit = 11 }]\n\
[[param]]\nname = \"run\"\nkind = \"disc\"\nstale = 600\nsource = [{ bus = 0, label = \"350\", bit = 12 }]\n\
[[param]]\nname = \"tp\"\nkind = \"disc\"\nstale = 600\nsource = [{ bus = 0, label = \"350\", bit = 13 }]\n\
[[param]]\nname = \"fast\"\nkind = \"disc\"\nstale = 600\nsource = [{ bus = 0, label = \"350\", bit = 14 }]\n\
[[param]]\nname = \"low\"\nkind = \"disc\"\nstale = 600\nsource = [{ bus = 0, label = \"350\", bit = 15 }]\n\
[[param]]\nname = \"high\"\nkind = \"disc\"\nstale = 600\nsource = [{ bus = 0, label = \"350\", bit = 16 }]\n[phase]\ngnd = \"gnd\"\nrun = \"run\"\ntp = \"tp\"\nfast = \"fast\"\nlow = \"low\"\nhigh = \"high\"\n\
[[alert]]\nname = \"g_rsvr\"\ntitle = \"HYD G RSVR LO LVL\"\nsystem = \"HYD\"\nlevel = 2\nwhen = \"g_lo\"\ninhibit = [3, 4, 5]\n";

// Two alerts of level 1.
pub(crate) const TWO: &str = "version = 1\nsystems = [\"HYD\"]\n\
[[param]]\nname = \"x\"\nkind = \"disc\"\nstale = 600\nsource = [{ bus = 0, label = \"270\", bit = 11 }]\n\
[[param]]\nname = \"y\"\nkind = \"disc\"\nstale = 600\nsource = [{ bus = 0, label = \"270\", bit = 12 }]\n\
[[alert]]\nname = \"ax\"\ntitle = \"ALERT X\"\nsystem = \"HYD\"\nlevel = 1\nwhen = \"x\"\n\
[[alert]]\nname = \"ay\"\ntitle = \"ALERT Y\"\nsystem = \"HYD\"\nlevel = 1\nwhen = \"y\"\n";

// Nine alerts at once.
pub(crate) const NINE: &str = "version = 1\nsystems = [\"HYD\"]\n\
[[param]]\nname = \"g_lo\"\nkind = \"disc\"\nstale = 600\nsource = [{ bus = 0, label = \"270\", bit = 11 }]\n\
[[alert]]\nname = \"n1\"\ntitle = \"ALERT 1\"\nsystem = \"HYD\"\nlevel = 1\nwhen = \"g_lo\"\n\
[[alert]]\nname = \"n2\"\ntitle = \"ALERT 2\"\nsystem = \"HYD\"\nlevel = 1\nwhen = \"g_lo\"\n\
[[alert]]\nname = \"n3\"\ntitle = \"ALERT 3\"\nsystem = \"HYD\"\nlevel = 1\nwhen = \"g_lo\"\n\
[[alert]]\nname = \"n4\"\ntitle = \"ALERT 4\"\nsystem = \"HYD\"\nlevel = 1\nwhen = \"g_lo\"\n\
[[alert]]\nname = \"n5\"\ntitle = \"ALERT 5\"\nsystem = \"HYD\"\nlevel = 1\nwhen = \"g_lo\"\n\
[[alert]]\nname = \"n6\"\ntitle = \"ALERT 6\"\nsystem = \"HYD\"\nlevel = 1\nwhen = \"g_lo\"\n\
[[alert]]\nname = \"n7\"\ntitle = \"ALERT 7\"\nsystem = \"HYD\"\nlevel = 1\nwhen = \"g_lo\"\n\
[[alert]]\nname = \"n8\"\ntitle = \"ALERT 8\"\nsystem = \"HYD\"\nlevel = 1\nwhen = \"g_lo\"\n\
[[alert]]\nname = \"n9\"\ntitle = \"ALERT 9\"\nsystem = \"HYD\"\nlevel = 1\nwhen = \"g_lo\"\n";

// An alert of level 1 once its discrete has been one for two moments.
pub(crate) const CONFIRMED_ONCE: &str = "version = 1\nsystems = [\"HYD\"]\n\
[[param]]\nname = \"g_lo\"\nkind = \"disc\"\nstale = 600\nsource = [{ bus = 0, label = \"270\", bit = 11 }]\n\
[[alert]]\nname = \"g_rsvr\"\ntitle = \"HYD G RSVR LO LVL\"\nsystem = \"HYD\"\nlevel = 1\nwhen = \"g_lo\"\nconfirm = 1\n";

// An alert with a procedure of seven lines, of which the first can be done.
pub(crate) const PROCEDURE: &str = "version = 1\nsystems = [\"HYD\"]\n\
[[param]]\nname = \"g_lo\"\nkind = \"disc\"\nstale = 600\nsource = [{ bus = 0, label = \"270\", bit = 11 }]\n\
[[param]]\nname = \"pump_off\"\nkind = \"disc\"\nstale = 600\nsource = [{ bus = 0, label = \"270\", bit = 12 }]\n\
[[alert]]\nname = \"g_rsvr\"\ntitle = \"HYD G RSVR LO LVL\"\nsystem = \"HYD\"\nlevel = 1\nwhen = \"g_lo\"\nline = [{ text = \"LINE 1\", done = \"pump_off\" }, { text = \"LINE 2\" }, { text = \"LINE 3\" }, { text = \"LINE 4\" }, { text = \"LINE 5\" }, { text = \"LINE 6\" }, { text = \"LINE 7\" }]\n";

// An alert of level 3.
pub(crate) const WARNING: &str = "version = 1\nsystems = [\"HYD\"]\n\
[[param]]\nname = \"g_lo\"\nkind = \"disc\"\nstale = 600\nsource = [{ bus = 0, label = \"270\", bit = 11 }]\n\
[[alert]]\nname = \"g_rsvr\"\ntitle = \"ENG 1 FIRE\"\nsystem = \"HYD\"\nlevel = 3\nwhen = \"g_lo\"\n";

// A primary failure and its secondary, with a page of its system.
pub(crate) const HYDRAULICS: &str = "version = 1\nsystems = [\"HYD\"]\n\
[[page]]\nname = \"hyd\"\ntitle = \"HYD\"\nrow = [{ text = \"GREEN PRESS\", show = \"g_press\", unit = \"PSI\" }]\n\
[[param]]\nname = \"g_lo\"\nkind = \"disc\"\nstale = 600\nsource = [{ bus = 0, label = \"270\", bit = 11 }]\n\
[[param]]\nname = \"pump_off\"\nkind = \"disc\"\nstale = 600\nsource = [{ bus = 0, label = \"270\", bit = 12 }]\n\
[[param]]\nname = \"g_press\"\nkind = \"bnr\"\nstale = 10\nsource = [{ bus = 1, label = \"300\", low = 17, range = 4096 }]\n\
[[alert]]\nname = \"g_rsvr\"\ntitle = \"HYD G RSVR LO LVL\"\nsystem = \"HYD\"\nlevel = 2\nwhen = \"g_lo\"\npage = \"hyd\"\nsecondary = [\"g_press_lo\"]\nline = [{ text = \"-G ENG 1 PUMP.....OFF\", done = \"pump_off\" }]\nstatus = [{ section = \"inop\", text = \"GREEN HYD\" }]\n\
[[alert]]\nname = \"g_press_lo\"\ntitle = \"HYD G SYS LO PR\"\nsystem = \"HYD\"\nlevel = 2\nwhen = \"g_press < 1450\"\n";

// Three pages and nothing else.
pub(crate) const PAGES: &str = "version = 1\n\
[[page]]\nname = \"p1\"\ntitle = \"P1\"\n\
[[page]]\nname = \"p2\"\ntitle = \"P2\"\n\
[[page]]\nname = \"p3\"\ntitle = \"P3\"\n";

// An alert that asks for computer 1.
pub(crate) const HEALTH: &str = "version = 1\nsystems = [\"HYD\"]\n\
[[param]]\nname = \"g_lo\"\nkind = \"disc\"\nstale = 600\nsource = [{ bus = 0, label = \"270\", bit = 11 }]\n\
[[alert]]\nname = \"g_rsvr\"\ntitle = \"FWS FWC 1 FAULT\"\nsystem = \"HYD\"\nlevel = 1\nwhen = \"not(fwc(1))\"\n";

// An alert that asks for a later one.
pub(crate) const LATER_ALERT: &str = "version = 1\nsystems = [\"HYD\"]\n\
[[page]]\nname = \"hyd\"\ntitle = \"HYD\"\nrow = [{ text = \"GREEN PRESS\", show = \"g_press\", unit = \"PSI\" }]\n\
[[param]]\nname = \"g_lo\"\nkind = \"disc\"\nstale = 600\nsource = [{ bus = 0, label = \"270\", bit = 11 }]\n\
[[param]]\nname = \"pump_off\"\nkind = \"disc\"\nstale = 600\nsource = [{ bus = 0, label = \"270\", bit = 12 }]\n\
[[param]]\nname = \"g_press\"\nkind = \"bnr\"\nstale = 10\nsource = [{ bus = 1, label = \"300\", low = 17, range = 4096 }]\n\
[[alert]]\nname = \"g_rsvr\"\ntitle = \"HYD G RSVR LO LVL\"\nsystem = \"HYD\"\nlevel = 2\npage = \"hyd\"\nwhen = \"alert(g_press_lo)\"\nsecondary = [\"g_press_lo\"]\nline = [{ text = \"-G ENG 1 PUMP.....OFF\", done = \"pump_off\" }]\nstatus = [{ section = \"inop\", text = \"GREEN HYD\" }]\n\
[[alert]]\nname = \"g_press_lo\"\ntitle = \"HYD G SYS LO PR\"\nsystem = \"HYD\"\nlevel = 2\nwhen = \"g_press < 1450\"\n";

// A secondary before its primary.
pub(crate) const EXCHANGED: &str = "version = 1\nsystems = [\"HYD\"]\n\
[[page]]\nname = \"hyd\"\ntitle = \"HYD\"\nrow = [{ text = \"GREEN PRESS\", show = \"g_press\", unit = \"PSI\" }]\n\
[[param]]\nname = \"g_lo\"\nkind = \"disc\"\nstale = 600\nsource = [{ bus = 0, label = \"270\", bit = 11 }]\n\
[[param]]\nname = \"pump_off\"\nkind = \"disc\"\nstale = 600\nsource = [{ bus = 0, label = \"270\", bit = 12 }]\n\
[[param]]\nname = \"g_press\"\nkind = \"bnr\"\nstale = 10\nsource = [{ bus = 1, label = \"300\", low = 17, range = 4096 }]\n\
[[alert]]\nname = \"g_press_lo\"\ntitle = \"HYD G SYS LO PR\"\nsystem = \"HYD\"\nlevel = 2\nwhen = \"g_press < 1450\"\n\
[[alert]]\nname = \"g_rsvr\"\ntitle = \"HYD G RSVR LO LVL\"\nsystem = \"HYD\"\nlevel = 2\npage = \"hyd\"\nwhen = \"g_lo\"\nsecondary = [\"g_press_lo\"]\nline = [{ text = \"-G ENG 1 PUMP.....OFF\", done = \"pump_off\" }]\nstatus = [{ section = \"inop\", text = \"GREEN HYD\" }]\n";

// Three slots, and a confirmation, which needs none.
pub(crate) const SLOTS: &str = "version = 1\nsystems = [\"HYD\"]\n\
[[param]]\nname = \"g_lo\"\nkind = \"disc\"\nstale = 600\nsource = [{ bus = 0, label = \"270\", bit = 11 }]\n\
[[alert]]\nname = \"g_rsvr\"\ntitle = \"HYD G RSVR LO LVL\"\nsystem = \"HYD\"\nlevel = 1\nconfirm = 3\nwhen = \"conf(latch(g_lo, rise(valid(g_lo))), 2)\"\n";

// An alert of a level that there isn't.
pub(crate) const LEVEL_FOUR: &str = "version = 1\nsystems = [\"HYD\"]\n\
[[param]]\nname = \"g_lo\"\nkind = \"disc\"\nstale = 600\nsource = [{ bus = 0, label = \"270\", bit = 11 }]\n\
[[alert]]\nname = \"g_rsvr\"\ntitle = \"HYD G RSVR LO LVL\"\nsystem = \"HYD\"\nlevel = 4\nwhen = \"g_lo\"\n";

// An alert that each phase inhibits.
pub(crate) const NEVER_SHOWN: &str = "version = 1\nsystems = [\"HYD\"]\n\
[[param]]\nname = \"g_lo\"\nkind = \"disc\"\nstale = 600\nsource = [{ bus = 0, label = \"270\", bit = 11 }]\n\
[[alert]]\nname = \"g_rsvr\"\ntitle = \"HYD G RSVR LO LVL\"\nsystem = \"HYD\"\nlevel = 1\ninhibit = [1, 2, 3, 4, 5, 6, 7, 8, 9, 10]\nwhen = \"g_lo\"\n";

// A title with a letter that isn't ASCII.
pub(crate) const OTHER_LETTER: &str = "version = 1\nsystems = [\"HYD\"]\n\
[[param]]\nname = \"g_lo\"\nkind = \"disc\"\nstale = 600\nsource = [{ bus = 0, label = \"270\", bit = 11 }]\n\
[[alert]]\nname = \"g_rsvr\"\ntitle = \"HYD G RSVR LO LVL\u{e9}\"\nsystem = \"HYD\"\nlevel = 1\nwhen = \"g_lo\"\n";

// The advisory, whose words count for three moments.
pub(crate) const SHORT_BOOK: &str = "version = 1\nsystems = [\"HYD\"]\n\
[[param]]\nname = \"g_lo\"\nkind = \"disc\"\nstale = 2\nsource = [{ bus = 0, label = \"270\", bit = 11 }]\n\
[[alert]]\nname = \"g_rsvr\"\ntitle = \"HYD G RSVR LO LVL\"\nsystem = \"HYD\"\nlevel = 1\nwhen = \"g_lo\"\n";

// The advisory, whose discrete has a second source.
pub(crate) const SECOND_SOURCE: &str = "version = 1\nsystems = [\"HYD\"]\n\
[[param]]\nname = \"g_lo\"\nkind = \"disc\"\nstale = 600\nsource = [{ bus = 0, label = \"270\", bit = 11 }, { bus = 1, label = \"270\", bit = 11 }]\n\
[[alert]]\nname = \"g_rsvr\"\ntitle = \"HYD G RSVR LO LVL\"\nsystem = \"HYD\"\nlevel = 1\nwhen = \"g_lo\"\n";

// The advisory, of words with an SDI of 1.
pub(crate) const SDI_ONE: &str = "version = 1\nsystems = [\"HYD\"]\n\
[[param]]\nname = \"g_lo\"\nkind = \"disc\"\nstale = 600\nsource = [{ bus = 0, label = \"270\", sdi = 1, bit = 11 }]\n\
[[alert]]\nname = \"g_rsvr\"\ntitle = \"HYD G RSVR LO LVL\"\nsystem = \"HYD\"\nlevel = 1\nwhen = \"g_lo\"\n";

// The advisory once its discrete has been one for four moments.
pub(crate) const CONFIRMED_ADVISORY: &str = "version = 1\nsystems = [\"HYD\"]\n\
[[param]]\nname = \"g_lo\"\nkind = \"disc\"\nstale = 600\nsource = [{ bus = 0, label = \"270\", bit = 11 }]\n\
[[alert]]\nname = \"g_rsvr\"\ntitle = \"HYD G RSVR LO LVL\"\nsystem = \"HYD\"\nlevel = 1\nwhen = \"g_lo\"\nconfirm = 3\n";

// The advisory by a condition that waits for two moments.
pub(crate) const HELD_ON: &str = "version = 1\nsystems = [\"HYD\"]\n\
[[param]]\nname = \"g_lo\"\nkind = \"disc\"\nstale = 600\nsource = [{ bus = 0, label = \"270\", bit = 11 }]\n\
[[alert]]\nname = \"g_rsvr\"\ntitle = \"HYD G RSVR LO LVL\"\nsystem = \"HYD\"\nlevel = 1\nwhen = \"conf(g_lo, 2)\"\n";

// The advisory on a press of T.O CONFIG.
pub(crate) const ON_A_PRESS: &str = "version = 1\nsystems = [\"HYD\"]\n\
[[param]]\nname = \"g_lo\"\nkind = \"disc\"\nstale = 600\nsource = [{ bus = 0, label = \"270\", bit = 11 }]\n\
[[alert]]\nname = \"g_rsvr\"\ntitle = \"HYD G RSVR LO LVL\"\nsystem = \"HYD\"\nlevel = 1\nwhen = \"press(TOCFG)\"\n";

// The inhibited caution, of level 1.
pub(crate) const INHIBITED_ADVISORY: &str = "version = 1\nsystems = [\"HYD\"]\n\
[[param]]\nname = \"g_lo\"\nkind = \"disc\"\nstale = 600\nsource = [{ bus = 0, label = \"270\", bit = 11 }]\n\
[[param]]\nname = \"gnd\"\nkind = \"disc\"\nstale = 600\nsource = [{ bus = 0, label = \"350\", bit = 11 }]\n\
[[param]]\nname = \"run\"\nkind = \"disc\"\nstale = 600\nsource = [{ bus = 0, label = \"350\", bit = 12 }]\n\
[[param]]\nname = \"tp\"\nkind = \"disc\"\nstale = 600\nsource = [{ bus = 0, label = \"350\", bit = 13 }]\n\
[[param]]\nname = \"fast\"\nkind = \"disc\"\nstale = 600\nsource = [{ bus = 0, label = \"350\", bit = 14 }]\n\
[[param]]\nname = \"low\"\nkind = \"disc\"\nstale = 600\nsource = [{ bus = 0, label = \"350\", bit = 15 }]\n\
[[param]]\nname = \"high\"\nkind = \"disc\"\nstale = 600\nsource = [{ bus = 0, label = \"350\", bit = 16 }]\n[phase]\ngnd = \"gnd\"\nrun = \"run\"\ntp = \"tp\"\nfast = \"fast\"\nlow = \"low\"\nhigh = \"high\"\n\
[[alert]]\nname = \"g_rsvr\"\ntitle = \"HYD G RSVR LO LVL\"\nsystem = \"HYD\"\nlevel = 1\nwhen = \"g_lo\"\ninhibit = [3, 4, 5]\n";
