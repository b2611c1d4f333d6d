// Books, each with one fault.
use book_model::Section;

pub(crate) const TOP: &str = "version = 1\nsystems = [\"HYD\", \"ELEC\"]\n";

// One item in each section but two parameters.
pub(crate) const ITEMS: &str = "[[page]]\n\
name = \"hyd\"\n\
title = \"HYD\"\n\
row = [{ text = \"GREEN\", show = \"g_press\", unit = \"PSI\" }, { text = \"END\" }]\n\
[[param]]\n\
name = \"g_lo\"\n\
kind = \"disc\"\n\
stale = 600\n\
source = [{ bus = 0, label = \"270\", bit = 11 }]\n\
[[param]]\n\
name = \"g_press\"\n\
kind = \"bnr\"\n\
stale = 10\n\
source = [{ bus = 1, label = \"300\", low = 17, range = 4096 }]\n\
[[alert]]\n\
name = \"g_rsvr\"\n\
title = \"HYD G RSVR LO LVL\"\n\
system = \"HYD\"\n\
level = 2\n\
page = \"hyd\"\n\
when = \"g_lo\"\n\
secondary = [\"g_lo_pr\"]\n\
line = [{ text = \"-PUMP.....OFF\", done = \"not(g_lo)\" }]\n\
status = [{ section = \"inop\", text = \"GREEN HYD\" }]\n\
[[memo]]\n\
name = \"pump\"\n\
text = \"HYD PUMP\"\n\
zone = \"left\"\n\
when = \"all(g_lo, g_press < 1450)\"\n\
";

// The top, what stands after the items, and the code, section and item of the first fault.
pub(crate) type Faulty = (&'static str, &'static str, u8, Section, u32);

pub(crate) const FAULTS: &[Faulty] = &[
    // no document
    ("version =\n", "", 2, Section::Top, 0),
    ("systems = []\n", "", 3, Section::Top, 0),
    ("version = 0\n", "", 3, Section::Top, 0),
    ("version = true\n", "", 3, Section::Top, 0),
    (
        TOP,
        "[[alert]]\nname = \"two\"\ntitle = \"TWO\"\nsystem = \"ELEC\"\nlevel = 1\nwhen = \"g_lo\"\nnote = 1\n",
        4,
        Section::Alert,
        2,
    ),
    (
        TOP,
        "[[alert]]\nname = \"two\"\ntitle = \"TWO\"\nsystem = \"ELEC\"\nlevel = 1\nwhen = \"g_lo\"\nline = [{ text = \"A\" }, { text = \"B\", then = \"C\" }]\n",
        4,
        Section::Alert,
        2,
    ),
    (
        TOP,
        "[[page]]\nname = \"two\"\ntitle = \"TWO\"\nrow = [{ text = \"A\", unit = \"PSI\" }]\n",
        4,
        Section::Page,
        2,
    ),
    (
        TOP,
        "[[page]]\nname = \"two\"\ntitle = \"TWO\"\nrow = [{ text = \"A\", show = \"g_lo\", colour = \"W\" }]\n",
        4,
        Section::Page,
        2,
    ),
    (
        TOP,
        "[[param]]\nname = \"two\"\nkind = \"disc\"\nstale = 1\nsource = [{ bus = 0, label = \"270\", bit = 12, low = 11 }]\n",
        4,
        Section::Param,
        3,
    ),
    (
        TOP,
        "[[param]]\nname = \"two\"\nkind = \"bcd\"\nstale = 1\nsource = [{ bus = 0, label = \"270\", bit = 12 }]\n",
        4,
        Section::Param,
        3,
    ),
    (
        TOP,
        "[[memo]]\nname = \"two\"\ntext = \"TWO\"\nwhen = \"g_lo\"\n",
        5,
        Section::Memo,
        2,
    ),
    (
        TOP,
        "[[page]]\nname = \"two\"\ntitle = \"TWO\"\nrow = [{ show = \"g_lo\" }]\n",
        5,
        Section::Page,
        2,
    ),
    (
        TOP,
        "[[param]]\nname = \"two\"\nkind = \"bnr\"\nstale = 1\nsource = [{ bus = 0, label = \"270\", low = 12 }]\n",
        5,
        Section::Param,
        3,
    ),
    (
        "version = 1\nsystems = [\"HYD\", 5]\n",
        "",
        6,
        Section::System,
        2,
    ),
    ("version = 1\nsystems = 5\n", "", 6, Section::System, 0),
    (TOP, "[phase]\ngnd = true\n", 6, Section::Phase, 0),
    (
        TOP,
        "[[alert]]\nname = \"two\"\ntitle = \"TWO\"\nsystem = \"ELEC\"\nlevel = 1\nwhen = \"g_lo\"\ninhibit = [1, 2.0]\n",
        6,
        Section::Alert,
        2,
    ),
    (
        TOP,
        "[[param]]\nname = \"two\"\nkind = \"disc\"\nstale = 1\nsource = [5]\n",
        6,
        Section::Param,
        3,
    ),
    (
        TOP,
        "[[page]]\nname = \"Two\"\ntitle = \"TWO\"\n",
        7,
        Section::Page,
        2,
    ),
    (
        TOP,
        "[[alert]]\nname = \"hold\"\ntitle = \"TWO\"\nsystem = \"ELEC\"\nlevel = 1\nwhen = \"g_lo\"\n",
        7,
        Section::Alert,
        2,
    ),
    (
        "version = 1\nsystems = [\"HYD\", \"ELEC 78901234567\"]\n",
        "[[page]]\nname = \"two\"\ntitle = \"TWO\"\nrow = [{ text = \"1234567890123456789012345\", show = \"g_lo\" }]\n",
        8,
        Section::Page,
        2,
    ),
    (
        "version = 1\nsystems = [\"HYD\", \"ELEC 789012345678\"]\n",
        "",
        8,
        Section::System,
        2,
    ),
    (
        TOP,
        "[[alert]]\nname = \"two\"\ntitle = \" TWO\"\nsystem = \"ELEC\"\nlevel = 1\nwhen = \"g_lo\"\n",
        8,
        Section::Alert,
        2,
    ),
    (
        TOP,
        "[[alert]]\nname = \"two\"\ntitle = \"TWO\"\nsystem = \"ELEC\"\nlevel = 1\nwhen = \"\"\n",
        8,
        Section::Alert,
        2,
    ),
    (
        TOP,
        "[[alert]]\nname = \"two\"\ntitle = \"TWO\"\nsystem = \"ELEC\"\nlevel = 4\nwhen = \"g_lo\"\n",
        9,
        Section::Alert,
        2,
    ),
    (
        TOP,
        "[[page]]\nname = \"two\"\ntitle = \"TWO\"\nphases = [1, 11]\n",
        9,
        Section::Page,
        2,
    ),
    (
        TOP,
        "[[param]]\nname = \"two\"\nkind = \"disc\"\nstale = 601\nsource = [{ bus = 0, label = \"270\", bit = 12 }]\n",
        9,
        Section::Param,
        3,
    ),
    (
        TOP,
        "[[alert]]\nname = \"two\"\ntitle = \"TWO\"\nsystem = \"ELEC\"\nlevel = 1\nwhen = \"g_lo\"\ninhibit = [1, 1, 1, 1, 1, 1, 1, 1, 1, 1, 1]\n",
        10,
        Section::Alert,
        2,
    ),
    (
        TOP,
        "[[param]]\nname = \"two\"\nkind = \"disc\"\nstale = 1\nsource = []\n",
        10,
        Section::Param,
        3,
    ),
    (
        TOP,
        "[[alert]]\nname = \"two\"\ntitle = \"TWO\"\nsystem = \"ELEC\"\nlevel = 1\nwhen = \"g_lo\"\nsecondary = [\"a\", \"a\", \"a\", \"a\", \"a\", \"a\", \"a\", \"a\", \"a\", \"a\", \"a\", \"a\", \"a\", \"a\", \"a\", \"a\", \"a\"]\n",
        10,
        Section::Alert,
        2,
    ),
    // the first of two of one name
    (
        TOP,
        "[[memo]]\nname = \"two\"\ntext = \"TWO\"\nzone = \"right\"\nwhen = \"g_lo\"\n[[memo]]\nname = \"two\"\ntext = \"THREE\"\nzone = \"right\"\nwhen = \"g_lo\"\n",
        11,
        Section::Memo,
        2,
    ),
    (
        "version = 1\nsystems = [\"HYD\", \"ELEC\", \"FUEL\", \"ELEC\"]\n",
        "",
        11,
        Section::System,
        2,
    ),
    (
        TOP,
        "[[memo]]\nname = \"two\"\ntext = \"TWO\"\nzone = \"middle\"\nwhen = \"g_lo\"\n",
        12,
        Section::Memo,
        2,
    ),
    (
        TOP,
        "[[alert]]\nname = \"two\"\ntitle = \"TWO\"\nsystem = \"ELEC\"\nlevel = 1\nwhen = \"g_lo\"\nline = [{ text = \"A\", colour = \"w\" }]\n",
        12,
        Section::Alert,
        2,
    ),
    (
        TOP,
        "[[param]]\nname = \"two\"\nkind = \"word\"\nstale = 1\nsource = [{ bus = 0, label = \"270\", bit = 12 }]\n",
        12,
        Section::Param,
        3,
    ),
    (
        TOP,
        "[[param]]\nname = \"two\"\nkind = \"disc\"\nstale = 1\nsource = [{ bus = 0, label = \"400\", bit = 12 }]\n",
        13,
        Section::Param,
        3,
    ),
    (
        TOP,
        "[[alert]]\nname = \"two\"\ntitle = \"TWO\"\nsystem = \"ELEC\"\nlevel = 1\nwhen = \"g_lo\"\npage = \"elec\"\n",
        14,
        Section::Alert,
        2,
    ),
    (
        TOP,
        "[[alert]]\nname = \"two\"\ntitle = \"TWO\"\nsystem = \"FUEL\"\nlevel = 1\nwhen = \"g_lo\"\n",
        15,
        Section::Alert,
        2,
    ),
    (
        TOP,
        "[[alert]]\nname = \"two\"\ntitle = \"TWO\"\nsystem = \"ELEC\"\nlevel = 1\nwhen = \"not(\"\n",
        16,
        Section::Alert,
        2,
    ),
    (
        TOP,
        "[[alert]]\nname = \"two\"\ntitle = \"TWO\"\nsystem = \"ELEC\"\nlevel = 1\nwhen = \"g_lo\"\nline = [{ text = \"A\", when = \"g_lo g_lo\" }]\n",
        16,
        Section::Alert,
        2,
    ),
    (
        TOP,
        "[[page]]\nname = \"two\"\ntitle = \"TWO\"\nrow = [{ text = \"A\", show = \"gone\" }]\n",
        17,
        Section::Page,
        2,
    ),
    (
        TOP,
        "[[memo]]\nname = \"two\"\ntext = \"TWO\"\nzone = \"right\"\nwhen = \"any(g_lo, gone)\"\n",
        17,
        Section::Memo,
        2,
    ),
    (
        TOP,
        "[[alert]]\nname = \"two\"\ntitle = \"TWO\"\nsystem = \"ELEC\"\nlevel = 1\nwhen = \"alert(pump)\"\n",
        17,
        Section::Alert,
        2,
    ),
    (
        TOP,
        "[[memo]]\nname = \"two\"\ntext = \"TWO\"\nzone = \"right\"\nwhen = \"not(not(not(not(not(not(not(not(not(not(not(not(not(not(not(not(g_lo))))))))))))))))\"\n",
        18,
        Section::Memo,
        2,
    ),
    (
        TOP,
        "[[memo]]\nname = \"two\"\ntext = \"TWO\"\nzone = \"right\"\nwhen = \"all(g_lo, g_lo, g_lo, g_lo, g_lo, g_lo, g_lo, g_lo, g_lo, g_lo, g_lo, g_lo, g_lo, g_lo, g_lo, g_lo, g_lo, g_lo, g_lo, g_lo, g_lo, g_lo, g_lo, g_lo, g_lo, g_lo, g_lo, g_lo, g_lo, g_lo, g_lo, g_lo, g_lo, g_lo, g_lo, g_lo, g_lo, g_lo, g_lo, g_lo, g_lo, g_lo, g_lo, g_lo, g_lo, g_lo, g_lo, g_lo, g_lo, g_lo, g_lo, g_lo, g_lo, g_lo, g_lo, g_lo, g_lo, g_lo, g_lo, g_lo, g_lo, g_lo, g_lo, g_lo)\"\n",
        18,
        Section::Memo,
        2,
    ),
    (
        TOP,
        "[[alert]]\nname = \"two\"\ntitle = \"TWO\"\nsystem = \"ELEC\"\nlevel = 1\nwhen = \"phase(11)\"\n",
        19,
        Section::Alert,
        2,
    ),
    (TOP, "[phase]\nrun = \"fwc(3)\"\n", 19, Section::Phase, 0),
];
