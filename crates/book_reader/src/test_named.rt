// Books of version 2, whose conditions have names.
use crate::test_books::{Faulty, TOP};
use book_model::Section;

pub(crate) const SECOND: &str = "version = 2\nsystems = [\"HYD\", \"ELEC\"]\n";

pub(crate) const NAMED: &[Faulty] = &[
    // known in version 2 alone
    (
        TOP,
        "[[term]]\nname = \"low\"\nwhen = \"g_lo\"\n",
        4,
        Section::Top,
        0,
    ),
    ("version = 3\n", "", 3, Section::Top, 0),
    // what a named condition has
    (
        SECOND,
        "[[term]]\nname = \"low\"\nwhen = \"g_lo\"\nnote = 1\n",
        4,
        Section::Term,
        1,
    ),
    (SECOND, "[[term]]\nname = \"low\"\n", 5, Section::Term, 1),
    (
        "version = 2\nsystems = [\"HYD\", \"ELEC\"]\nterm = 5\n",
        "",
        6,
        Section::Term,
        0,
    ),
    (
        SECOND,
        "[[term]]\nname = \"low\"\nwhen = \"g_lo\"\n[[term]]\nname = \"high\"\nwhen = 5\n",
        6,
        Section::Term,
        2,
    ),
    (
        SECOND,
        "[[term]]\nname = \"Low\"\nwhen = \"g_lo\"\n",
        7,
        Section::Term,
        1,
    ),
    (
        SECOND,
        "[[term]]\nname = \"low\"\nwhen = \"\"\n",
        8,
        Section::Term,
        1,
    ),
    // a name that another has, or a parameter
    (
        SECOND,
        "[[term]]\nname = \"low\"\nwhen = \"g_lo\"\n[[term]]\nname = \"high\"\nwhen = \"true\"\n[[term]]\nname = \"high\"\nwhen = \"false\"\n",
        11,
        Section::Term,
        2,
    ),
    (
        SECOND,
        "[[term]]\nname = \"g_lo\"\nwhen = \"true\"\n",
        11,
        Section::Term,
        1,
    ),
    // known are those before it, and all elsewhere
    (
        SECOND,
        "[[term]]\nname = \"low\"\nwhen = \"low\"\n",
        17,
        Section::Term,
        1,
    ),
    (
        SECOND,
        "[[term]]\nname = \"low\"\nwhen = \"high\"\n[[term]]\nname = \"high\"\nwhen = \"g_lo\"\n",
        17,
        Section::Term,
        1,
    ),
    (
        SECOND,
        "[[alert]]\nname = \"two\"\ntitle = \"TWO\"\nsystem = \"ELEC\"\nlevel = 1\nwhen = \"valid(low)\"\n[[term]]\nname = \"low\"\nwhen = \"g_lo\"\n",
        17,
        Section::Alert,
        2,
    ),
    (
        SECOND,
        "[[alert]]\nname = \"two\"\ntitle = \"TWO\"\nsystem = \"ELEC\"\nlevel = 1\nwhen = \"low < 3\"\n[[term]]\nname = \"low\"\nwhen = \"g_lo\"\n",
        17,
        Section::Alert,
        2,
    ),
    (
        SECOND,
        "[[alert]]\nname = \"two\"\ntitle = \"TWO\"\nsystem = \"ELEC\"\nlevel = 1\nwhen = \"alert(low)\"\n[[term]]\nname = \"low\"\nwhen = \"g_lo\"\n",
        17,
        Section::Alert,
        2,
    ),
    // one without a condition is known, and is `true`
    (
        SECOND,
        "[[alert]]\nname = \"two\"\ntitle = \"TWO\"\nsystem = \"ELEC\"\nlevel = 1\nwhen = \"low\"\n[[term]]\nname = \"low\"\nwhen = \"all(\"\n",
        16,
        Section::Term,
        1,
    ),
    (
        SECOND,
        "[[alert]]\nname = \"two\"\ntitle = \"TWO\"\nsystem = \"ELEC\"\nlevel = 1\nwhen = \"low\"\n[[term]]\nname = \"low\"\nwhen = \"conf(g_lo, 36001)\"\n",
        19,
        Section::Term,
        1,
    ),
    (
        SECOND,
        "[[alert]]\nname = \"two\"\ntitle = \"TWO\"\nsystem = \"ELEC\"\nlevel = 1\nwhen = \"not(low)\"\n[[term]]\nname = \"low\"\nwhen = \"not(not(not(not(not(not(not(not(not(not(not(not(not(not(not(not(g_lo))))))))))))))))\"\n",
        18,
        Section::Term,
        1,
    ),
    // its whole tree counts where it stands
    (
        SECOND,
        "[[alert]]\nname = \"two\"\ntitle = \"TWO\"\nsystem = \"ELEC\"\nlevel = 1\nwhen = \"not(not(low))\"\n[[term]]\nname = \"low\"\nwhen = \"not(not(not(not(not(not(not(not(not(not(not(not(not(not(g_lo))))))))))))))\"\n",
        18,
        Section::Alert,
        2,
    ),
    (
        SECOND,
        "[[alert]]\nname = \"two\"\ntitle = \"TWO\"\nsystem = \"ELEC\"\nlevel = 1\nwhen = \"not(wide)\"\n[[term]]\nname = \"wide\"\nwhen = \"all(g_lo, g_lo, g_lo, g_lo, g_lo, g_lo, g_lo, g_lo, g_lo, g_lo, g_lo, g_lo, g_lo, g_lo, g_lo, g_lo, g_lo, g_lo, g_lo, g_lo, g_lo, g_lo, g_lo, g_lo, g_lo, g_lo, g_lo, g_lo, g_lo, g_lo, g_lo, g_lo, g_lo, g_lo, g_lo, g_lo, g_lo, g_lo, g_lo, g_lo, g_lo, g_lo, g_lo, g_lo, g_lo, g_lo, g_lo, g_lo, g_lo, g_lo, g_lo, g_lo, g_lo, g_lo, g_lo, g_lo, g_lo, g_lo, g_lo, g_lo, g_lo, g_lo, g_lo)\"\n",
        18,
        Section::Alert,
        2,
    ),
    (
        SECOND,
        "[[term]]\nname = \"a\"\nwhen = \"all(g_lo, g_lo, g_lo)\"\n[[term]]\nname = \"b\"\nwhen = \"all(a, a, a, a)\"\n[[term]]\nname = \"c\"\nwhen = \"all(b, b, b, b)\"\n",
        18,
        Section::Term,
        3,
    ),
    // its place among the sections
    (
        SECOND,
        "[[term]]\nname = \"low\"\nwhen = \"all(\"\n[phase]\nrun = \"all(\"\n",
        16,
        Section::Term,
        1,
    ),
    (
        SECOND,
        "[[term]]\nname = \"low\"\nwhen = \"g_lo\"\n[[param]]\nname = \"Two\"\nkind = \"disc\"\nstale = 1\nsource = [{ bus = 0, label = \"270\", bit = 12 }]\n[[term]]\nname = \"High\"\nwhen = \"true\"\n",
        7,
        Section::Param,
        3,
    ),
];

/// What stands after the items of a book without a fault, and the nodes of its last alert's condition.
pub(crate) const USED: &[(&str, usize)] = &[
    // a condition of another name, and one of another name still
    (
        "[[alert]]\nname = \"two\"\ntitle = \"TWO\"\nsystem = \"ELEC\"\nlevel = 1\nwhen = \"low\"\n[[term]]\nname = \"low\"\nwhen = \"conf(g_lo, 2)\"\n",
        2,
    ),
    (
        "[[alert]]\nname = \"two\"\ntitle = \"TWO\"\nsystem = \"ELEC\"\nlevel = 1\nwhen = \"any(high, g_lo)\"\n[[term]]\nname = \"low\"\nwhen = \"g_lo\"\n[[term]]\nname = \"high\"\nwhen = \"all(low, true)\"\n",
        5,
    ),
    // at the limits
    (
        "[[alert]]\nname = \"two\"\ntitle = \"TWO\"\nsystem = \"ELEC\"\nlevel = 1\nwhen = \"not(low)\"\n[[term]]\nname = \"low\"\nwhen = \"not(not(not(not(not(not(not(not(not(not(not(not(not(not(g_lo))))))))))))))\"\n",
        16,
    ),
    (
        "[[alert]]\nname = \"two\"\ntitle = \"TWO\"\nsystem = \"ELEC\"\nlevel = 1\nwhen = \"wide\"\n[[term]]\nname = \"wide\"\nwhen = \"all(g_lo, g_lo, g_lo, g_lo, g_lo, g_lo, g_lo, g_lo, g_lo, g_lo, g_lo, g_lo, g_lo, g_lo, g_lo, g_lo, g_lo, g_lo, g_lo, g_lo, g_lo, g_lo, g_lo, g_lo, g_lo, g_lo, g_lo, g_lo, g_lo, g_lo, g_lo, g_lo, g_lo, g_lo, g_lo, g_lo, g_lo, g_lo, g_lo, g_lo, g_lo, g_lo, g_lo, g_lo, g_lo, g_lo, g_lo, g_lo, g_lo, g_lo, g_lo, g_lo, g_lo, g_lo, g_lo, g_lo, g_lo, g_lo, g_lo, g_lo, g_lo, g_lo, g_lo)\"\n",
        64,
    ),
    // an alert's name is none of a condition's
    (
        "[[alert]]\nname = \"two\"\ntitle = \"TWO\"\nsystem = \"ELEC\"\nlevel = 1\nwhen = \"any(alert(g_rsvr), g_rsvr)\"\n[[term]]\nname = \"g_rsvr\"\nwhen = \"g_lo\"\n",
        3,
    ),
    // one that nothing uses
    (
        "[[alert]]\nname = \"two\"\ntitle = \"TWO\"\nsystem = \"ELEC\"\nlevel = 1\nwhen = \"g_lo\"\n[[term]]\nname = \"low\"\nwhen = \"true\"\n",
        1,
    ),
];
