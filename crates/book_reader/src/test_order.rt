// Books with several faults, each with the first of them.
use crate::test_books::{Faulty, TOP};
use book_model::Section;

pub(crate) const ORDER: &[Faulty] = &[
    // the least code comes first, in whatever section
    (
        "version = 1.0\n",
        "[[alert]]\nname = \"two\"\ntitle = \"TWO\"\nsystem = \"ELEC\"\nlevel = 4\nwhen = \"g_lo\"\n",
        3,
        Section::Top,
        0,
    ),
    (
        "version = 1\nmemos = []\n",
        "[[alert]]\nname = \"two\"\ntitle = 5\nsystem = \"ELEC\"\nlevel = 1\nwhen = \"g_lo\"\n",
        4,
        Section::Top,
        0,
    ),
    (
        TOP,
        "[[page]]\nname = \"Two\"\ntitle = \"TWO\"\n[[memo]]\nname = \"two\"\nzone = \"right\"\nwhen = \"g_lo\"\n",
        5,
        Section::Memo,
        2,
    ),
    (
        TOP,
        "[[page]]\nname = \"two\"\ntitle = \"TWO\"\nrow = [{ text = \"A\", show = \"gone\" }]\n[[alert]]\nname = \"two\"\ntitle = \"TWO\"\nsystem = \"ELEC\"\nlevel = 1\nwhen = \"all(\"\n",
        16,
        Section::Alert,
        2,
    ),
    (
        TOP,
        "[[alert]]\nname = \"two\"\ntitle = \"TWO\"\nsystem = \"ELEC\"\nlevel = 1\nwhen = \"not(not(not(not(not(not(not(not(not(not(not(not(not(not(not(not(g_lo))))))))))))))))\"\n[[page]]\nname = \"two\"\ntitle = \"TWO\"\nrow = [{ text = \"A\", show = \"gone\" }]\n",
        17,
        Section::Page,
        2,
    ),
    // then the first section
    (
        TOP,
        "[[memo]]\nname = \"Two\"\ntext = \"TWO\"\nzone = \"right\"\nwhen = \"g_lo\"\n[[alert]]\nname = \"Two\"\ntitle = \"TWO\"\nsystem = \"ELEC\"\nlevel = 1\nwhen = \"g_lo\"\n[[param]]\nname = \"Two\"\nkind = \"disc\"\nstale = 1\nsource = [{ bus = 0, label = \"270\", bit = 12 }]\n",
        7,
        Section::Param,
        3,
    ),
    (
        TOP,
        "[phase]\nrun = \"\"\n[[alert]]\nname = \"two\"\ntitle = \"\"\nsystem = \"ELEC\"\nlevel = 1\nwhen = \"g_lo\"\n",
        8,
        Section::Phase,
        0,
    ),
    // then the least item
    (
        TOP,
        "[[alert]]\nname = \"two\"\ntitle = \"TWO\"\nsystem = \"ELEC\"\nlevel = 4\nwhen = \"g_lo\"\n[[alert]]\nname = \"three\"\ntitle = \"TWO\"\nsystem = \"ELEC\"\nlevel = 1\nwhen = \"g_lo\"\nconfirm = 36001\n",
        9,
        Section::Alert,
        2,
    ),
    // a list as a whole comes before its items
    (
        "version = 1\nsystems = [\"S0\", \"S1\", \"S2\", \"S3\", \"S4\", \"S5\", \"S6\", \"S7\", \"S8\", \"S9\", \"S10\", \"S11\", \"S12\", \"S13\", \"S14\", \"S15\", \"S16\", \"S17\", \"S18\", \"S19\", \"S20\", \"S21\", \"S22\", \"S23\", \"S24\", \"S25\", \"S26\", \"S27\", \"S28\", \"S29\", \"S30\", \"S31\", \"S32\", \"S33\", \"S34\", \"S35\", \"S36\", \"S37\", \"S38\", \"S39\", \"S40\", \"S41\", \"S42\", \"S43\", \"S44\", \"S45\", \"S46\", \"S47\", \"S48\", \"S49\", \"S50\", \"S51\", \"S52\", \"S53\", \"S54\", \"S55\", \"S56\", \"S57\", \"S58\", \"S59\", \"S60\", \"S61\", \"S62\", \"S63\", \"S64\"]\n",
        "[[alert]]\nname = \"two\"\ntitle = \"TWO\"\nsystem = \"ELEC\"\nlevel = 1\nwhen = \"g_lo\"\ninhibit = [1, 1, 1, 1, 1, 1, 1, 1, 1, 1, 1]\n",
        10,
        Section::System,
        0,
    ),
];
