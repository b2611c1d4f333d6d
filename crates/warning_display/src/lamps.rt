// The rows of the master lights and of the aural warning.
ghost use Rattle.std.specs.Prelude.{◌≡◌, ◌≤◌, ◌<◌, [], ◌∷◌, length, if◌then◌else◌};
ghost use Rattle.ecam_spec.specs.Picture as spec;
ghost use Rattle.ecam_spec.specs.LampRows.{lamp_rows, sound_row};
ghost use Rattle.zone_rows.specs.Tracked.{tracked, IsWhole};
ghost use Rattle.zone_rows.specs.Mended.{Mends};

use ecam_kinds::{Colour, Picture, ROW_TEXT, ROWS, Row, Sound};
use zone_rows::{LAMPS, set_row};

// Where MW, MC and AU stand.
const WARN: usize = LAMPS;

const CAUT: usize = LAMPS + 1;

const AURAL: usize = LAMPS + 2;

fn set_lamp(
    rows: &mut [Row],
    changed: &mut [bool],
    place: usize,
    lit: bool,
    colour: Colour,
    text: &[u8],
)
    requires whole { IsWhole (tracked rows.old changed.old) }
    requires place { place < ROWS }
    requires text { length text.now ≤ ROW_TEXT }
    ensures whole { IsWhole (tracked rows.new changed.new) }
    ensures row { Mends place ((if lit then spec.row colour text.now else spec.blank_row) ∷ [])
        (tracked rows.old changed.old) (tracked rows.new changed.new) }
{
    if lit {
        set_row(rows, changed, place, colour, text);
    } else {
        set_row(rows, changed, place, Colour::Blank, b"");
    }
}

fn set_sound(rows: &mut [Row], changed: &mut [bool], sound: Sound)
    requires whole { IsWhole (tracked rows.old changed.old) }
    ensures whole { IsWhole (tracked rows.new changed.new) }
    ensures row { Mends 35 (sound_row sound ∷ [])
        (tracked rows.old changed.old) (tracked rows.new changed.new) }
{
    match sound {
        Sound::Quiet => set_row(rows, changed, AURAL, Colour::Blank, b""),
        Sound::Chime => set_row(rows, changed, AURAL, Colour::White, b"SC"),
        Sound::Repetitive => set_row(rows, changed, AURAL, Colour::White, b"CRC"),
        Sound::Cavalry => set_row(rows, changed, AURAL, Colour::White, b"CAV"),
        Sound::Cricket => set_row(rows, changed, AURAL, Colour::White, b"CRI"),
    }
}

fn fill_rows(rows: &mut [Row], changed: &mut [bool], warn: bool, caut: bool, sound: Sound)
    requires whole { IsWhole (tracked rows.old changed.old) }
    ensures whole { IsWhole (tracked rows.new changed.new) }
    ensures rows { Mends 33 (lamp_rows warn caut sound)
        (tracked rows.old changed.old) (tracked rows.new changed.new) }
{
    set_lamp(rows, changed, WARN, warn, Colour::Red, b"MASTER WARN");
    set_lamp(rows, changed, CAUT, caut, Colour::Amber, b"MASTER CAUT");
    set_sound(rows, changed, sound);
}

/// Fills MW, MC and AU: the master warning in red and the master caution in amber where they are lit, and the name
/// of the sound in white. Costs the comparison of three rows.
pub fn fill_lamps(
    warn: bool,
    caut: bool,
    sound: Sound,
    picture: &mut Picture,
    changed: &mut [bool; ROWS],
)
    ensures whole { IsWhole (tracked picture.new.rows changed.new) }
    ensures rows { Mends 33 (lamp_rows warn caut sound)
        (tracked picture.old.rows changed.old) (tracked picture.new.rows changed.new) }
{
    fill_rows(&mut picture.rows, changed, warn, caut, sound)
}
