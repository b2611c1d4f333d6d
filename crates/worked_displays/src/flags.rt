// The flags in each of their sixteen combinations, and the lamps with each sound.
use ecam_kinds::{Colour, Picture, ROWS, Sound};
use std::process::Abort;
use warning_display::{LeftCount, fill_flags, fill_lamps};

// Whether more rows stand than the left zone has, how many titles and how many right rows have no room, how many status rows;
// then the text of the flags.
type Flags = (bool, u32, u32, u32, &'static [u8]);

const FLAGS: &[Flags] = &[
    (false, 0, 0, 0, b""),
    (true, 0, 0, 0, b"v"),
    (false, 2, 0, 0, b"OVF 2"),
    (true, 2, 0, 0, b"v OVF 2"),
    (false, 0, 3, 0, b"RGT 3"),
    (true, 0, 3, 0, b"v RGT 3"),
    (false, 2, 3, 0, b"OVF 2 RGT 3"),
    (true, 2, 3, 0, b"v OVF 2 RGT 3"),
    (false, 0, 0, 1, b"STS"),
    (true, 0, 0, 1, b"v STS"),
    (false, 2, 0, 1, b"OVF 2 STS"),
    (true, 2, 0, 1, b"v OVF 2 STS"),
    (false, 0, 3, 1, b"RGT 3 STS"),
    (true, 0, 3, 1, b"v RGT 3 STS"),
    (false, 2, 3, 1, b"OVF 2 RGT 3 STS"),
    (true, 2, 3, 1, b"v OVF 2 RGT 3 STS"),
    (
        true,
        4294967295,
        4294967295,
        40,
        b"v OVF 4294967295 RGT 4294967295 STS",
    ),
];

// Fills the flags by a row of FLAGS, and fills them again, which changes nothing.
fn flags(rt: &impl Abort, picture: &mut Picture, row: usize, wanted: &Flags) {
    let (more, beyond, right, status, text) = wanted;
    let left = LeftCount {
        beyond: *beyond,
        more: *more,
    };
    let colour = if row == 0 {
        Colour::Blank
    } else {
        Colour::White
    };
    let mut changed = [false; ROWS];
    fill_flags(left, *right, *status, picture, &mut changed);
    assert!(rt; picture.rows[14].is(colour, text), "flags {row}");
    assert_eq!(rt; changed[14], row > 0, "flags {row}");
    assert!(rt; !changed[13] && !changed[15], "flags {row}");
    changed[14] = false;
    fill_flags(left, *right, *status, picture, &mut changed);
    assert!(rt; !changed[14], "flags {row}");
}

#[test]
fn flags_stand_in_their_order(rt: HostRuntime) {
    let mut picture = Picture::blank();
    for (row, wanted) in FLAGS.iter().enumerate() {
        flags(&rt, &mut picture, row, wanted);
    }
}

// Each sound, and the text of its row.
const SOUNDS: &[(Sound, &[u8])] = &[
    (Sound::Chime, b"SC"),
    (Sound::Repetitive, b"CRC"),
    (Sound::Cavalry, b"CAV"),
    (Sound::Cricket, b"CRI"),
    (Sound::Quiet, b""),
];

// Lights the caution with a sound.
fn sounded(rt: &impl Abort, picture: &mut Picture, sound: Sound, text: &[u8]) {
    let quiet = sound == Sound::Quiet;
    let colour = if quiet { Colour::Blank } else { Colour::White };
    let mut changed = [false; ROWS];
    fill_lamps(false, true, sound, picture, &mut changed);
    assert!(rt; picture.rows[33].is(Colour::Blank, b""));
    assert!(rt; picture.rows[34].is(Colour::Amber, b"MASTER CAUT"));
    assert!(rt; picture.rows[35].is(colour, text));
    assert!(rt; !changed[33] && changed[35]);
    assert_eq!(rt; changed[34], sound == Sound::Chime);
}

// Lights the warning, when the caution was lit.
fn warned(rt: &impl Abort, picture: &mut Picture) {
    let mut changed = [false; ROWS];
    fill_lamps(true, false, Sound::Quiet, picture, &mut changed);
    assert!(rt; picture.rows[33].is(Colour::Red, b"MASTER WARN"));
    assert!(rt; picture.rows[34].is(Colour::Blank, b""));
    assert!(rt; changed[33] && changed[34] && !changed[35]);
}

#[test]
fn lamps_and_sounds_have_their_rows(rt: HostRuntime) {
    let mut picture = Picture::blank();
    for (sound, text) in SOUNDS {
        sounded(&rt, &mut picture, *sound, text);
    }
    warned(&rt, &mut picture);
}
