// The words that a computer tells, by their numbers: 0 is the status word, and g + 1 that of the alerts from 16 g on.
ghost use Rattle.std.specs.Prelude.{◌≡◌, ◌≤◌, ◌<◌, ◌*◌, ◌^◌, take, drop};
ghost use Rattle.view_spec.specs.OutputWords as spec;
ghost use Rattle.word_out.specs.Told.{lane_data, pair_word};

use arinc_words::Word;
use ecam_kinds::Sound;
use fwc_lane::Lane;
use fwc_pair::Pair;

// How many alerts a word tells.
pub(crate) const GROUP: usize = 16;

fn sound_number(sound: Sound) -> u32
    ensures number { result ≡ spec.sound_number sound }
    ensures small { result ≤ 4 }
{
    match sound {
        Sound::Quiet => 0,
        Sound::Chime => 1,
        Sound::Repetitive => 2,
        Sound::Cavalry => 3,
        Sound::Cricket => 4,
    }
}

// The data of the status word.
#[tactic(auto, unfolding(view_spec::specs::OutputWords::status_data, view_spec::specs::OutputWords::number_of))]
fn status_data(warn: bool, caut: bool, sound: Sound, phase: u8) -> u32
    ensures data { result ≡ spec.status_data warn caut sound phase }
    ensures small { result < 2 ^ 19 }
{
    u32::from(warn) + 2 * u32::from(caut) + 4 * sound_number(sound) + 32 * u32::from(phase)
}

// The flags of the alerts of a group.
fn alerts_of(group: usize, shown: &[bool]) -> &[bool]
    requires { group ≤ 128 }
    ensures { result.now ≡ take 16 (drop (16 * group) shown.now) }
{
    let behind = &shown[(GROUP * group).min(shown.len())..];
    &behind[..GROUP.min(behind.len())]
}

// The data of a group's word: whether each of its alerts is shown.
fn group_data(group: usize, shown: &[bool]) -> u32
    requires { group ≤ 128 }
    ensures data { result ≡ spec.group_data shown.now group }
    ensures small { result < 2 ^ 19 }
{
    let alerts = alerts_of(group, shown);
    let mut data = 0;
    for i in 0..alerts.len() {
        data += u32::from(alerts[i]) << i;
    }
    data
}

fn data(lane: &Lane, number: usize) -> u32
    requires { number ≤ 128 }
    ensures data { result ≡ lane_data lane.now number }
    ensures small { result < 2 ^ 19 }
{
    if number == 0 {
        let attention = &lane.attention;
        status_data(
            attention.warn(),
            attention.caut(),
            attention.sound(),
            lane.phase.number,
        )
    } else {
        group_data(number - 1, lane.marks.shown())
    }
}

fn label(number: usize) -> u8
    requires { number ≤ 128 }
    ensures { result ≡ spec.label_of number }
{
    if number == 0 {
        0o100
    } else {
        0o101 + ((number - 1) / 4) as u8
    }
}

fn sdi(number: usize) -> u8
    requires { number ≤ 128 }
    ensures sdi { result ≡ spec.sdi_of number }
    ensures small { result ≤ 3 }
{
    if number == 0 {
        0
    } else {
        ((number - 1) % 4) as u8
    }
}

/// A word of the first computer that is up, and where none is a word that says nothing. Costs a look at the alerts of its
/// group.
pub(crate) fn word(pair: &Pair, number: usize) -> u32
    requires { number ≤ 128 }
    ensures { result ≡ pair_word pair.now number }
{
    match pair.lane() {
        Some(lane) => Word::compose(label(number), sdi(number), data(lane, number), 0).bits(),
        None => Word::compose(label(number), sdi(number), 0, 1).bits(),
    }
}
