// The words of a moment.
ghost use Rattle.std.specs.Prelude.{◌≡◌, ◌<◌, ◌+◌, ◌-◌, ◌*◌, ◌%◌, ◌^◌, sum_by};
ghost use Rattle.record_maker.specs.Flight.{flags_in};
ghost use Rattle.record_maker.specs.Words as spec;

use arinc_words::Word;

// How many moments a flight has.
const FLIGHT: u32 = 6000;

// The flags as a number in bits 11 to 29 of their word.
const GND: u32 = 1;

const RUN: u32 = 1 << 1;

const TP: u32 = 1 << 2;

const FAST: u32 = 1 << 3;

const LOW: u32 = 1 << 4;

const HIGH: u32 = 1 << 5;

// The flags of a moment of the flight.
#[tactic(auto, unfolding(crate::specs::Flight::flags_in, crate::specs::Flight::flight))]
fn flags_in(moment: u32) -> u32
    requires { moment < 6000 }
    ensures flags { result ≡ sum_by (λ b. 2 ^ (b - 11)) (flags_in moment) }
    ensures small { result < 64 }
{
    match moment {
        0..=99 => GND,
        100..=299 => GND | RUN,
        300..=399 => GND | RUN | TP,
        400..=499 => GND | RUN | TP | FAST,
        500..=599 => TP | FAST | LOW,
        600..=699 => TP | FAST,
        700..=2199 => FAST | HIGH,
        2200..=2399 => FAST,
        2400..=2599 => FAST | LOW,
        2600..=2699 => GND | RUN | FAST,
        2700..=2899 => GND | RUN,
        _ => GND,
    }
}

// The word with this label, SDI 00, this number in bits 11 to 29 and this SSM; bit 32 is 0.
fn word_of(label: u8, number: u32, ssm: u32) -> u32
    requires number { number < 2 ^ 19 }
    requires ssm { ssm < 4 }
    ensures word { result ≡ spec.word_of label number ssm }
    ensures open_parity { result < 2 ^ 31 }
{
    ssm << 29 | number << 10 | u32::from(label.reverse_bits())
}

// The same word with odd parity.
#[tactic(auto, unfolding(crate::specs::Words::odd))]
fn odd(word: u32) -> u32
    requires { word < 2 ^ 31 }
    ensures { result ≡ spec.odd word }
{
    if Word::new(word).odd() {
        word
    } else {
        word | 1 << 31
    }
}

// The same word with even parity.
#[tactic(auto, unfolding(crate::specs::Words::even))]
fn even(word: u32) -> u32
    requires { word < 2 ^ 31 }
    ensures { result ≡ spec.even word }
{
    if Word::new(word).odd() {
        word | 1 << 31
    } else {
        word
    }
}

// The flags of a moment.
#[tactic(auto, unfolding(crate::specs::Words::flags_word))]
pub(crate) fn flags_word(moment: u32) -> u32
    ensures { result ≡ spec.flags_word moment }
{
    odd(word_of(0o350, flags_in(moment % FLIGHT), 0))
}

// The word of a draw.
#[tactic(auto, unfolding(crate::specs::Words::drawn_word))]
pub(crate) fn drawn_word(r: u64) -> u32
    ensures { result ≡ spec.drawn_word r }
{
    let label = 0o300 + (r >> 8 & 7) as u8;
    let number = (r >> 16 & 0x7_ffff) as u32;
    let ssm = if (r >> 40) % 64 == 0 { 3 } else { 0 };
    let word = word_of(label, number, ssm);
    if (r >> 48) % 64 == 0 {
        even(word)
    } else {
        odd(word)
    }
}
