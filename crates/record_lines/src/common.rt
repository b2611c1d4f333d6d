// The lines of which a record has most: a Tick, and a word on a bus of one digit. They are known without a look for
// their line feed.
ghost use Rattle.std.specs.Prelude.{◌≡◌, ℕ, true, ◌+◌, ◌*◌, ◌^◌, ◌≤◌, [], ◌∷◌, map, IfSome};
ghost use Rattle.ecam_spec.specs.declared.kinds.Event.TheVariants.{Tick};
ghost use Rattle.ecam_spec.specs.Places.{below};
ghost use Rattle.ecam_spec.specs.RecordLine.{bits_of};
ghost use Rattle.record_lines.specs.Line.{worth, IsCommon};

use crate::line::digit_value;
use ecam_kinds::Event;

// More than all digits of a word are worth.
const NO_DIGIT: u64 = 0x1_0000_0000;

// What each byte is worth as a hexadecimal digit at a place that is worth `$p`; where it is none, `$n`.
macro_rules! digits {
    ($p:expr, $n:expr) => {
        [
            $n, $n, $n, $n, $n, $n, $n, $n, $n, $n, $n, $n, $n, $n, $n, $n,
            $n, $n, $n, $n, $n, $n, $n, $n, $n, $n, $n, $n, $n, $n, $n, $n,
            $n, $n, $n, $n, $n, $n, $n, $n, $n, $n, $n, $n, $n, $n, $n, $n,
            0 * $p, 1 * $p, 2 * $p, 3 * $p, 4 * $p, 5 * $p, 6 * $p, 7 * $p, 8 * $p, 9 * $p, $n, $n, $n, $n, $n, $n,
            $n, 10 * $p, 11 * $p, 12 * $p, 13 * $p, 14 * $p, 15 * $p, $n, $n, $n, $n, $n, $n, $n, $n, $n,
            $n, $n, $n, $n, $n, $n, $n, $n, $n, $n, $n, $n, $n, $n, $n, $n,
            $n, 10 * $p, 11 * $p, 12 * $p, 13 * $p, 14 * $p, 15 * $p, $n, $n, $n, $n, $n, $n, $n, $n, $n,
            $n, $n, $n, $n, $n, $n, $n, $n, $n, $n, $n, $n, $n, $n, $n, $n,
            $n, $n, $n, $n, $n, $n, $n, $n, $n, $n, $n, $n, $n, $n, $n, $n,
            $n, $n, $n, $n, $n, $n, $n, $n, $n, $n, $n, $n, $n, $n, $n, $n,
            $n, $n, $n, $n, $n, $n, $n, $n, $n, $n, $n, $n, $n, $n, $n, $n,
            $n, $n, $n, $n, $n, $n, $n, $n, $n, $n, $n, $n, $n, $n, $n, $n,
            $n, $n, $n, $n, $n, $n, $n, $n, $n, $n, $n, $n, $n, $n, $n, $n,
            $n, $n, $n, $n, $n, $n, $n, $n, $n, $n, $n, $n, $n, $n, $n, $n,
            $n, $n, $n, $n, $n, $n, $n, $n, $n, $n, $n, $n, $n, $n, $n, $n,
            $n, $n, $n, $n, $n, $n, $n, $n, $n, $n, $n, $n, $n, $n, $n, $n,
        ]
    };
}

// The tables of the four last places, in one, so that the address of one is known where they are looked up.
const PLACES: [[u64; 256]; 4] = [
    digits!(1, NO_DIGIT),
    digits!(16, 16 * NO_DIGIT),
    digits!(256, 256 * NO_DIGIT),
    digits!(4096, 4096 * NO_DIGIT),
];

// What a hexadecimal digit is worth at a place, by the table of that place.
fn worth_in(table: &[u64; 256], digit: u8) -> u64
    ensures { (place : ℕ) → table.now ≡ map (λ d. place * worth d) (below 256)
        → result ≡ place * worth digit }
{
    table[usize::from(digit)]
}

// What a hexadecimal digit is worth at the last place, and 2^32 for any other byte; and at the places before it so many
// times as much.
fn first(digit: u8) -> u64
    ensures value { result ≡ worth digit }
    ensures bound { result ≤ 2 ^ 32 }
{
    worth_in(&PLACES[0], digit)
}

fn second(digit: u8) -> u64
    ensures value { result ≡ 16 * worth digit }
    ensures bound { result ≤ 16 * 2 ^ 32 }
{
    worth_in(&PLACES[1], digit)
}

fn third(digit: u8) -> u64
    ensures value { result ≡ 256 * worth digit }
    ensures bound { result ≤ 256 * 2 ^ 32 }
{
    worth_in(&PLACES[2], digit)
}

fn fourth(digit: u8) -> u64
    ensures value { result ≡ 4096 * worth digit }
    ensures bound { result ≤ 4096 * 2 ^ 32 }
{
    worth_in(&PLACES[3], digit)
}

// What four bytes are worth together, highest first.
fn four(a: u8, b: u8, c: u8, d: u8) -> u64
    ensures value { result ≡ 4096 * worth a + 256 * worth b + 16 * worth c + worth d }
    ensures bound { result ≤ 4369 * 2 ^ 32 }
{
    fourth(a) + third(b) + second(c) + first(d)
}

// The bits of eight hexadecimal digits, highest first.
#[inline(always)]
fn bits(a: u8, b: u8, c: u8, d: u8, e: u8, f: u8, g: u8, h: u8) -> Option<u32>
    ensures { result ≡ bits_of (a ∷ b ∷ c ∷ d ∷ e ∷ f ∷ g ∷ h ∷ []) }
{
    let bits = 65536 * four(a, b, c, d) + four(e, f, g, h);
    if bits < NO_DIGIT {
        Some(bits as u32)
    } else {
        None
    }
}

// Whether the line that stands at the head of these bytes is a Tick, whose line feed is the second byte.
#[inline(always)]
pub(crate) fn is_tick_line(bytes: &[u8]) -> bool
    ensures { result ≡ true → IsCommon bytes.now (Tick, 1) }
{
    match bytes {
        [b'T', b'\n', ..] => true,
        _ => false,
    }
}

// The word of the line that stands at the head of these bytes, where it is one on a bus of one digit, whose line feed is
// the thirteenth byte.
#[inline(always)]
pub(crate) fn word_line(bytes: &[u8]) -> Option<Event>
    ensures { IfSome result (λ e. IsCommon bytes.now (e, 12)) }
{
    match bytes {
        [b'W', b' ', bus, b' ', a, b, c, d, e, f, g, h, b'\n', ..] => {
            let bus = digit_value(*bus)?;
            let bits = bits(*a, *b, *c, *d, *e, *f, *g, *h)?;
            Some(Event::Word { bus, bits })
        }
        _ => None,
    }
}
