ghost use Rattle.std.specs.Prelude.{◌≡◌, ◌≤◌, ◌<◌, ◌+◌, ◌-◌, ◌^◌, pos, neg_ℤ, ◌≤ℤ◌, ◌*ℤ◌, IfSome, IsTrue};
ghost use Rattle.std.specs.Int.{int_div_euclid};
ghost use Rattle.ecam_spec.specs.declared.limits.TheConstants.{NUMBER};
ghost use Rattle.arinc_words.specs.Composed.{joined, made_odd};

use std::marker::Model;

/// An ARINC 429 word (Part 1): 32 bits, numbered from 1, of which bit 1 is the least of `bits`.
pub struct Word {
    bits: u32,
}

impl Model for Word {
    ghost use Rattle.std.specs.Prelude.{ℕ};
    ghost use Rattle.std.specs.Coded.{coded_ℕ};

    ghost Value = { ℕ };

    ghost coded = { coded_ℕ };

    ghost view = { λ w. w.bits };

    ghost inverse = { λ n. record { bits = n } };
}

impl Clone for Word {
    ghost use Rattle.std.specs.Prelude.{◌≡◌, ⊤};

    ghost is_clone = { λ v w. w ≡ v };

    ghost is_infallible = { λ v. ⊤ };

    fn clone(&self) -> Result<Self, std::alloc::AllocError> {
        Ok(*self)
    }
}

impl Copy for Word {}

impl Word {
    ghost use Rattle.ecam_spec.specs.Word as fields;
    ghost use Rattle.ecam_spec.specs.Reading.{discrete, raw, binary, digit, has_digits, decimal_number, decimal};
    ghost use Rattle.arinc_words.specs.Composed.{composed};

    /// The word with these bits, bit 1 the least.
    pub fn new(bits: u32) -> Word
        ensures { result ≡ bits }
    {
        Word { bits }
    }

    /// The sound word of these fields: the label, whose most significant bit becomes bit 1, the SDI, 0 to 3, the data
    /// `field`, whose least bit becomes bit 11, and the SSM, 0 to 3. Bit 32 makes the parity odd.
    #[tactic(auto, unfolding(crate::specs::Composed::composed))]
    pub fn compose(label: u8, sdi: u8, field: u32, ssm: u8) -> Word
        requires sdi { sdi ≤ 3 }
        requires field { field < 2 ^ 19 }
        requires ssm { ssm ≤ 3 }
        ensures label { fields.label result ≡ label }
        ensures sdi { fields.sdi result ≡ sdi }
        ensures field { digit 11 19 result ≡ field }
        ensures ssm { fields.ssm result ≡ ssm }
        ensures odd { IsTrue (fields.is_odd result) }
        ensures word { result ≡ composed label sdi field ssm }
    {
        with_odd_parity(join(label, sdi, field, ssm))
    }

    /// The word's bits, bit 1 the least.
    pub fn bits(&self) -> u32
        ensures { result ≡ self.now }
    {
        self.bits
    }

    /// The label, bits 1 to 8, of which bit 1 is the most significant. Its three octal digits are its usual name.
    #[tactic(auto, using(crate::proofs::Bits::label_bits))]
    pub fn label(&self) -> u8
        ensures { result ≡ fields.label self.now }
    {
        ((self.bits & 0xff) as u8).reverse_bits()
    }

    /// The source/destination identifier, bits 9 and 10: 0 to 3.
    #[tactic(auto, using(crate::proofs::Bits::sdi_bits))]
    pub fn sdi(&self) -> u8
        ensures { result ≡ fields.sdi self.now }
    {
        (self.bits >> 8 & 3) as u8
    }

    /// The sign/status matrix, bits 30 and 31: 0 to 3, of which bit 31 counts 2.
    #[tactic(auto, using(crate::proofs::Bits::ssm_bits))]
    pub fn ssm(&self) -> u8
        ensures { result ≡ fields.ssm self.now }
    {
        (self.bits >> 29 & 3) as u8
    }

    /// Whether the parity is odd, as of each sound word.
    #[tactic(auto, using(crate::proofs::Bits::odd_bits))]
    pub fn odd(&self) -> bool
        ensures { result ≡ fields.is_odd self.now }
    {
        self.bits.count_ones() % 2 == 1
    }

    /// A discrete: bit 11 to 29 as 0 or 1. `None` exactly where the SSM isn't 00, normal operation.
    #[tactic(auto, using(crate::proofs::Bits::one_bit), unfolding(ecam_spec::specs::Reading::discrete))]
    pub fn disc(&self, bit: u8) -> Option<i64>
        requires first { 11 ≤ bit }
        requires last { bit ≤ 29 }
        ensures { result ≡ discrete bit self.now }
    {
        if self.ssm() == 0 {
            Some(i64::from(self.bits >> (bit - 1) & 1))
        } else {
            None
        }
    }

    /// A number in two's complement: bit 29 is the sign, and bit 28 is worth half the range, so that with
    /// n = 29 - `low` the bits from `low` up are a number of 2^n steps to the range. What is less than a
    /// whole number is rounded down. `None` exactly where the SSM isn't 11, normal operation.
    #[tactic(auto, unfolding(ecam_spec::specs::Reading::binary))]
    pub fn bnr(&self, low: u8, range: u32) -> Option<i64>
        requires lowest { 11 ≤ low }
        requires highest { low ≤ 28 }
        requires some { 1 ≤ range }
        requires at_most { range ≤ NUMBER }
        ensures value { result ≡ binary low range self.now }
        ensures least { IfSome result (λ v. neg_ℤ (pos range) ≤ℤ v) }
        ensures greatest { IfSome result (λ v. v ≤ℤ pos range) }
    {
        if self.ssm() == 3 {
            Some(scaled(self.signed(low), range, 29 - low))
        } else {
            None
        }
    }

    /// A number of five decimal digits, plus with SSM 00 and minus with SSM 11. `None` exactly where the SSM is
    /// 01 or 10, or a digit is above 9.
    #[tactic(auto, unfolding(ecam_spec::specs::Reading::decimal))]
    pub fn bcd(&self) -> Option<i64>
        ensures value { result ≡ decimal self.now }
        ensures least { IfSome result (λ v. neg_ℤ (pos 79999) ≤ℤ v) }
        ensures greatest { IfSome result (λ v. v ≤ℤ pos 79999) }
    {
        if !self.has_digits() {
            return None;
        }
        let number = i64::from(self.number());
        match self.ssm() {
            0 => Some(number),
            3 => Some(-number),
            _ => None,
        }
    }

    // The bits from `first` on as a number, `first` the least.
    #[tactic(auto, using(crate::proofs::Fields::field_bits))]
    fn field(&self, first: u8, width: u8) -> u32
        requires begin { 1 ≤ first }
        requires end { first + width ≤ 32 }
        ensures value { result ≡ digit first width self.now }
        ensures bound { result < 2 ^ width }
    {
        self.bits >> (first - 1) & ((1 << width) - 1)
    }

    // The bits from `low` to 29 as a number in two's complement.
    #[tactic(auto, unfolding(ecam_spec::specs::Reading::raw))]
    fn signed(&self, low: u8) -> i64
        requires lowest { 11 ≤ low }
        requires highest { low ≤ 28 }
        ensures value { result ≡ raw low self.now }
        ensures least { neg_ℤ (pos (2 ^ (29 - low))) ≤ℤ result }
        ensures greatest { result ≤ℤ pos (2 ^ (29 - low)) }
    {
        let magnitude = i64::from(self.field(low, 29 - low));
        let sign = i64::from(self.field(29, 1) << (29 - low));
        magnitude - sign
    }

    // No decimal digit is above 9. The first has three bits.
    fn has_digits(&self) -> bool
        ensures { result ≡ has_digits self.now }
    {
        self.field(23, 4) <= 9
            && self.field(19, 4) <= 9
            && self.field(15, 4) <= 9
            && self.field(11, 4) <= 9
    }

    // The number that the five decimal digits are.
    fn number(&self) -> u32
        ensures value { result ≡ decimal_number self.now }
        ensures bound { IsTrue (has_digits self.now) → result ≤ 79999 }
    {
        self.field(27, 3) * 10000
            + self.field(23, 4) * 1000
            + self.field(19, 4) * 100
            + self.field(15, 4) * 10
            + self.field(11, 4)
    }
}

// A number of 2^`bits` steps to the range, rounded down.
fn scaled(steps: i64, range: u32, bits: u8) -> i64
    requires least { neg_ℤ (pos (2 ^ bits)) ≤ℤ steps }
    requires greatest { steps ≤ℤ pos (2 ^ bits) }
    requires range { range ≤ NUMBER }
    requires bits { bits ≤ 18 }
    ensures value { result ≡ int_div_euclid (steps *ℤ pos range) (pos (2 ^ bits)) }
    ensures least { neg_ℤ (pos range) ≤ℤ result }
    ensures greatest { result ≤ℤ pos range }
{
    (steps * i64::from(range)).div_euclid(1 << bits)
}

// The fields side by side. Bit 32 is 0.
fn join(label: u8, sdi: u8, field: u32, ssm: u8) -> u32
    requires sdi { sdi ≤ 3 }
    requires field { field < 2 ^ 19 }
    requires ssm { ssm ≤ 3 }
    ensures word { result ≡ joined label sdi field ssm }
    ensures open_parity { result < 2 ^ 31 }
{
    u32::from(ssm) << 29 | field << 10 | u32::from(sdi) << 8 | u32::from(label.reverse_bits())
}

// The same word with odd parity.
#[tactic(auto, unfolding(crate::specs::Composed::made_odd))]
fn with_odd_parity(bits: u32) -> Word
    requires { bits < 2 ^ 31 }
    ensures { result ≡ made_odd bits }
{
    let word = Word::new(bits);
    if word.odd() {
        word
    } else {
        Word::new(bits | 1 << 31)
    }
}
