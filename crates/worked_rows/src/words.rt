// The readings of ARINC 429 words.

ghost use Rattle.std.specs.Prelude.{◌≡◌, Some, None, pos, neg_ℤ};
ghost use Rattle.ecam_spec.specs.Word.{label};
ghost use Rattle.ecam_spec.specs.Reading.{binary, decimal};

/// Numbers in binary: the least, the greatest, what is rounded down, the coarsest; none where the SSM isn't 11.
pub fn readings_in_binary()
    ensures least { binary 11 1000 0x70000000 ≡ Some (neg_ℤ (pos 1000)) }
    ensures greatest { binary 11 1000 0x6ffffc00 ≡ Some (pos 999) }
    ensures rounded_down { binary 11 1000 0x7ffffc00 ≡ Some (neg_ℤ (pos 1)) }
    ensures coarsest { binary 28 1000 0x68000000 ≡ Some (pos 500) }
    ensures not_normal { binary 11 1000 0x10000000 ≡ None }
{}

/// Numbers in decimal: plus, minus; none where the SSM is 01 or a digit is above 9.
pub fn readings_in_decimal()
    ensures plus { decimal 0x048d1400 ≡ Some (pos 12345) }
    ensures minus { decimal 0x648d1400 ≡ Some (neg_ℤ (pos 12345)) }
    ensures not_normal { decimal 0x248d1400 ≡ None }
    ensures no_digit { decimal 0x048d2800 ≡ None }
{}

/// The label's most significant bit is bit 1.
pub fn the_label_is_read_from_bit_one()
    ensures { label 0x0000041d ≡ 0o270 }
{}
