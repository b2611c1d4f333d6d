// Whether two short words are the same.
ghost use Rattle.std.specs.Prelude.{◌≡◌};
ghost use Rattle.ecam_spec.specs.Bytes.{same_text};

/// Whether two words are the same, byte after byte: of a few bytes that is less work than a comparison of long texts.
pub fn is_same(one: &[u8], other: &[u8]) -> bool
    ensures { result ≡ same_text one.now other.now }
{
    if one.len() != other.len() {
        return false;
    }
    for (i, byte) in one.iter().enumerate() {
        if *byte != other[i] {
            return false;
        }
    }
    true
}
