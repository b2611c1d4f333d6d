// The numbers of operands.
ghost use Rattle.std.specs.Prelude.{◌≡◌, ◌<◌};
ghost use Rattle.ecam_spec.specs.Keys.{IsKey, key_number};

use ecam_kinds::Key;

/// How many parameters and alerts a book has.
#[derive(Clone, Copy, Debug, PartialEq, Eq)]
pub struct Sizes {
    pub params: usize,
    pub alerts: usize,
}

/// The number of a key among all.
pub fn key_place(key: Key) -> usize
    requires { IsKey key }
    ensures place { result ≡ key_number key }
    ensures bound { result < 25 }
{
    match key {
        Key::Clr => 0,
        Key::Rcl => 1,
        Key::Sts => 2,
        Key::All => 3,
        Key::Emer => 4,
        Key::ToCfg => 5,
        Key::Mw => 6,
        Key::Mc => 7,
        Key::Page(page) => 8 + usize::from(page),
    }
}
