// The lights and the sound.

ghost use Rattle.std.specs.Prelude.{◌≡◌, ℕ, false, not, ◌&&◌, ◌||◌};
ghost use Rattle.std.specs.List.{list_any};
ghost use Rattle.ecam_spec.specs.declared.kinds.Sound.TheVariants.{Quiet};
ghost use Rattle.ecam_spec.specs.Past.{previous};
ghost use Rattle.ecam_spec.specs.Alert.{onset};
ghost use Rattle.ecam_spec.specs.Lamps.{Attention, acknowledges, is_open, warns, cautions, sound};

/// An onset is open from its moment on, until a press of a later moment acknowledges it.
#[tactic(auto, using(crate::proofs::LampLaws::open_now))]
pub fn an_onset_is_open_until_acknowledged()
    ensures { (a : Attention) (i k : ℕ) → is_open a i k
        ≡ (onset (a.up i) k || (not (acknowledges a (a.level i) k) && previous (is_open a i) k)) }
{}

/// Where nothing that is shown is up, no light is lit and nothing sounds.
#[tactic(auto, using(crate::proofs::LampLaws::dark_warns, crate::proofs::LampLaws::dark_cautions, crate::proofs::LampLaws::dark_sound))]
pub fn a_recalled_alert_has_no_light()
    ensures warns { (a : Attention) (k : ℕ) → list_any (λ i. a.up i k) (a.shown k) ≡ false
        → warns a k ≡ false }
    ensures cautions { (a : Attention) (k : ℕ) → list_any (λ i. a.up i k) (a.shown k) ≡ false
        → cautions a k ≡ false }
    ensures sound { (a : Attention) (k : ℕ) → list_any (λ i. a.up i k) (a.shown k) ≡ false
        → sound a k ≡ Quiet }
{}
