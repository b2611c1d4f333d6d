//! What the zones of a picture make together, as theorems: each is the contract of a function that does nothing.
ghost use Rattle.std.specs.Prelude.{◌≡◌, ℕ, ◌+◌, ◌≤◌, List, ◌++◌, length};
ghost use Rattle.ecam_spec.specs.Picture.{Row};
ghost use Rattle.zone_rows.specs.Tracked.{TrackedRows, IsWhole};
ghost use Rattle.zone_rows.specs.Mended.{Mends};
ghost use Rattle.zone_rows.specs.Zones.{HaveZoneLengths, StandAt, ZonesStand, IsMended};

/// The five zones, mended one after another, are the whole picture, and exactly the rows that differ from what
/// they were are told as changed.
pub fn five_zones_make_a_picture()
    ensures { (left right flags display lamps : List Row)
        → HaveZoneLengths left right flags display lamps
        → (s a b c d e : TrackedRows) → IsWhole s
        → Mends 0 left s a → Mends 7 right a b → Mends 14 flags b c → Mends 15 display c d
        → Mends 33 lamps d e
        → IsMended (left ++ right ++ flags ++ display ++ lamps) s e }
{}

/// A zone that stands already may be left alone: it is mended as it is.
pub fn a_zone_that_stands_is_mended()
    ensures { (at : ℕ) (put : List Row) (t : TrackedRows) → StandAt at put t.rows
        → Mends at put t t }
{}

/// The zones of a picture stand in it, and each still stands after one before it was mended.
pub fn zones_stand_until_they_are_mended()
    ensures stand { (left right flags display lamps : List Row)
        → HaveZoneLengths left right flags display lamps
        → ZonesStand left right flags display lamps (left ++ right ++ flags ++ display ++ lamps) }
    ensures behind { (at : ℕ) (put : List Row) (old new : TrackedRows) (from : ℕ) (these : List Row)
        → at + length put ≤ length old.rows → at + length put ≤ from
        → Mends at put old new → StandAt from these old.rows → StandAt from these new.rows }
{}
