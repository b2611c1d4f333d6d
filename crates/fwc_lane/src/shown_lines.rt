// The flags of the procedure lines, as far as their alerts are shown.
ghost use Rattle.std.specs.Prelude.{◌≡◌, ◌<◌, false, length, slice_set, All};
ghost use Rattle.ecam_spec.specs.Book as plain;
ghost use Rattle.fwc_lane.specs.LineFlags.{AreLineAlerts, KeepsShown};

use crate::flags::set_flag;

/// Notes a line's flag, and answers whether it turned while the alert that has the line is shown.
pub fn note_line(
    flags: &mut Vec<bool>,
    line_alerts: &[u32],
    shown: &[bool],
    line: usize,
    stands: bool,
) -> bool
    requires line { line < length flags.old.items }
    requires alerts { length line_alerts.now ≡ length flags.old.items }
    requires shown { All (λ a. a < length shown.now) line_alerts.now }
    ensures items { flags.new.items ≡ slice_set flags.old.items line stands }
    ensures kept { (b : plain.Book) → AreLineAlerts b line_alerts.now → result ≡ false
        → KeepsShown b shown.now flags.old.items flags.new.items }
{
    if !set_flag(flags, line, stands) {
        return false;
    }
    shown[line_alerts[line] as usize]
}
