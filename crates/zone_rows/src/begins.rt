// Where the zones of a picture begin.
use ecam_spec::limits;

/// L1, the first row of the left zone.
pub const LEFT: usize = 0;

/// R1, the first row of the right zone.
pub const RIGHT: usize = LEFT + limits::ZONE_ROWS;

/// FL, the row of the flags.
pub const FLAGS: usize = RIGHT + limits::ZONE_ROWS;

/// S01, the first row of the system display.
pub const DISPLAY: usize = FLAGS + 1;

/// MW, the first of the rows of the lamps and the aural warning.
pub const LAMPS: usize = DISPLAY + limits::DISPLAY_ROWS;
