// What FL tells of.
use warning_display::LeftCount;

/// What FL tells of: what of the left zone and of the right stands beyond their rows, and whether the status page has any
/// row.
#[derive(Clone, Copy, Debug, PartialEq, Eq)]
pub struct FlagCounts {
    pub left: LeftCount,
    pub right: u32,
    pub status: bool,
}

impl FlagCounts {
    /// Nothing.
    pub fn none() -> FlagCounts {
        FlagCounts {
            left: LeftCount {
                beyond: 0,
                more: false,
            },
            right: 0,
            status: false,
        }
    }
}
