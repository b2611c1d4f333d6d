// Worked records, a line each, with bars between: a book's name, the record, what is shown of it, how the output ends, and
// where each alert of the book stands at the record's end, as `Debug` writes it. A slash stands for a line feed.
use crate::books::book_named;

// One record of a book without a fault.
#[derive(Clone, Copy)]
pub(crate) struct Worked<'a> {
    pub(crate) book: &'static str,
    pub(crate) record_text: &'a str,
    pub(crate) shown: &'a str,
    pub(crate) end: &'a str,
    pub(crate) standings: &'a str,
}

// The record of a line.
pub(crate) fn row_of(line: &str) -> Option<Worked<'_>> {
    let mut columns = line.split('|');
    let book = book_named(columns.next()?.trim())?;
    let record_text = columns.next()?.trim();
    let shown = columns.next()?.trim();
    let end = columns.next()?.trim();
    let standings = columns.next()?.trim();
    Some(Worked {
        book,
        record_text,
        shown,
        end,
        standings,
    })
}

pub(crate) const RECORDS: &str = "\
ADVISORY | E/ | | END 0/ | Quiet/
ADVISORY | W 0 0000041d/T/E/ | @0/L1 A HYD G RSVR LO LVL/ | END 1/ | Titled { row: 1 }/
ADVISORY | W 0 8000041d/T/E/ | | END 1/ | Quiet/
ADVISORY | W 0 6000041d/T/E/ | | END 1/ | Quiet/
ADVISORY | W 0 0000041d/W 0 8000001d/T/E/ | | END 1/ | Quiet/
CAUTION | W 0 0000041D/T/T/T/T/T/T/E/ | @0/L1 A HYD G RSVR LO LVL/MC A MASTER CAUT/AU W SC/@5/AU -/ | END 6/ | Titled { row: 1 }/
CONFIRMED | W 0 0000041d/T/T/T/W 0 8000001d/T/W 0 0000041d/T/T/T/T/E/ | @7/L1 A HYD G RSVR LO LVL/MC A MASTER CAUT/AU W SC/ | END 8/ | Titled { row: 1 }/
SHORT_LIVED | W 0 0000041d/T/T/T/T/E/ | @0/L1 A HYD G RSVR LO LVL/MC A MASTER CAUT/AU W SC/@3/L1 -/MC -/AU -/ | END 4/ | Quiet/
INHIBITED | W 0 00000417/T/W 0 80000c17/T/W 0 00001c17/T/W 0 80003c17/W 0 0000041d/T/W 0 00007017/T/W 0 8000a017/T/E/ | @5/L1 A HYD G RSVR LO LVL/MC A MASTER CAUT/AU W SC/ | END 6/ | Titled { row: 1 }/
INHIBITED | W 0 00000417/T/W 0 80000c17/W 0 0000041d/T/W 0 00001c17/T/W 0 80003c17/T/W 0 00007017/T/W 0 8000a017/T/E/ | @1/L1 A HYD G RSVR LO LVL/MC A MASTER CAUT/AU W SC/ | END 6/ | Titled { row: 1 }/
TWO | W 0 0000041d/T/W 0 0000081d/P CLR/T/E/ | @0/L1 A ALERT X/@1/L1 A ALERT Y/ | END 2/ | Quiet/Titled { row: 1 }/
TWO | W 0 80000c1d/T/P CLR/T/P CLR/P RCL/T/P RCL/T/E/ | @0/L1 A ALERT X/L2 A ALERT Y/@1/L1 A ALERT Y/L2 -/@2/L1 A ALERT X/@3/L2 A ALERT Y/ | END 4/ | Titled { row: 1 }/Titled { row: 2 }/
CAUTION | W 0 0000041d/T/P EMER/T/W 0 8000001d/T/W 0 0000041d/T/P RCL/T/T/T/T/T/T/T/T/T/T/T/T/T/T/T/T/T/T/T/T/T/T/T/T/T/T/T/T/T/T/E/ | @0/L1 A HYD G RSVR LO LVL/MC A MASTER CAUT/AU W SC/@1/L1 -/FL W STS/S01 W CANCELLED CAUTION/S02 A HYD G RSVR LO LVL/MC -/AU -/@2/FL -/S01 G NORMAL/S02 -/@3/FL W STS/S01 W CANCELLED CAUTION/S02 A HYD G RSVR LO LVL/@4/L1 G NORMAL/@33/L1 A HYD G RSVR LO LVL/FL -/S01 G NORMAL/S02 -/MC A MASTER CAUT/ | END 34/ | Titled { row: 1 }/
CAUTION | W 0 0000041d/T/P EMER/T/W 0 8000001d/T/W 0 0000041d/T/P RCL/T/T/T/T/T/T/T/T/T/T/T/T/T/T/T/T/T/T/T/T/T/T/T/T/T/T/T/T/T/R RCL/T/E/ | @0/L1 A HYD G RSVR LO LVL/MC A MASTER CAUT/AU W SC/@1/L1 -/FL W STS/S01 W CANCELLED CAUTION/S02 A HYD G RSVR LO LVL/MC -/AU -/@2/FL -/S01 G NORMAL/S02 -/@3/FL W STS/S01 W CANCELLED CAUTION/S02 A HYD G RSVR LO LVL/@4/L1 G NORMAL/ | END 34/ | Cancelled/
NINE | W 0 0000041d/T/P CLR/T/E/ | @0/L1 A ALERT 1/L2 A ALERT 2/L3 A ALERT 3/L4 A ALERT 4/L5 A ALERT 5/L6 A ALERT 6/L7 A ALERT 7/FL W v OVF 2/@1/L1 A ALERT 2/L2 A ALERT 3/L3 A ALERT 4/L4 A ALERT 5/L5 A ALERT 6/L6 A ALERT 7/L7 A ALERT 8/FL W v OVF 1/ | END 2/ | Cleared/Titled { row: 1 }/Titled { row: 2 }/Titled { row: 3 }/Titled { row: 4 }/Titled { row: 5 }/Titled { row: 6 }/Titled { row: 7 }/Counted/
CONFIRMED_ONCE | W 0 0000041d/F 1/T/T/U 1/F 2/T/F 1/T/U 2/T/W 0 0000041d/T/T/E/ | @1/L1 A HYD G RSVR LO LVL/@3/L1 A FWS FWC 1+2 FAULT/@4/L1 -/@6/L1 A HYD G RSVR LO LVL/ | END 7/ | Titled { row: 1 }/
PROCEDURE | W 0 0000041d/T/W 0 80000c1d/T/E/ | @0/L1 A HYD G RSVR LO LVL/L2 C LINE 1/L3 C LINE 2/L4 C LINE 3/L5 C LINE 4/L6 C LINE 5/L7 C LINE 6/FL W v/@1/L2 C LINE 2/L3 C LINE 3/L4 C LINE 4/L5 C LINE 5/L6 C LINE 6/L7 C LINE 7/FL -/ | END 2/ | Titled { row: 1 }/
HYDRAULICS | W 1 6bb80003/T/W 0 0000041d/T/W 1 e0000003/T/W 0 80000c1d/T/P CLR/T/P STS/T/P RCL/T/E/ | @1/L1 A HYD G RSVR LO LVL/L2 C -G ENG 1 PUMP.....OFF/FL W STS/S01 W HYD/S02 G GREEN PRESS                 3000 PSI/MC A MASTER CAUT/AU W SC/@2/R1 A *HYD/S02 G GREEN PRESS                    0 PSI/@3/L2 -/@4/L1 -/S01 -/S02 -/MC -/AU -/@5/S01 A GREEN HYD/@6/L1 A HYD G RSVR LO LVL/MC A MASTER CAUT/ | END 7/ | Titled { row: 1 }/Starred { primary: 0 }/
HYDRAULICS | W 1 6bb80003/P PG1/T/W 1 0bb80003/T/E/ | @0/S01 W HYD/S02 G GREEN PRESS                 3000 PSI/@1/S02 A GREEN PRESS                   XX PSI/ | END 2/ | Quiet/Quiet/
WARNING | W 0 0000041d/T/P MW/T/E/ | @0/L1 R ENG 1 FIRE/MW R MASTER WARN/AU W CRC/@1/MW -/AU -/ | END 2/ | Titled { row: 1 }/
PAGES | P ALL/T/T/T/T/T/T/T/T/T/T/T/T/T/T/T/T/T/T/T/T/T/T/T/T/T/R ALL/T/E/ | @0/S01 W P1/@10/S01 W P2/@20/S01 W P3/ | END 26/ |
HEALTH | F 1/T/U 1/T/E/ | @0/L1 A FWS FWC 1 FAULT/@1/L1 -/ | END 2/ | Quiet/
INHIBITED | W 0 00000417/T/W 0 80000c17/T/W 0 00001c17/T/W 0 80003c17/W 0 0000041d/T/P RCL/T/W 0 8000a017/T/E/ | @4/L1 A HYD G RSVR LO LVL/@5/MC A MASTER CAUT/AU W SC/ | END 6/ | Titled { row: 1 }/
INHIBITED | W 0 00000417/T/W 0 80000c17/T/W 0 00001c17/T/W 0 80003c17/W 0 0000041d/T/P RCL/T/P CLR/T/E/ | @4/L1 A HYD G RSVR LO LVL/@5/L1 -/ | END 6/ | Waiting/
INHIBITED | W 0 00000417/T/W 0 80000c17/T/W 0 00001c17/T/W 0 80003c17/W 0 0000041d/T/P RCL/T/E/ | @4/L1 A HYD G RSVR LO LVL/ | END 5/ | Titled { row: 1 }/
ADVISORY | T/P CLR/T/E/ | | END 2/ | Quiet/
NINE | W 0 0000041d/T/E/ | @0/L1 A ALERT 1/L2 A ALERT 2/L3 A ALERT 3/L4 A ALERT 4/L5 A ALERT 5/L6 A ALERT 6/L7 A ALERT 7/FL W v OVF 2/ | END 1/ | Titled { row: 1 }/Titled { row: 2 }/Titled { row: 3 }/Titled { row: 4 }/Titled { row: 5 }/Titled { row: 6 }/Titled { row: 7 }/Counted/Counted/
CONFIRMED_ADVISORY | W 0 0000041d/T/T/T/W 0 8000001d/T/W 0 0000041d/T/T/T/T/E/ | @7/L1 A HYD G RSVR LO LVL/ | END 8/ | Titled { row: 1 }/
HELD_ON | W 0 0000041d/T/T/T/E/ | @2/L1 A HYD G RSVR LO LVL/ | END 3/ | Titled { row: 1 }/
ON_A_PRESS | P TOCFG/T/T/E/ | @0/L1 A HYD G RSVR LO LVL/@1/L1 -/ | END 2/ | Quiet/
INHIBITED_ADVISORY | W 0 00000417/T/W 0 80000c17/T/W 0 00001c17/T/W 0 80003c17/W 0 0000041d/T/W 0 00007017/T/W 0 8000a017/T/E/ | @5/L1 A HYD G RSVR LO LVL/ | END 6/ | Titled { row: 1 }/
";

// Takeover inside a moment, both computers down and up again inside one, and lines that change nothing.
pub(crate) const FAILURES: &str = "\
HYDRAULICS | F 2/W 1 6bb80003/U 2/F 1/W 0 0000041d/T/E/ | @0/L1 A HYD G RSVR LO LVL/L2 C -G ENG 1 PUMP.....OFF/FL W STS/S01 W HYD/S02 G GREEN PRESS                 3000 PSI/MC A MASTER CAUT/AU W SC/ | END 1/ | Titled { row: 1 }/Quiet/
HYDRAULICS | W 1 6bb80003/W 0 0000041d/T/E/ | @0/L1 A HYD G RSVR LO LVL/L2 C -G ENG 1 PUMP.....OFF/FL W STS/S01 W HYD/S02 G GREEN PRESS                 3000 PSI/MC A MASTER CAUT/AU W SC/ | END 1/ | Titled { row: 1 }/Quiet/
ADVISORY | W 0 0000041d/F 1/F 2/U 1/T/E/ | | END 1/ | Quiet/
ADVISORY | W 0 0000041d/T/F 1/F 2/U 2/T/E/ | @0/L1 A HYD G RSVR LO LVL/@1/L1 -/ | END 2/ | Quiet/
ADVISORY | F 1/F 2/W 0 0000041d/U 1/T/E/ | | END 1/ | Quiet/
ADVISORY | F 1/F 2/T/T/U 1/T/E/ | @0/L1 A FWS FWC 1+2 FAULT/@2/L1 -/ | END 3/ | Quiet/
CONFIRMED_ONCE | W 0 0000041d/U 1/T/F 2/F 2/T/U 1/U 2/U 2/F 1/F 1/T/E/ | @1/L1 A HYD G RSVR LO LVL/ | END 3/ | Titled { row: 1 }/
TWO | F 1/F 2/P RCL/U 1/W 0 0000041d/T/P CLR/T/U 2/F 1/T/P RCL/T/E/ | @0/L1 A ALERT X/@1/L1 -/@3/L1 A ALERT X/ | END 4/ | Titled { row: 1 }/Quiet/
HEALTH | F 2/F 1/F 1/T/U 2/T/U 1/T/E/ | @0/L1 A FWS FWC 1+2 FAULT/@1/L1 A FWS FWC 1 FAULT/@2/L1 -/ | END 3/ | Quiet/
ADVISORY | W 0 0000041d/T/F 1/T/F 2/E/ | @0/L1 A HYD G RSVR LO LVL/ | END 2/ | Dead/
ADVISORY | W 0 0000041d/F 1/T/F 2/T/E/ | @0/L1 A HYD G RSVR LO LVL/@1/L1 A FWS FWC 1+2 FAULT/ | END 2/ | Dead/
";
