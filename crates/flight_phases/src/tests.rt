// Whole flights, each moment with its phase. The expected phases were read off the rules by hand.
use super::{PhaseInputs, PhaseState};

// The inputs that hold are named by their letters: on Ground, Run, Take-off power, Fast, High, Low.
fn inputs_of(letters: &[u8]) -> PhaseInputs {
    PhaseInputs {
        gnd: letters.contains(&b'G'),
        run: letters.contains(&b'R'),
        tp: letters.contains(&b'T'),
        fast: letters.contains(&b'F'),
        high: letters.contains(&b'H'),
        low: letters.contains(&b'L'),
    }
}

#[test]
fn flights_have_their_phases(rt: HostRuntime) {
    // One flight is all rows up to one without letters: inputs, for how many moments, the phase of each.
    let rows: [(&[u8], u32, u8); 116] = [
        // a whole day: a flight with a rejected take-off and a go-around, shutdown, and the next day
        (b"", 0, 0),
        (b"G", 1, 1),
        (b"GR", 1, 2),
        (b"GRT", 1, 3),
        (b"GR", 1, 2),
        (b"GRT", 1, 3),
        (b"GRTF", 1, 4),
        (b"GRF", 1, 8),
        (b"GR", 1, 9),
        (b"GRT", 1, 3),
        (b"GRTF", 1, 4),
        (b"TFL", 1, 5),
        (b"FH", 1, 6),
        (b"FL", 1, 7),
        (b"TFL", 1, 5),
        (b"FH", 1, 6),
        (b"F", 1, 6),
        (b"FL", 1, 7),
        (b"GRF", 1, 8),
        (b"GR", 1, 9),
        (b"G", 3000, 10),
        (b"G", 1, 1),
        (b"GR", 1, 2),
        // take-offs rejected before and after the aircraft is fast
        (b"", 0, 0),
        (b"GR", 1, 2),
        (b"GRT", 1, 3),
        (b"GR", 1, 2),
        (b"G", 1, 1),
        (b"GR", 1, 2),
        (b"GRT", 1, 3),
        (b"GRTF", 1, 4),
        (b"GRF", 1, 8),
        (b"GR", 1, 9),
        (b"GRT", 1, 3),
        (b"GRTF", 1, 4),
        (b"GR", 1, 9),
        (b"G", 1, 10),
        (b"GR", 1, 2),
        // a go-around from phase 7, with no marks for a while, then one from phase 6
        (b"", 0, 0),
        (b"GRTF", 1, 4),
        (b"TFL", 1, 5),
        (b"FH", 1, 6),
        (b"FL", 1, 7),
        (b"TFL", 1, 5),
        (b"F", 1, 5),
        (b"FH", 1, 6),
        (b"F", 1, 6),
        (b"TF", 1, 6),
        (b"TFL", 1, 5),
        (b"FL", 1, 5),
        (b"TFH", 1, 6),
        (b"FL", 1, 7),
        (b"GRF", 1, 8),
        // restarts within five minutes of shutdown, and after
        (b"", 0, 0),
        (b"GRTF", 1, 4),
        (b"GR", 1, 9),
        (b"G", 5, 10),
        (b"GR", 1, 2),
        (b"G", 1, 1),
        (b"GRF", 1, 8),
        (b"G", 2999, 10),
        (b"GR", 1, 2),
        (b"GRF", 1, 8),
        (b"GR", 1, 9),
        (b"G", 3000, 10),
        (b"G", 3, 1),
        (b"GR", 1, 2),
        (b"G", 1, 1),
        // begins in the air, without a high mark
        (b"", 0, 0),
        (b"L", 1, 5),
        (b"F", 1, 5),
        (b"FL", 1, 5),
        (b"TFL", 1, 5),
        (b"FH", 1, 6),
        (b"FL", 1, 7),
        (b"G", 1, 10),
        (b"GR", 1, 2),
        // begins in the air, high
        (b"", 0, 0),
        (b"FH", 1, 6),
        (b"L", 1, 7),
        (b"F", 1, 7),
        (b"G", 1, 10),
        // high and low at once is high
        (b"", 0, 0),
        (b"GRTF", 1, 4),
        (b"FHL", 1, 6),
        (b"FL", 1, 7),
        (b"TFHL", 1, 6),
        (b"HL", 1, 6),
        (b"L", 1, 7),
        (b"HL", 1, 6),
        (b"F", 1, 6),
        // the engines stop in the air
        (b"", 0, 0),
        (b"GR", 1, 2),
        (b"GRTF", 1, 4),
        (b"RTFL", 1, 5),
        (b"RFH", 1, 6),
        (b"FH", 1, 6),
        (b"FL", 1, 7),
        (b"GF", 1, 10),
        (b"G", 1, 10),
        (b"GR", 1, 2),
        (b"G", 1, 1),
        // touches down and lifts off again
        (b"", 0, 0),
        (b"FH", 1, 6),
        (b"FL", 1, 7),
        (b"GRF", 1, 8),
        (b"F", 1, 5),
        (b"FL", 1, 5),
        (b"FH", 1, 6),
        (b"GRTF", 1, 4),
        (b"TF", 1, 5),
        // fast without an engine is no trip
        (b"", 0, 0),
        (b"GF", 1, 1),
        (b"GR", 1, 2),
        (b"GF", 1, 1),
        (b"G", 1, 1),
    ];
    let mut state = PhaseState::new();
    for (row, (letters, times, phase)) in rows.iter().enumerate() {
        if *times == 0 {
            state = PhaseState::new();
        }
        for _ in 0..*times {
            let answer = state.step(&inputs_of(letters));
            assert_eq!(rt; answer.number, *phase, "row {row}");
        }
    }
}
