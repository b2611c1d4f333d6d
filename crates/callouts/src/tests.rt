// Descents moment by moment. The expected calls were read off the rules by hand.
use super::Callouts;

#[test]
fn descents_have_their_calls(rt: HostRuntime) {
    // One descent a list: the value of each moment, and what is called in it.
    let descents: [&[(Option<i64>, Option<u32>)]; 8] = [
        // a height is called again only after a value more than 10 above it, and the least of two is called
        &[
            (Some(120), None),
            (Some(95), Some(100)),
            (Some(95), None),
            (Some(110), None),
            (Some(95), None),
            (Some(130), None),
            (Some(45), Some(50)),
        ],
        // the descent of docs/callouts.md
        &[
            (Some(2600), None),
            (Some(2480), Some(2500)),
            (Some(1010), None),
            (Some(995), Some(1000)),
            (Some(520), None),
            (None, None),
            (Some(480), Some(500)),
            (Some(509), None),
            (Some(495), None),
            (Some(405), None),
            (Some(290), Some(300)),
            (Some(105), Some(200)),
            (Some(98), Some(100)),
            (Some(130), None),
            (Some(99), Some(100)),
            (Some(55), None),
            (Some(48), Some(50)),
            (Some(36), Some(40)),
            (Some(27), Some(30)),
            (Some(18), Some(20)),
            (Some(9), Some(10)),
            (Some(0), None),
        ],
        // from above all heights to below all of them at once
        &[(Some(3000), None), (Some(5), Some(10)), (Some(4), None)],
        // exactly the margin is too little
        &[
            (Some(2510), None),
            (Some(2500), None),
            (Some(990), Some(1000)),
        ],
        &[
            (Some(2511), None),
            (Some(2501), None),
            (Some(2500), Some(2500)),
        ],
        // a moment without a value calls nothing, and what was armed before stays so
        &[
            (Some(120), None),
            (None, None),
            (None, None),
            (Some(95), Some(100)),
        ],
        &[
            (Some(95), None),
            (None, None),
            (Some(95), None),
            (Some(45), Some(50)),
        ],
        // the first value comes from nowhere
        &[(None, None), (Some(95), None), (Some(-40), Some(10))],
    ];
    let mut callouts = Callouts::new(0);
    for descent in descents {
        callouts.clear();
        for (value, call) in descent {
            assert_eq!(rt; callouts.step(*value), *call);
        }
    }
}
