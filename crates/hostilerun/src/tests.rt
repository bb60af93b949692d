//! The numbers that decide a run, and a run that the stored one is not.
use hostile_frames::run;
use peer_frames::random::Random;
use std::test::Fail;

// The first numbers of seed 1234567, as other programs give them.
const FIRST: [u64; 5] = [
    6457827717110365317,
    3203168211198807973,
    9817491932198370423,
    4593380528125082431,
    16408922859458223821,
];

#[test]
fn numbers_are_those_of_splitmix64(rt: HostRuntime) {
    let mut random = Random::new(1234567);
    for number in FIRST {
        assert_eq!(rt; random.next(), number);
    }
}

#[test]
fn checks_hold_in_ten_thousand_frames(rt: HostRuntime) -> Result<(), Fail> {
    let reached = run(rt.alloc(), 2, 10_000)?;
    assert_eq!(rt; reached.frames, 10_000);
    assert_ne!(rt; reached.exchanges, 0, "nothing was resumed");
    assert_ne!(rt; reached.outcomes, 0, "no outcome returned");
    assert_ne!(rt; reached.complete, 0, "no delivery was complete");
    Ok(())
}
