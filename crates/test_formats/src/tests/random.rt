//! Draws of random numbers, compared with those that Python's whole numbers make.
use super::asking::{check, check_number};
use mi_random::Random;
use std::process::Abort;

/// The draws of the seed 1 below 100.
const BELOW_100: [u64; 6] = [74, 53, 96, 70, 34, 95];

/// Those of the seed 2026 below several numbers.
const BELOW: [(u64, u64); 4] = [(1, 0), (0, 0), (u64::MAX, 1_710_264_253), (10, 3)];

/// Whether those of the seed 1 are one in two.
const ONE_IN_2: [bool; 6] = [true, false, true, true, true, false];

fn assert_below_100(rt: &impl Abort, random: &mut Random) {
    for want in &BELOW_100 {
        check_number(rt, random.below(100), *want, "below 100");
    }
}

fn assert_below(rt: &impl Abort, random: &mut Random) {
    for (n, want) in &BELOW {
        let got = random.below(*n);
        assert_eq!(rt; got, *want, "below {n}");
    }
}

fn assert_one_in_2(rt: &impl Abort, random: &mut Random) {
    for want in &ONE_IN_2 {
        check(rt, random.is_one_in(2) == *want, "one in two");
    }
}

/// The draws of two seeds.
#[test]
fn draws_are_those_of_the_generator(rt: HostRuntime) {
    assert_below_100(&rt, &mut Random::new(1));
    assert_below(&rt, &mut Random::new(2_026));
    assert_one_in_2(&rt, &mut Random::new(1));
}
