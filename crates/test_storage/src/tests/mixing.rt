//! What no clause says: that keys of a pattern are spread over the buckets, otherwise for each secret.
use super::asking::check_few;
use mi_index::hash_values;
use mi_value::{Text, Value};
use std::alloc::{AllocError, Global};
use std::process::Abort;

/// Numbers one behind another, and numbers that end in 17 and in 40 zeros.
const STEPS: [i64; 3] = [1, 1 << 17, 1 << 40];

/// The bucket, of 4,096, of a number.
fn bucket_of(secret: u64, n: i64) -> u64 {
    hash_values(secret, &[Value::Int(n)]) % 4096
}

/// How many of 4,096 buckets get one of as many numbers, each so much greater than the one before.
fn buckets_used(alloc: Global, secret: u64, step: i64) -> Result<usize, AllocError> {
    let mut used = vec![in alloc; false; 4096]?;
    for i in 0..4096i64 {
        if let Some(one) = used.get_mut(bucket_of(secret, i.wrapping_mul(step)) as usize) {
            *one = true;
        }
    }
    Ok(used.iter().filter(|one| **one).count())
}

/// Secrets of the hash.
const SECRETS: [u64; 4] = [0, 1, 0x0123_4567_89AB_CDEF, u64::MAX];

fn assert_spread(rt: &impl Abort, alloc: Global, secret: u64) -> Result<(), AllocError> {
    for step in &STEPS {
        let used = buckets_used(alloc, secret, *step)?;
        assert!(rt; used > 2489, "secret {secret}, step {step}: {used}");
    }
    Ok(())
}

/// By chance it would be 4096 (1 - 1/e) = 2589, and five deviations are 100.
#[test]
fn numbers_of_a_pattern_are_spread(rt: HostRuntime) -> Result<(), AllocError> {
    for secret in &SECRETS {
        assert_spread(&rt, rt.alloc(), *secret)?;
    }
    Ok(())
}

/// The hash of a text of zero bytes.
fn hash_of_zeros(alloc: Global, length: usize) -> Result<u64, AllocError> {
    let mut zeros = String::new(alloc);
    for _ in 0..length {
        zeros.push('\0')?;
    }
    Ok(hash_values(7, &[Value::Text(Text::new(zeros))]))
}

/// Asserts that the hashes of texts of two lengths differ.
fn assert_apart(rt: &impl Abort, hash: u64, other: u64, longer: usize, shorter: usize) {
    assert!(rt; hash != other, "{shorter} and {longer}");
}

/// Texts of 0 to 20 zero bytes have hashes of their own: the length counts.
#[test]
fn lengths_count(rt: HostRuntime) -> Result<(), AllocError> {
    for longer in 1..21 {
        let hash = hash_of_zeros(rt.alloc(), longer)?;
        for shorter in 0..longer {
            let other = hash_of_zeros(rt.alloc(), shorter)?;
            assert_apart(&rt, hash, other, longer, shorter);
        }
    }
    Ok(())
}

/// By chance one of 4,096 numbers has the same bucket for two secrets; ten are out of question.
#[test]
fn buckets_are_others_for_each_secret(rt: HostRuntime) {
    let same = (0..4096i64)
        .filter(|n| bucket_of(1, *n) == bucket_of(2, *n))
        .count();
    check_few(&rt, same as u64, 9, "numbers have the same bucket");
}
