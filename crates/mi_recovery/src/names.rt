//! The paths of a journal's files: its segments, its base, and a base that isn't whole yet. It opens none.
ghost use Rattle.std.specs.Prelude.{◌≡◌, ◌-◌, length, replicate, IfOk, IfSome};
ghost use Rattle.std.specs.String.{string_bytes};
ghost use Rattle.mi_recovery.specs.Names.{segment_name, base_name, new_base_name, next_name};

use std::alloc::{AllocError, Global};

/// As many zeros as so many digits lack of six.
fn zeros_before(digits: usize) -> &'static str
    ensures { result.now ≡ replicate (6 - digits) 48 }
{
    match digits {
        0 => "000000",
        1 => "00000",
        2 => "0000",
        3 => "000",
        4 => "00",
        5 => "0",
        _ => "",
    }
}

/// The path of the segment with this number: of the first the journal's own, of others with a dot and the number behind it, which has six
/// digits at least.
pub fn segment_path(alloc: Global, path: &str, number: u64) -> Result<String, AllocError>
    ensures { IfOk result (λ name. string_bytes name ≡ segment_name path.now number) }
{
    let mut name = String::from_str(alloc, path)?;
    if number <= 1 {
        return Ok(name);
    }
    let digits = number.to_string(alloc)?;
    name.push_str(".")?;
    name.push_str(zeros_before(digits.len()))?;
    name.push_str(digits.as_str())?;
    Ok(name)
}

/// The path of a journal's base.
pub fn base_path(alloc: Global, path: &str) -> Result<String, AllocError>
    ensures { IfOk result (λ name. string_bytes name ≡ base_name path.now) }
{
    let mut name = String::from_str(alloc, path)?;
    name.push_str(".base")?;
    Ok(name)
}

/// The path of a base that isn't whole yet: it is renamed once it is.
pub fn new_base_path(alloc: Global, path: &str) -> Result<String, AllocError>
    ensures { IfOk result (λ name. string_bytes name ≡ new_base_name path.now) }
{
    let mut name = String::from_str(alloc, path)?;
    name.push_str(".base.new")?;
    Ok(name)
}

/// The path of a segment that isn't begun yet: it is renamed once it is.
pub fn next_path(alloc: Global, path: &str) -> Result<String, AllocError>
    ensures { IfOk result (λ name. string_bytes name ≡ next_name path.now) }
{
    let mut name = String::from_str(alloc, path)?;
    name.push_str(".next")?;
    Ok(name)
}

/// The number of the segment that a file's name is, where the first one has the name `first`; none where it isn't one's.
pub fn segment_number(alloc: Global, first: &str, name: &str) -> Result<Option<u64>, AllocError>
    ensures { IfOk result (λ number. IfSome number (λ n. segment_name first.now n ≡ name.now)) }
{
    if name == first {
        return Ok(Some(1));
    }
    let Some((_, digits)) = name.rsplit_once('.') else {
        return Ok(None);
    };
    let Ok(number) = digits.parse::<u64>() else {
        return Ok(None);
    };
    let path = segment_path(alloc, first, number)?;
    Ok((path.as_str() == name).then_some(number))
}
