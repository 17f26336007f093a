//! Bytes as hexadecimal digits.
use crate::words::text_of;
use std::alloc::{AllocError, Global};

/// The number of digits with which a number is written.
#[derive(Clone, Copy)]
pub enum Digits {
    Two,
    Four,
}

/// Returns the byte that two digits write, or 0.
fn byte_of(digits: &[u8]) -> u8 {
    u8::from_str_radix(text_of(digits), 16).unwrap_or(0)
}

/// Returns the bytes that digits write, two for each byte.
pub fn bytes_of(alloc: Global, digits: &str) -> Result<Vec<u8>, AllocError> {
    let mut bytes = Vec::new(alloc);
    for pair in digits.as_bytes().chunks_exact(2) {
        bytes.push(byte_of(pair))?;
    }
    Ok(bytes)
}

/// Returns the six bytes that twelve digits write.
pub fn six_bytes(digits: &str) -> [u8; 6] {
    let number: u64 = u64::from_str_radix(digits, 16).unwrap_or(0);
    let [_, _, a, b, c, d, e, f] = number.to_be_bytes();
    [a, b, c, d, e, f]
}

/// Appends a number in digits, and how often it comes where that is more than once.
fn add_run(
    alloc: Global,
    told: &mut String,
    digits: Digits,
    number: u16,
    count: usize,
) -> Result<(), AllocError> {
    let spelled = match digits {
        Digits::Two => format!(in alloc; " {number:02X}")?,
        Digits::Four => format!(in alloc; " {number:04X}")?,
    };
    told.push_str(spelled.as_str())?;
    if count > 1 {
        told.push_str(format!(in alloc; "*{count}")?.as_str())?;
    }
    Ok(())
}

/// Appends numbers in digits, each behind a space, where `BB*3` is three times the same.
pub fn add_runs(
    alloc: Global,
    told: &mut String,
    digits: Digits,
    numbers: &[u16],
) -> Result<(), AllocError> {
    let mut count: usize = 0;
    let mut last: u16 = 0;
    for number in numbers {
        if count > 0 && *number != last {
            add_run(alloc, told, digits, last, count)?;
            count = 0;
        }
        last = *number;
        count = count.saturating_add(1);
    }
    if count > 0 {
        add_run(alloc, told, digits, last, count)?;
    }
    Ok(())
}
